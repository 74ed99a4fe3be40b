// Every string of bytes that is framed as a record of up to eight entries.
use judge::Judge;
use restated::{part, plain};
use std::io;

// One string; where it is a record, every ask too, against its stand-in.
fn string(judge: &mut Judge, bytes: &[u8]) {
    judge.string(bytes);
    if let Ok(n) = plain::check(bytes) {
        let mut column = [0u32; 8];
        plain::stand_in(bytes, &mut column);
        judge.asks(part::first(&column, n), bytes, 0);
    }
}

// Those of n entries: in the one or two bytes behind the head, the numbers up to `last`.
fn of(rt: &impl Print, n: u8, last: u16) -> io::Result<()> {
    let mut judge = Judge::default();
    for body in 0..=last {
        let [low, high] = body.to_le_bytes();
        let bytes = [0x52, 0x4D, n, 0, low, high];
        string(&mut judge, part::first(&bytes, plain::size(usize::from(n))));
    }
    println!(rt; "every body, n = {n}; {judge}")
}

pub fn bodies(rt: &impl Print) -> io::Result<()> {
    of(rt, 0, 0)?;
    for n in 1..=4 {
        of(rt, n, 255)?;
    }
    for n in 5..=8 {
        of(rt, n, 65535)?;
    }
    Ok(())
}
