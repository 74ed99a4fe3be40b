// Records damaged: each bit turned over, alone and with the next one; cut short at each length; with a byte
// behind.
use judge::Judge;
use restated::columns::Kind;
use restated::{part, plain};
use std::io;

// Bit p turned over.
fn turn(bytes: &mut [u8; 40], p: usize) {
    if let Some(byte) = bytes.get_mut(p / 8) {
        *byte ^= 1 << (p % 8);
    }
}

fn bits(judge: &mut Judge, bytes: [u8; 40], size: usize) {
    for p in 0..size.saturating_mul(8) {
        let mut damaged = bytes;
        turn(&mut damaged, p);
        judge.string(part::first(&damaged, size));
        turn(&mut damaged, p + 1);
        judge.string(part::first(&damaged, size));
    }
}

// The first bytes, one and more, up to all.
fn cuts(judge: &mut Judge, bytes: &[u8]) {
    for k in 1..=bytes.len() {
        judge.string(&bytes[..k]);
    }
}

// Records of up to 128 random entries.
pub fn records(rt: &impl Print) -> io::Result<()> {
    let mut judge = Judge::default();
    for n in 0..129 {
        let mut column = [0u32; 128];
        let mut bytes = [0xEEu8; 40];
        Kind::Random(4).fill(&mut column, n);
        let size = plain::record(part::first(&column, n as usize), &mut bytes);
        cuts(&mut judge, part::first(&bytes, size.saturating_add(1)));
        bits(&mut judge, bytes, size);
    }
    println!(rt; "129 records damaged; {judge}")
}
