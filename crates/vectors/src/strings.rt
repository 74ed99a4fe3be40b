// Random strings of bytes with the head of a record, as long as that says, or a byte shorter or longer.
use judge::Judge;
use restated::{part, plain, random};
use std::io;

pub fn all(rt: &impl Print) -> io::Result<()> {
    let mut judge = Judge::default();
    for k in 0..50000u32 {
        let n = k % 33;
        let mut bytes = [0u8; 14];
        random::fill(&mut bytes, k, 256);
        bytes[..4].copy_from_slice(&plain::head(n as u16));
        let size = 3 + n.div_ceil(4) + k / 33 % 3;
        judge.string(part::first(&bytes, size as usize));
    }
    println!(rt; "50000 random strings; {judge}")
}
