// Random columns: build and each lent buffer, check, stand-in, the record again, and every ask.
use crate::lent;
use judge::Judge;
use restated::columns::Kind;
use restated::{part, plain};
use std::io;

// A column of at most 200 entries, with more work and output lent than it needs.
fn column(columns: &mut Judge, asks: &mut Judge, column: &[u32]) {
    let mut work = [7u16; 202];
    let mut out = [0xEEu8; 56];
    let mut like = [0xEEu8; 56];
    let said = build::build(column, &mut work, &mut out);
    let size = plain::record(column, &mut like);
    columns.count(said == Ok(size));
    columns.count(lent::cleared(&work, column.len()));
    columns.count(out == like);
    let bytes = part::first(&out, size);
    columns.record(bytes);
    asks.asks(column, bytes, 0);
}

// A column of each length up to 200.
fn below(rt: &impl Print, values: u64) -> io::Result<()> {
    let mut columns = Judge::default();
    let mut asks = Judge::default();
    let mut entries = [0u32; 200];
    for n in 0..201 {
        Kind::Random(values).fill(&mut entries, n);
        column(&mut columns, &mut asks, part::first(&entries, n as usize));
    }
    println!(rt; "201 random columns of entries below {values}; {columns}")?;
    println!(rt; "every ask of theirs; {asks}")
}

pub fn columns(rt: &impl Print) -> io::Result<()> {
    for values in [2, 3, 16, 4294967296] {
        below(rt, values)?;
    }
    Ok(())
}
