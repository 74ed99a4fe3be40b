// Columns and their own summaries: build's length, fill's answer and all 896 numbers, and quick asks against the
// column's own leftmost smallest place.
use crate::made;
use restated::columns::Kind;
use restated::random::Stretch;
use restated::tally::Tally;
use restated::{part, plain, random};
use std::{fmt, io};

#[derive(Clone, Copy, Default)]
struct Run {
    fills: Tally,
    asks: Tally,
}

impl Run {
    // A column and its record, with so many stretches asked. The summary is lent longer than it is, full of 7, so
    // that the rest is compared too.
    fn column(&mut self, column: &[u32], bytes: &[u8], seed: u32, asks: u32) {
        let n = column.len();
        let mut summary = [7u16; 900];
        let mut like = [7u16; 900];
        like[..896].copy_from_slice(&restated::summary::of(bytes));
        let filled = summary::fill(bytes, &mut summary);
        self.fills.count(bytes.len() == plain::size(n));
        self.fills.count(filled == Ok(n));
        self.fills.count(summary == like);
        let mut x = seed;
        for _ in 0..asks {
            x = random::next(x);
            let Stretch { i, j } = Stretch::of(x, n);
            let said = quick::quick_ask(bytes, &summary, i, j);
            self.asks.count(said.ok() == plain::least(column, i, j));
        }
    }
}

impl fmt::Display for Run {
    fn fmt<W: fmt::Write>(&self, f: &mut fmt::Formatter<W>) -> fmt::Result {
        let Run { fills, asks } = self;
        write!(f, "{fills}\n  their quick asks; {asks}")
    }
}

// So many columns of up to 2,048 entries.
fn many(rt: &impl Print, name: &str, kind: Kind, count: u32) -> io::Result<()> {
    let mut run = Run::default();
    for k in 0..count {
        let mut entries = [0u32; 2048];
        let mut out = [0xEEu8; 520];
        let column = part::first_mut(&mut entries, made::length(k, 2048));
        kind.fill(column, k.into());
        run.column(column, made::record(column, &mut out), k, 40);
    }
    println!(rt; "{name}, {count} columns; {run}")
}

pub fn columns(rt: &impl Print) -> io::Result<()> {
    let rows = [
        ("random below 2", Kind::Random(2), 500),
        ("random below 3", Kind::Random(3), 500),
        ("random below 16", Kind::Random(16), 500),
        ("random below 4294967296", Kind::Random(4294967296), 500),
        ("equal", Kind::Random(1), 100),
        ("falling", Kind::Falling, 100),
        ("0, then falling", Kind::Worst, 100),
        ("falling with noise", Kind::Noisy, 200),
        ("saw of 7", Kind::Saw(7), 100),
        ("saw of 300", Kind::Saw(300), 100),
    ];
    for (name, kind, count) in rows {
        many(rt, name, kind, count)?;
    }
    Ok(())
}

// The longest column.
fn longest(rt: &impl Print, name: &str, kind: Kind) -> io::Result<()> {
    let mut run = Run::default();
    let mut column = [0u32; 32768];
    let mut out = [0xEEu8; 8200];
    kind.fill(&mut column, 1);
    run.column(&column, made::record(&column, &mut out), 2, 1000);
    println!(rt; "32768 entries, {name}; {run}")
}

pub fn long(rt: &impl Print) -> io::Result<()> {
    let rows = [
        ("random below 2", Kind::Random(2)),
        ("random below 4294967296", Kind::Random(4294967296)),
        ("equal", Kind::Random(1)),
        ("falling", Kind::Falling),
        ("0, then falling", Kind::Worst),
        ("falling with noise", Kind::Noisy),
        ("saw of 300", Kind::Saw(300)),
    ];
    for (name, kind) in rows {
        longest(rt, name, kind)?;
    }
    Ok(())
}
