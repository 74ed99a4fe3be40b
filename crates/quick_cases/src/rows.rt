// The document's rows.
use crate::made::Pair;
use restated::columns::Kind;
use shown::Said;
use std::{fmt, io};

// Ten slots of a summary: block ends, the tree's first two, leaves, closings.
#[derive(Clone, Copy)]
struct Slots<'a>(&'a [u16]);

impl fmt::Display for Slots<'_> {
    fn fmt<W: fmt::Write>(&self, f: &mut fmt::Formatter<W>) -> fmt::Result {
        for slot in [0, 1, 2, 256, 257, 512, 513, 514, 768, 769] {
            write!(f, ", {slot}: {}", restated::summary::at(self.0, slot))?;
        }
        Ok(())
    }
}

fn ask(rt: &impl Print, bytes: &[u8], summary: &[u16], i: usize, j: usize) -> io::Result<()> {
    let said = quick::quick_ask(bytes, summary, i, j);
    println!(rt; "  quick ask {i}..{j}:{}", Said(said))
}

// Falling entries, in two blocks and in one.
pub fn falling(rt: &impl Print) -> io::Result<()> {
    for (n, last) in [(129, 128), (128, 127)] {
        let pair = Pair::of(Kind::Falling, n, 0);
        let mut summary = [7u16; 896];
        let said = summary::fill(pair.bytes(), &mut summary);
        println!(rt; "{n} falling, fill:{}{}", Said(said), Slots(&summary))?;
        ask(rt, pair.bytes(), &summary, 0, last)?;
    }
    Ok(())
}

// 4 2 4 2 9 with a summary of 65,535s, and with its own.
pub fn five(rt: &impl Print) -> io::Result<()> {
    let bytes = [0x52, 0x4D, 5, 0, 0x33, 1];
    let stretches = [(0, 4), (1, 3), (2, 4), (2, 2)];
    let mut summary = [65535; 896];
    println!(rt; "4 2 4 2 9, 65535s{}", Slots(&summary))?;
    for (i, j) in stretches {
        ask(rt, &bytes, &summary, i, j)?;
    }
    let said = summary::fill(&bytes, &mut summary);
    println!(rt; "4 2 4 2 9, fill:{}{}", Said(said), Slots(&summary))?;
    for (i, j) in stretches {
        ask(rt, &bytes, &summary, i, j)?;
    }
    Ok(())
}
