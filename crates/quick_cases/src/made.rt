// Records and summaries as the library makes them.
ghost use Rattle.std.specs.Prelude.{◌<◌};

use restated::columns::Kind;
use restated::{part, plain, random};

// The column's record, at the start of the output.
pub fn record<'a>(column: &[u32], out: &'a mut [u8]) -> &'a [u8] {
    let mut work = [7u16; 32768];
    let said = build::build(column, &mut work, out);
    part::first(out, said.unwrap_or(0))
}

// A length from 1 to `most`.
pub fn length(k: u32, most: usize) -> usize {
    1 + random::place(random::far(k), most)
}

// A record of at most 2,048 entries, and a summary to ask it with.
#[derive(Clone, Copy)]
pub struct Pair {
    pub record: [u8; 516],
    pub summary: [u16; 896],
}

impl Pair {
    // The record of a column of this kind, and its own summary.
    pub fn of(kind: Kind, n: usize, seed: u32) -> Pair {
        let mut entries = [0u32; 2048];
        let column = part::first_mut(&mut entries, n);
        kind.fill(column, seed.into());
        let mut pair = Pair {
            record: [0; 516],
            summary: [7; 896],
        };
        let bytes = record(column, &mut pair.record);
        let _ = summary::fill(bytes, &mut pair.summary);
        pair
    }

    // The record's entries.
    pub fn entries(&self) -> usize
        ensures { result < 65536 }
    {
        plain::entries(&self.record)
    }

    pub fn bytes(&self) -> &[u8] {
        part::first(&self.record, plain::size(self.entries()))
    }
}
