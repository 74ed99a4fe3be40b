// One record, its asks or a string of bytes, against the rules restated plainly.
#![tactic(auto)]

ghost use Rattle.std.specs.Prelude.{◌<◌};

use answers::Refusal;
use restated::tally::{Seen, Tally};
use restated::{part, plain};
use std::fmt;

// What was compared, and what the check said of the strings.
#[derive(Clone, Copy, Default)]
pub struct Judge {
    pub tally: Tally,
    pub seen: Seen,
}

impl Judge {
    // One comparison more.
    pub fn count(&mut self, holds: bool) {
        self.tally.count(holds);
    }

    // A record of at most 200 entries that passes the check.
    pub fn record(&mut self, bytes: &[u8]) {
        self.record_in::<202, 56>(bytes);
    }

    // The same of one of any length.
    pub fn long_record(&mut self, bytes: &[u8]) {
        self.record_in::<32769, 8197>(bytes);
    }

    // What the check says; the stand-in, which is all that changes in the column; the record of that column, which is
    // the record again; and an ask past the last entry. The lent buffers have room for more than these.
    fn record_in<const ENTRIES: usize, const BYTES: usize>(&mut self, bytes: &[u8])
        requires { (ENTRIES < 65536) × (BYTES < 65536) }
    {
        let mut column = [8u32; ENTRIES];
        let mut like = [8u32; ENTRIES];
        let mut work = [7u16; ENTRIES];
        let mut out = [0xEEu8; BYTES];
        let n = plain::entries(bytes);
        self.count(checks::check(bytes) == Ok(n));
        plain::stand_in(bytes, &mut like);
        let stood = stand_in::stand_in(bytes, &mut column);
        self.count(stood == Ok(n) && column == like);
        let built = build::build(part::first(&column, n), &mut work, &mut out);
        let again = part::first(&out, bytes.len()) == bytes;
        self.count(built == Ok(bytes.len()) && again);
        self.count(ask::ask(bytes, 0, n) == Err(Refusal::OutOfRange));
    }

    // Asks on a column's record, against the column's own leftmost smallest places. Between two places where asks
    // begin or end, skip entries are left out.
    pub fn asks(&mut self, column: &[u32], bytes: &[u8], skip: usize) {
        let step = skip.saturating_add(1);
        for i in (0..column.len()).step_by(step) {
            for j in (i..column.len()).step_by(step) {
                let place = plain::least(column, i, j);
                self.count(ask::ask(bytes, i, j).ok() == place);
            }
        }
    }

    // Bytes that the check refuses: so do ask and stand-in, whatever they could refuse for later, and no number
    // changes.
    fn refused(&mut self, bytes: &[u8], refusal: Refusal) {
        let mut column = [8u32; 3];
        self.count(checks::check(bytes) == Err(refusal));
        self.count(ask::ask(bytes, 1, 0) == Err(refusal));
        let stood = stand_in::stand_in(bytes, &mut column);
        self.count(stood == Err(refusal));
        self.count(column == [8; 3]);
    }

    // Any bytes, of at most 200 entries where they are a record.
    pub fn string(&mut self, bytes: &[u8]) {
        let said = plain::check(bytes);
        self.seen.see(&said);
        self.count(checks::frame(bytes) == plain::frame(bytes));
        match said {
            Ok(_) => self.record(bytes),
            Err(refusal) => self.refused(bytes, refusal),
        }
    }
}

impl fmt::Display for Judge {
    fn fmt<W: fmt::Write>(&self, f: &mut fmt::Formatter<W>) -> fmt::Result {
        for (refusal, count) in self.seen.counts.iter().enumerate() {
            match (refusal, *count) {
                (_, 0) => {}
                (0, strings) => write!(f, "{strings} pass; ")?,
                (_, strings) => write!(f, "{strings} refused {refusal}; ")?,
            }
        }
        write!(f, "{}", self.tally)
    }
}
