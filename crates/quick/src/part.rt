// Parts of a record's body through the table: from a closing on, up to a closing, a whole block. Each stops
// where it has come as low as the summary says that the block goes.
ghost use Rattle.std.specs.Prelude.{◌≡◌, ◌+◌, ◌*◌, ◌≤◌, ◌<◌, length, get_or};
ghost use Rattle.rules.specs.Shape.{opening, closing};
ghost use Rattle.rules.specs.Bytes.{all_bits};
ghost use Rattle.scan.specs.Scan.{Ready};
ghost use Rattle.quick.specs.Part.{end_of, ClosingAt, Near, Begun, Runs, FromClosing, GoesOn, EndsIn, Reaches};

use crate::GROUND;
use ask::byte::Start;
use blocks::byte::Narrow;
use scan::Scan;

// Bytes until they end or the smallest is as low as stop.
fn run(st: Scan, part: &[u8], at: usize, stop: usize) -> Scan
    requires { Ready st (8 * length part.now) × (at + 8 * length part.now ≤ 1048576) }
    ensures { Runs st at part.now stop result }
{
    let mut here = st;
    for (m, &b) in part.iter().enumerate() {
        if here.smallest <= stop {
            return here;
        }
        here = here.byte(at + 8 * m, b);
    }
    here
}

// Byte b, whose first bit stands at place at, up to closing number j of the body. Where the excess is no true
// one, so that the closing is not in this byte, nothing of it.
#[tactic(auto, using(crate::proofs::Reaching::place_low))]
fn last(here: Scan, at: usize, b: u8, j: usize) -> Scan
    requires { Ready here 8 × (at ≤ 65536) × (j < 32768) }
    ensures { EndsIn here at b j result }
{
    // Before the byte stand (at + GROUND - excess) / 2 closings.
    let Some(twice) = (2 * j + here.excess).checked_sub(at + GROUND) else {
        return here;
    };
    let n = Narrow {
        bits: u64::from(b),
        k: twice / 2,
        at: 0,
    };
    if blocks::byte::count_eight(n.bits) <= n.k {
        return here;
    }
    ask::byte::upto(here, at, b, blocks::byte::nth(n) as u32 + 1)
}

// A closing by its place, and the excess after it: one that a place can have, whatever a summary says.
#[derive(Clone, Copy)]
pub struct Closing {
    pub place: usize,
    pub excess: usize,
    pub ghost near: { Near excess },
}

// A body that a frame has let by.
#[derive(Clone, Copy)]
pub struct Body<'a> {
    pub bytes: &'a [u8],
    pub ghost few: { length bytes.now ≤ 8192 },
}

impl<'a> Body<'a> {
    // The byte with which block k ends.
    pub fn end_of(self, k: usize) -> usize
        requires { k ≤ 255 }
        ensures { result ≡ end_of self.entry.bytes.now k }
    {
        self.bytes.len().min(32 * k + 32)
    }

    // The start of a scan at this closing.
    #[tactic(auto, using(crate::proofs::Closings::begins))]
    fn start(self, from: Closing) -> Start
        requires { (from.place < 8 * length self.bytes.now) × (get_or (all_bits self.bytes.now) from.place opening ≡ closing) }
        ensures { Begun self.entry.bytes.now from.place from.excess result.at result.byte result.bit result.excess }
    {
        let m = from.place / 8;
        Start {
            at: 8 * m,
            byte: self.bytes[m],
            bit: (from.place % 8) as u32,
            excess: from.excess,
        }
    }

    // From a closing to the end of its block k.
    pub fn behind(self, k: usize, from: Closing, stop: usize) -> Scan
        requires { (k ≤ 255) × ClosingAt self.bytes.now k from.place }
        ensures { FromClosing self.entry.bytes.now from.place (8 * end_of self.entry.bytes.now k) from.excess stop result }
    {
        let here = self.start(from).behind();
        let next = from.place / 8 + 1;
        let end = self.end_of(k);
        run(here, &self.bytes[next..end], 8 * next, stop)
    }

    // From a closing up to the closing at place y of the same block k.
    pub fn within(self, k: usize, from: Closing, y: usize, stop: usize) -> Scan
        requires { (k ≤ 255) × ClosingAt self.bytes.now k from.place × ClosingAt self.bytes.now k y × (from.place ≤ y) }
        ensures { FromClosing self.entry.bytes.now from.place (y + 1) from.excess stop result }
    {
        let start = self.start(from);
        let bits = (y % 8) as u32 + 1;
        let q = y / 8;
        if from.place / 8 == q {
            return start.within(bits);
        }
        let next = from.place / 8 + 1;
        let mid = run(start.behind(), &self.bytes[next..q], 8 * next, stop);
        if mid.smallest <= stop {
            return mid;
        }
        ask::byte::upto(mid, 8 * q, self.bytes[q], bits)
    }

    // From the start of block k, in state st, up to closing number j of the body: it stands in the first byte
    // behind which more than j closings are counted.
    pub fn upto(self, st: Scan, k: usize, j: usize, stop: usize) -> Scan
        requires { (k ≤ 255) × (32 * k ≤ length self.bytes.now) × (j < 32768) × Ready st 256 }
        ensures { Reaches self.entry.bytes.now k j st stop result }
    {
        let mut here = st;
        for m in 32 * k..self.end_of(k) {
            if here.smallest <= stop {
                return here;
            }
            let b = self.bytes[m];
            let at = 8 * m;
            let next = here.byte(at, b);
            if 2 * j + 2 + next.excess <= at + 8 + GROUND {
                return last(here, at, b, j);
            }
            here = next;
        }
        here
    }

    // All of block k, before which the excess is e.
    pub fn whole(self, k: usize, e: usize, stop: usize) -> Scan
        requires { (k ≤ 255) × (32 * k ≤ length self.bytes.now) × Near e }
        ensures { GoesOn self.entry.bytes.now (256 * k) (8 * end_of self.entry.bytes.now k) (record { excess = e; smallest = 1048576; place = 0 }) stop result }
    {
        let start = Scan {
            excess: e,
            smallest: 1048576,
            place: 0,
        };
        let from = 32 * k;
        let end = self.end_of(k);
        run(start, &self.bytes[from..end], 256 * k, stop)
    }
}
