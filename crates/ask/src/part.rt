// Some bytes of parentheses, read until a closing that is asked for.
ghost use Rattle.std.specs.Prelude.{◌≡◌, ◌+◌, ◌*◌, ◌≤◌, ◌<◌, length, take};
ghost use Rattle.rules.specs.Excess.{closings, closing_place};
ghost use Rattle.rules.specs.Bytes.{all_bits};
ghost use Rattle.scan.specs.Scan.{Ready, scan_of};
ghost use Rattle.ask.specs.Part.{ground_level, outset, Stops, Skips};

use crate::byte;
use scan::{GROUND, Scan};

// The byte in which a closing stands and its bit there, with the state before that byte.
#[derive(Clone, Copy)]
pub struct Stop {
    pub scan: Scan,
    pub byte: usize,
    pub bit: u32,
}

// Bytes ahead of a scan, which can read them all: its state before them, and the place of their first
// parenthesis.
#[derive(Clone, Copy)]
pub struct Ahead<'a> {
    pub scan: Scan,
    pub at: usize,
    pub bytes: &'a [u8],
    pub ghost ready: { Ready scan (8 * length bytes.now) },
    pub ghost near: { at + 8 * length bytes.now ≤ 1048576 },
}

impl<'a> Ahead<'a> {
    // Closing number k of the bytes. The excess tells how many closings have been read: it is ground, one
    // more for each parenthesis, and two less for each that closes.
    pub fn seek(self, k: usize) -> Stop
        requires { k < closings (all_bits self.bytes.now) }
        ensures { Stops self.entry.scan self.entry.at self.entry.bytes.now k result }
    {
        let ground = self.scan.excess;
        let mut here = self.scan;
        for (m, &b) in self.bytes.iter().enumerate() {
            let next = here.byte(self.at + 8 * m, b);
            if 2 * k + next.excess < 8 * (m + 1) + ground {
                let before = crate::closings(ground, 8 * m, here.excess);
                return Stop {
                    scan: here,
                    byte: m,
                    bit: byte::nth(b, k - before),
                };
            }
            here = next;
        }
        unreachable!()
    }

    // The state just behind closing number k of the bytes.
    pub fn through(self, k: usize) -> Scan
        requires { k < closings (all_bits self.bytes.now) }
        ensures { result ≡ scan_of self.entry.scan self.entry.at (take (closing_place (all_bits self.entry.bytes.now) k + 1) (all_bits self.entry.bytes.now)) }
    {
        let stop = self.seek(k);
        let m = stop.byte;
        byte::upto(stop.scan, self.at + 8 * m, self.bytes[m], stop.bit + 1)
    }
}

// Some bytes before a closing's, and the closings among them.
#[derive(Clone, Copy)]
pub struct Skipped {
    pub bytes: usize,
    pub closings: usize,
}

// The bytes before closing number k, counted by eights as far as the closing is not among them.
fn skip(part: &[u8], k: usize) -> Skipped
    requires { 8 * length part.now ≤ ground_level }
    ensures { Skips part.now k result }
{
    let mut closings = 0;
    for m in 0..part.len() / 8 {
        let bytes = 8 * m;
        let next = closings + words::closings(part, bytes);
        if k < next {
            return Skipped { bytes, closings };
        }
        closings = next;
    }
    Skipped {
        bytes: part.len() - part.len() % 8,
        closings,
    }
}

// Closing number k of these bytes, whose first parenthesis is the record's. Nothing before it is sought
// as the smallest, so the bytes before it are only counted, up to the last few.
pub fn find(part: &[u8], k: usize) -> Stop
    requires { (8 * length part.now ≤ ground_level) × (k < closings (all_bits part.now)) }
    ensures { Stops outset 0 part.now k result }
{
    let skipped = skip(part, k);
    let from = skipped.bytes;
    let scan = Scan {
        excess: GROUND + 8 * from - 2 * skipped.closings,
        smallest: 0,
        place: 0,
    };
    let rest = Ahead {
        scan,
        at: 8 * from,
        bytes: &part[from..],
    };
    let stop = rest.seek(k - skipped.closings);
    Stop {
        byte: from + stop.byte,
        ..stop
    }
}
