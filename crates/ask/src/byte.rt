// One byte of parentheses: where a closing stands in it, and what a scan makes of a part of it. The
// parts are made whole by a mask, so that they too go through the table.
ghost use Rattle.std.specs.Prelude.{◌≡◌, ◌+◌, ◌≤◌, ◌<◌, take, drop};
ghost use Rattle.rules.specs.Excess.{closings, closing_place};
ghost use Rattle.rules.specs.Bytes.{low_bits};
ghost use Rattle.scan.specs.Scan.{Ready, scan_of};
ghost use Rattle.ask.specs.Byte.{begun, shorter, Begins};

use blocks::byte::Narrow;
use scan::Scan;

// The bit at which closing number k of byte b stands.
pub fn nth(b: u8, k: usize) -> u32
    requires { k < closings (low_bits 8 b) }
    ensures { result ≡ closing_place (low_bits 8 b) k }
{
    let bits = u64::from(b);
    blocks::byte::nth(Narrow { bits, k, at: 0 }) as u32
}

// The state with its last u parentheses taken back, which were openings and so never the smallest.
fn without(st: Scan, u: u32) -> Scan
    requires { u ≤ st.excess }
    ensures { result ≡ shorter st u }
{
    Scan {
        excess: st.excess - (u as usize),
        ..st
    }
}

// The state after the first k parentheses of byte b. What is behind them is read as openings.
pub fn upto(st: Scan, at: usize, b: u8, k: u32) -> Scan
    requires { Ready st 8 × (at ≤ 1048576) × (0 < k) × (k ≤ 8) }
    ensures { result ≡ scan_of st at (take k (low_bits 8 b)) }
{
    without(st.byte(at, scan::mask::opened(b, k)), 8 - k)
}

// Where a scan begins: at the closing at this bit of a byte, whose first bit stands at place at. After the
// closing the excess is this.
#[derive(Clone, Copy)]
pub struct Start {
    pub at: usize,
    pub byte: u8,
    pub bit: u32,
    pub excess: usize,
    pub ghost begins: { Begins at byte bit excess },
}

impl Start {
    // The state behind the byte. What is before the closing is read as closings, each of which leaves a
    // greater excess.
    pub fn behind(self) -> Scan
        ensures { result ≡ scan_of (begun self.excess (self.at + self.bit)) (self.at + self.bit + 1) (drop (self.bit + 1) (low_bits 8 self.byte)) }
    {
        let start = Scan {
            excess: self.excess + (self.bit as usize) + 1,
            smallest: 1048576,
            place: 0,
        };
        start.byte(self.at, scan::mask::closed(self.byte, self.bit))
    }

    // The state after the byte's first k parentheses, the closing's among them.
    pub fn within(self, k: u32) -> Scan
        requires { (self.bit < k) × (k ≤ 8) }
        ensures { result ≡ scan_of (begun self.excess (self.at + self.bit)) (self.at + self.bit + 1) (drop (self.bit + 1) (take k (low_bits 8 self.byte))) }
    {
        let whole = Start {
            at: self.at,
            byte: scan::mask::opened(self.byte, k),
            bit: self.bit,
            excess: self.excess,
        };
        without(whole.behind(), 8 - k)
    }
}
