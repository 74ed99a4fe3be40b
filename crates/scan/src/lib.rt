// The byte table and the scan state of document 01, "The summary": whole bytes are read through a
// table of 256 rows of three. Whatever seeks a smallest excess reads parentheses through Scan and never
// sees the table's rows.
#![tactic(auto)]

pub mod mask;
mod rows;

ghost use Rattle.std.specs.Prelude.{◌≡◌, ℕ, ◌+◌, ◌*◌, ◌≤◌, ◌<◌, length, take, drop};
ghost use Rattle.rules.specs.Bytes.{low_bits, all_bits};
ghost use Rattle.scan.specs.Rows.{rows, cell};
ghost use Rattle.scan.specs.Scan.{Ready, scan_of};

// The table, row after row.
pub type RowTable = [i8; 768];

// The table as a value, for whoever wants its rows. A scan reads it where it lies.
pub fn table() -> RowTable
    ensures { result ≡ rows }
{
    rows::ROWS
}

// The number at place k of the table, counted from -8.
fn shifted(k: usize) -> usize
    requires { k < 768 }
    ensures { result ≡ cell k }
{
    ((rows::ROWS[k] as isize) + 8) as usize
}

// Excesses are counted from here: a record has at most 65,536 parentheses, so none is below 0.
pub const GROUND: usize = 65536;

// What a scan has seen: the excess now, the smallest so far, and the leftmost place where that stands.
#[derive(Clone, Copy)]
pub struct Scan {
    pub excess: usize,
    pub smallest: usize,
    pub place: usize,
}

impl Scan {
    // The state after the eight parentheses of byte b, the first of which stands at place at.
    pub fn byte(self, at: usize, b: u8) -> Scan
        requires { Ready self 8 × (at ≤ 1048576) }
        ensures { result ≡ scan_of self at (low_bits 8 b) }
    {
        let row = 3 * (b as usize);
        let excess = self.excess + shifted(row) - 8;
        let smallest = self.excess + shifted(row + 1) - 8;
        if smallest < self.smallest {
            let place = at + shifted(row + 2) - 8;
            return Scan {
                excess,
                smallest,
                place,
            };
        }
        Scan {
            excess,
            smallest: self.smallest,
            place: self.place,
        }
    }

    // The state after all parentheses of these bytes, the first of which stands at place at, byte by byte.
    fn each(self, part: &[u8], at: usize) -> Scan
        requires { Ready self (8 * length part.now) × (at + 8 * length part.now ≤ 1048576) }
        ensures { result ≡ scan_of self at (all_bits part.now) }
    {
        let mut st = self;
        for (k, &b) in part.iter().enumerate() {
            st = st.byte(at + 8 * k, b);
        }
        st
    }

    // The state after the eight bytes from number k on, where none of their parentheses goes below the smallest: then
    // only the closings count, and no row is looked up.
    fn eight(self, part: &[u8], k: usize) -> Scan
        requires { (self.smallest + 64 ≤ self.excess) × Ready self 64 × (k + 8 ≤ length part.now) }
        ensures { (p : ℕ) → result ≡ scan_of self p (all_bits (take 8 (drop k part.now))) }
    {
        let closings = words::closings(part, k);
        Scan {
            excess: self.excess + 64 - 2 * closings,
            smallest: self.smallest,
            place: self.place,
        }
    }

    // The same of 32 bytes.
    fn thirty_two(self, part: &[u8], k: usize) -> Scan
        requires { (self.smallest + 256 ≤ self.excess) × Ready self 256 × (k + 32 ≤ length part.now) }
        ensures { (p : ℕ) → result ≡ scan_of self p (all_bits (take 32 (drop k part.now))) }
    {
        let front = words::closings(part, k) + words::closings(part, k + 8);
        let rest = words::closings(part, k + 16) + words::closings(part, k + 24);
        Scan {
            excess: self.excess + 256 - 2 * (front + rest),
            smallest: self.smallest,
            place: self.place,
        }
    }

    // The state after all parentheses of these bytes, the first of which stands at place at. From an excess of 64 or
    // more above the smallest eight bytes are counted, from 256 or more 32 at a time; others are read one by one.
    pub fn bytes(self, part: &[u8], at: usize) -> Scan
        requires { Ready self (8 * length part.now) × (at + 8 * length part.now ≤ 1048576) }
        ensures { result ≡ scan_of self at (all_bits part.now) }
    {
        let mut st = self;
        let mut k = 0;
        while k + 8 <= part.len() {
            if st.smallest + 64 <= st.excess {
                if st.smallest + 256 <= st.excess && k + 32 <= part.len() {
                    st = st.thirty_two(part, k);
                    k += 32;
                } else {
                    st = st.eight(part, k);
                    k += 8;
                }
            } else {
                let to = k + 8;
                st = st.each(&part[k..to], at + 8 * k);
                k = to;
            }
        }
        st.each(&part[k..], at + 8 * k)
    }
}
