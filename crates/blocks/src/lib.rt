// The way to a closing: which block it stands in, by the summary, and where in the block, by its bits.
// Nothing here asks that the bytes be a record's or the numbers its summary: every function ends, and
// stays inside what it is lent, for any.
#![tactic(auto)]

pub mod byte;
pub mod word;

ghost use Rattle.std.specs.Prelude.{◌*◌, ◌≤◌, ◌<◌, length};
ghost use Rattle.rules.specs.Bytes.{all_bits};
ghost use Rattle.blocks.specs.Select.{Selects};
ghost use Rattle.blocks.specs.Search.{Passed, Stops, Last, StandsIn, Before};

use byte::Narrow;
use slots::Summary;

// The place of closing number k among the bits of these bytes, one byte after the other; none where there
// are not so many closings.
fn rest(part: &[u8], k: usize) -> Option<usize>
    requires { 8 * length part.now ≤ 1048576 }
    ensures { Selects (all_bits part.now) k result }
{
    let mut left = k;
    for (m, &b) in part.iter().enumerate() {
        let n = Narrow {
            bits: u64::from(b),
            k: left,
            at: 8 * m,
        };
        let c = byte::count_eight(n.bits);
        if left < c {
            return Some(byte::nth(n));
        }
        left -= c;
    }
    None
}

// The same eight bytes at a time, then in those that are left.
pub fn select(part: &[u8], k: usize) -> Option<usize>
    requires { 8 * length part.now ≤ 1048576 }
    ensures { Selects (all_bits part.now) k result }
{
    let mut left = k;
    for m in 0..part.len() / 8 {
        let at = 8 * m;
        let bits = words::word(part, at);
        let sums = word::sums(bits);
        let c = (sums >> 56) as usize;
        if left < c {
            let n = Narrow {
                bits,
                k: left,
                at: 8 * at,
            };
            return Some(byte::nth(word::to_byte(n, sums)));
        }
        left -= c;
    }
    let behind = part.len() - part.len() % 8;
    let x = rest(&part[behind..], left)?;
    Some(8 * behind + x)
}

// Whether no more than i closings stand up to the end of block b: there are (256(b + 1) - t[b]) / 2 of
// them, and nothing is subtracted.
fn passed(t: Summary<'_>, i: usize, b: usize) -> bool
    requires { (b ≤ 256) × (i < 32768) }
    ensures { Passed t.entry.numbers.now i b result }
{
    256 * (b + 1) <= 2 * i + t.end(b)
}

// The first block from one up to another behind which more than i closings stand, where the closings
// up to the ends of the blocks never fall; some block between in any case.
fn search(t: Summary<'_>, i: usize, from: usize, to: usize) -> usize
    requires { (from ≤ to) × (to ≤ 256) × (i < 32768) }
    ensures { Stops t.entry.numbers.now i from to result }
{
    let mut lo = from;
    let mut hi = to;
    while lo < hi {
        let mid = (lo + hi) / 2;
        if passed(t, i, mid) {
            lo = mid + 1;
        } else {
            hi = mid;
        }
    }
    lo
}

// A block behind which no closing before number 256(q + 1) stands: that one's, where slot 769 + q names a
// block from first on, else the last there is.
fn last(t: Summary<'_>, blocks: usize, first: usize, q: usize) -> usize
    requires { (first < blocks) × (q < 128) }
    ensures { Last t.entry.numbers.now blocks first q result }
{
    if q < 127 {
        let next = t.block_of(q + 1);
        if (first..blocks).contains(&next) {
            return next;
        }
    }
    blocks - 1
}

// The block in which closing number i stands; none where the summary names a block that is not there. Most
// often it is one of three, told by two ends that are read side by side; else it is searched for.
pub fn block(t: Summary<'_>, blocks: usize, i: usize) -> Option<usize>
    requires { (blocks ≤ 256) × (i < 32768) }
    ensures { StandsIn t.entry.numbers.now blocks i result }
{
    let q = i / 256;
    let first = t.block_of(q);
    if blocks <= first {
        return None;
    }
    let b = first + usize::from(passed(t, i, first)) + usize::from(passed(t, i, first + 1));
    if b + 1 < blocks && !passed(t, i, b) {
        return Some(b);
    }
    Some(search(t, i, first, last(t, blocks, first, q)))
}

// The excess before block k, from the numbers that say where each ends.
pub fn before(ends: &[u16], k: usize) -> usize
    requires { k < length ends.now }
    ensures { Before ends.now k result }
{
    if k == 0 {
        return 0;
    }
    let last = k - 1;
    usize::from(ends[last])
}
