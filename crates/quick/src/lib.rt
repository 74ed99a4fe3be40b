// Quick ask: from a record and its summary. It reads a handful of blocks, whatever the column and the ask:
// of the first block, the last and one between only what can win. Nothing is asked of the bytes and the
// numbers; where the summary is the record's own, the answer is the plain ask's.
#![tactic(auto)]

mod part;

ghost use Rattle.std.specs.Prelude.{◌≡◌, ◌+◌, ◌*◌, ◌≤◌, ◌<◌, length, get_or};
ghost use Rattle.tree.specs.Tree.{Between};
ghost use Rattle.answers.specs.Said.{said};
ghost use Rattle.rules.specs.Bytes.{bytes_for, record_length};
ghost use Rattle.rules.specs.Summary.{QuickSays};
ghost use Rattle.quick.specs.Part.{ground_level, Block, ClosingAt};
ghost use Rattle.quick.specs.Quick.{Framed};

use answers::Refusal;
use part::{Body, Closing};
use scan::Scan;
use slots::Summary;
use tree::Best;

// Excesses are counted from here: above twice the number of any entry, so that none is below 0 whatever the
// summary says.
const GROUND: usize = 131072;

// A record's body, and beside it the numbers that are lent as its summary.
#[derive(Clone, Copy)]
struct Lent<'a> {
    body: Body<'a>,
    summary: Summary<'a>,
}

impl<'a> Lent<'a> {
    ghost use Rattle.quick.specs.Stretch.{Stands, Found};

    // The leaf of block k, counted from the ground.
    fn leaf(&self, k: usize) -> usize
        requires { k ≤ 255 }
        ensures { (result ≡ ground_level + get_or self.now.summary.numbers.now (512 + k) 0) × (result ≤ 196607) }
    {
        GROUND + self.summary.leaf(k)
    }

    // The place where closing number i stands, in block k: by the excess before the block, and the block's bits.
    // Inlined at each call, so that its result never goes through memory.
    #[inline(always)]
    fn stands(&self, k: usize, i: usize) -> Result<usize, Refusal>
        requires { Block self.now.body.bytes.now k × (i < 32768) }
        ensures { Stands self.now k i result }
    {
        let e = blocks::before(self.summary.numbers, k);
        let twice = (2 * i + e).checked_sub(256 * k).ok_or(Refusal::Foreign)?;
        let from = 32 * k;
        let end = self.body.end_of(k);
        let bits = &self.body.bytes[from..end];
        let x = blocks::select(bits, twice / 2).ok_or(Refusal::Foreign)?;
        Ok(256 * k + x)
    }

    // By the two blocks that the summary names.
    fn found(&self, n: usize, i: usize, j: usize) -> Result<usize, Refusal>
        requires { (length self.now.body.bytes.now ≡ bytes_for n) × (i ≤ j) × (j < n) × (n ≤ 32768) }
        ensures { Found self.now n i j (said result) }
    {
        let count = (2 * n + 255) / 256;
        let a = blocks::block(self.summary, count, i).ok_or(Refusal::Foreign)?;
        let b = blocks::block(self.summary, count, j).ok_or(Refusal::Foreign)?;
        if b < a {
            return Err(Refusal::Foreign);
        }
        let stretch = Stretch {
            lent: *self,
            a,
            b,
            i,
            j,
        };
        stretch.between()
    }
}

// What is asked: from closing i, looked for in block a, to closing j, in block b.
#[derive(Clone, Copy)]
struct Stretch<'a> {
    lent: Lent<'a>,
    a: usize,
    b: usize,
    i: usize,
    j: usize,
    ghost ordered: { a ≤ b },
    ghost last: { Block lent.body.bytes.now b },
    ghost order: { i ≤ j },
    ghost few: { j < 32768 },
}

impl<'a> Stretch<'a> {
    ghost use Rattle.quick.specs.Stretch.{First, Names, Finishes, Beyond, Apart, Spans};

    // The number of the entry whose closing stands where a scan has found the smallest excess; 9 where that is
    // none from i to j.
    fn entry(&self, end: Scan) -> Result<usize, Refusal>
        requires { end.smallest ≤ 1048576 }
        ensures { Names self.now end (said result) }
    {
        if GROUND < end.place {
            return Err(Refusal::Foreign);
        }
        let up = end.place + 1 + GROUND;
        let twice = up.checked_sub(end.smallest + 2).ok_or(Refusal::Foreign)?;
        let q = twice / 2;
        if q < self.i || self.j < q {
            return Err(Refusal::Foreign);
        }
        Ok(q)
    }

    // Closing i, looked for in block a, and the excess after it.
    fn first(&self) -> Result<Closing, Refusal>
        ensures { First self.now result }
    {
        let place = self.lent.stands(self.a, self.i)?;
        Ok(Closing {
            place,
            excess: GROUND + place + 1 - 2 * (self.i + 1),
        })
    }

    // The last block's part, where it can be lower than what stands lowest so far.
    fn finish(&self, best: Scan) -> Scan
        requires { best.smallest ≤ 1048576 }
        ensures { Finishes self.now best result }
    {
        let low = self.lent.leaf(self.b);
        if best.smallest <= low {
            return best;
        }
        let start = Scan {
            excess: GROUND + blocks::before(self.lent.summary.numbers, self.b),
            smallest: best.smallest,
            place: best.place,
        };
        self.lent.body.upto(start, self.b, self.j, low)
    }

    // Where a block between the first and the last stands lowest so far: the last one's part, and if that is not
    // lower, the block that the tree leads to.
    fn beyond(&self, best: Best) -> Result<usize, Refusal>
        requires { (self.now.a < self.now.b) × Between self.now.lent.summary.numbers.now self.now.a self.now.b best }
        ensures { Beyond self.now best (said result) }
    {
        if self.a + 1 == self.b {
            return Err(Refusal::Foreign);
        }
        let mid = GROUND + best.low;
        let none = Scan {
            excess: 0,
            smallest: mid,
            place: 0,
        };
        let end = self.finish(none);
        if end.smallest < mid {
            return self.entry(end);
        }
        let k = tree::descend(self.lent.summary, best.node, best.level);
        let before = GROUND + blocks::before(self.lent.summary.numbers, k);
        self.entry(self.lent.body.whole(k, before, mid))
    }

    // Two blocks, of which the first may have the lowest place: its part, then what follows it.
    fn from_first(&self, first: Closing, best: Best) -> Result<usize, Refusal>
        requires { (self.now.a < self.now.b) × ClosingAt self.now.lent.body.bytes.now self.now.a first.place × Between self.now.lent.summary.numbers.now self.now.a self.now.b best }
        ensures { Apart self.now first (said result) }
    {
        let part = self.lent.body.behind(self.a, first, self.lent.leaf(self.a));
        if part.smallest <= GROUND + best.low {
            return self.entry(self.finish(part));
        }
        self.beyond(best)
    }

    // Two blocks: where one between is lower than all of the first, the first is not read.
    fn apart(&self) -> Result<usize, Refusal>
        requires { self.now.a < self.now.b }
        ensures { Spans self.now (said result) }
    {
        let best = tree::climb(self.lent.summary, self.a, self.b);
        if GROUND + best.low < self.lent.leaf(self.a) {
            return self.beyond(best);
        }
        self.from_first(self.first()?, best)
    }

    // One block: from closing to closing. Where closing i is as low as the block goes, nothing is scanned.
    fn same(&self) -> Result<usize, Refusal>
        requires { self.now.a ≡ self.now.b }
        ensures { Spans self.now (said result) }
    {
        let first = self.first()?;
        let low = self.lent.leaf(self.a);
        if first.excess <= low {
            return Ok(self.i);
        }
        let y = self.lent.stands(self.a, self.j)?;
        if y < first.place {
            return Err(Refusal::Foreign);
        }
        self.entry(self.lent.body.within(self.a, first, y, low))
    }

    // From closing i to closing j. Where closing i is as low as the tree says that any of the blocks goes, nothing
    // is scanned.
    fn between(&self) -> Result<usize, Refusal>
        ensures { Spans self.now (said result) }
    {
        if self.a == self.b {
            return self.same();
        }
        let low = GROUND + tree::over(self.lent.summary, self.a, self.b);
        if low < self.lent.leaf(self.a) {
            return self.apart();
        }
        let first = self.first()?;
        if first.excess <= low {
            return Ok(self.i);
        }
        self.from_first(first, tree::climb(self.lent.summary, self.a, self.b))
    }
}

// Behind the frame: 11, 3, 8, then an answer or 9.
#[tactic(auto, using(crate::proofs::Framing::bytes_after, crate::proofs::Framing::summary_short, crate::proofs::Framing::range_missed))]
fn framed<'a>(
    bytes: &'a [u8],
    numbers: &'a [u16],
    n: usize,
    i: usize,
    j: usize,
) -> Result<usize, Refusal>
    requires { (record_length n ≤ length bytes.now) × (n ≤ 32768) }
    ensures { Framed bytes.now numbers.now n i j (said result) }
{
    if 4 + (n + 3) / 4 < bytes.len() {
        return Err(Refusal::BytesAfter);
    }
    if numbers.len() < 896 {
        return Err(Refusal::WorkShort);
    }
    if j < i || n <= j {
        return Err(Refusal::OutOfRange);
    }
    let lent = Lent {
        body: Body { bytes: &bytes[4..] },
        summary: Summary { numbers },
    };
    lent.found(n, i, j)
}

// The leftmost smallest entry from i to j, by the record and its summary: a handful of blocks is read. Where the
// summary is not the one filled from the record, some place from i to j, or 9.
#[tactic(auto, using(crate::proofs::Framing::frame_refused, crate::proofs::Framing::framed_long, crate::proofs::Framing::framed_few, crate::proofs::Framing::framed_asks))]
pub fn quick_ask(bytes: &[u8], summary: &[u16], i: usize, j: usize) -> Result<usize, Refusal>
    ensures { QuickSays bytes.now summary.now i j (said result) }
{
    framed(bytes, summary, checks::frame(bytes)?, i, j)
}
