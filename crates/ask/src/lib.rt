// Plain ask: from a record alone. Behind the record check the bytes before closing i's are counted, and each
// from there to closing j's is read through the table.
#![tactic(auto)]

pub mod byte;
pub mod part;

ghost use Rattle.std.specs.Prelude.{◌≡◌, ◌+◌, ◌-◌, ◌/◌, ◌≤◌, ◌<◌};
ghost use Rattle.rules.specs.Excess.{entry_between};
ghost use Rattle.rules.specs.Bytes.{parens, all_bits};
ghost use Rattle.rules.specs.Order.{ask_says};
ghost use Rattle.answers.specs.Said.{said};
ghost use Rattle.ask.specs.Between.{seen_between, Asked};

use answers::Refusal;
use checks::record::Record;
use scan::{GROUND, Scan};

// The closings among p parentheses, before which the excess is ground and after which it is e: each takes
// two off ground and p together.
fn closings(ground: usize, p: usize, e: usize) -> usize
    requires { (e ≤ ground + p) × (ground + p ≤ 1048576) }
    ensures { result ≡ (ground + p - e) / 2 }
{
    (ground + p - e) / 2
}

// The scan that begins with closing i and ends with closing j: a part of closing i's byte, and where
// closing j is not in it the whole bytes behind it and a part of closing j's.
fn lowest(body: &[u8], i: usize, j: usize) -> Scan
    requires { Asked body.now i j }
    ensures { result ≡ seen_between (all_bits body.now) i j }
{
    let first = part::find(body, i);
    let at = 8 * first.byte;
    let start = byte::Start {
        at,
        byte: body[first.byte],
        bit: first.bit,
        excess: GROUND + at + (first.bit as usize) - 2 * i - 1,
    };
    let here = start.behind();
    let next = first.byte + 1;
    let passed = closings(GROUND, 8 * next, here.excess);
    if j < passed {
        let before = closings(GROUND, at, first.scan.excess);
        let last = byte::nth(start.byte, j - before);
        return start.within(last + 1);
    }
    let rest = part::Ahead {
        scan: here,
        at: 8 * next,
        bytes: &body[next..],
    };
    rest.through(j - passed)
}

// The entry whose closing is the leftmost place of smallest excess from closing i to closing j.
fn between(checked: Record, i: usize, j: usize) -> usize
    requires { (i ≤ j) × (j < checked.entries) }
    ensures { result ≡ entry_between (parens checked.entry.entries checked.entry.bytes.now) i j }
{
    let end = lowest(&checked.bytes[4..], i, j);
    closings(GROUND, end.place + 1, end.smallest) - 1
}

// The leftmost smallest entry from i to j, both counted in, of the column whose record this is: the
// record check, then 8 for i above j or j of n or more. Time in proportion to the record.
pub fn ask(bytes: &[u8], i: usize, j: usize) -> Result<usize, Refusal>
    ensures { said result ≡ ask_says bytes.now i j }
{
    let checked = Record::of(bytes)?;
    if j < i || checked.entries <= j {
        return Err(Refusal::OutOfRange);
    }
    Ok(between(checked, i, j))
}
