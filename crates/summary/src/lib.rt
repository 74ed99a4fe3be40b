// Fill: the summary of a record, in one pass over its bytes and one over the tree.
#![tactic(auto)]

mod block;

ghost use Rattle.std.specs.Prelude.{◌≡◌, ◌+◌, ◌-◌, ◌*◌, ◌/◌, ◌%◌, ◌≤◌, ◌<◌};
ghost use Rattle.rules.specs.Bytes.{parens};
ghost use Rattle.rules.specs.Summary.{blocks_for};
ghost use Rattle.summary.specs.Fills.{Fills};
ghost use Rattle.summary.specs.Laid.{Lays, Grows, closed, fresh_at};
ghost use Rattle.summary.specs.Reads.{Reads};

use answers::Refusal;
use block::Block;
use checks::record::Record;
use scan::{GROUND, Scan};

// The record's summary in the first 896 numbers, and n; or the first refusal of document 01's order. It takes a
// number of steps in proportion to n.
pub fn fill(bytes: &[u8], summary: &mut [u16]) -> Result<usize, Refusal>
    ensures { Fills bytes.now summary.old result summary.new }
{
    let checked = Record::of(bytes)?;
    let Some(slots) = summary.first_chunk_mut() else {
        return Err(Refusal::WorkShort);
    };
    slots.fill(65535);
    blocks(checked, slots);
    tree(slots);
    Ok(checked.entries)
}

// All slots but the tree's inner nodes: one pass over the bytes.
#[tactic(auto, using(crate::proofs::Sizes::blocks))]
fn blocks(checked: Record, slots: &mut [u16; 896])
    ensures { Lays (parens checked.entry.entries checked.entry.bytes.now) 0 (blocks_for checked.entry.entries) slots.old slots.new }
{
    let n = checked.entries;
    let mut passed = 0;
    for k in 0..n / 128 {
        let block = whole(checked, k, passed);
        block.note(k, slots);
        passed = block.upto;
    }
    if 0 < n % 128 {
        last(checked, passed).note(n / 128, slots);
    }
}

// Block k with its 256 parentheses, behind the closings passed.
#[tactic(auto, using(crate::proofs::Sizes::blocks, crate::proofs::Sizes::exact))]
fn whole(checked: Record, k: usize, passed: usize) -> Block
    requires { (k < checked.entries / 128) × (passed ≡ closed (parens checked.entries checked.bytes.now) k) }
    ensures { Reads (parens checked.entry.entries checked.entry.bytes.now) k result }
{
    let at = 4 + 32 * k;
    let to = at + 32;
    let st = fresh(k, passed).bytes(&checked.bytes[at..to], 0);
    Block {
        from: passed,
        upto: (256 * k + 256 + GROUND - st.excess) / 2,
        end: (st.excess - GROUND) as u16,
        least: (st.smallest - GROUND) as u16,
    }
}

// The last block, where it is short, behind the closings passed. It ends at an excess of 0 and with closing n - 1.
// The unused bits of its last byte are read as openings, which are never the smallest.
#[tactic(auto, using(crate::proofs::Sizes::blocks, crate::proofs::Sizes::exact))]
fn last(checked: Record, passed: usize) -> Block
    requires { (0 < checked.entries % 128) × (passed ≡ closed (parens checked.entries checked.bytes.now) (checked.entries / 128)) }
    ensures { Reads (parens checked.entry.entries checked.entry.bytes.now) (checked.entry.entries / 128) result }
{
    let n = checked.entries;
    let k = n / 128;
    let at = 4 + 32 * k;
    let end = checked.bytes.len() - 1;
    let spare = (8 - 2 * (n % 4)) % 8;
    let st = fresh(k, passed).bytes(&checked.bytes[at..end], 0);
    let tail = checked.bytes[end];
    let opened = scan::mask::opened(tail, 8 - (spare as u32));
    let low = st.byte(8 * (end - at), opened);
    Block {
        from: passed,
        upto: n,
        end: 0,
        least: (low.smallest - GROUND) as u16,
    }
}

// The scan of block k starts at the excess behind the closings passed, with a smallest above every excess.
fn fresh(k: usize, passed: usize) -> Scan
    requires { (k ≤ 256) × (2 * passed ≤ 256 * k) }
    ensures { result ≡ fresh_at (65536 + (256 * k - 2 * passed)) }
{
    Scan {
        excess: GROUND + 256 * k - 2 * passed,
        smallest: GROUND + 65535,
        place: 0,
    }
}

// The tree from the leaves to the root: node v has the smaller of nodes 2v and 2v + 1.
fn tree(slots: &mut [u16; 896])
    ensures { Grows 0 slots.old slots.new }
{
    for v in (1..256).rev() {
        slots[256 + v] = slots[256 + 2 * v].min(slots[257 + 2 * v]);
    }
}
