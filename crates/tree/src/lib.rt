// The tree of smallest excesses in a lent summary (document 01, "The summary"): from two blocks up to
// the node between them that has the smallest number, and from a node down to its block. The numbers
// may be any numbers: no search leaves the tree, and where every node is the smaller of its halves it
// finds the leftmost block.
#![tactic(auto)]

ghost use Rattle.std.specs.Prelude.{◌≡◌, ◌+◌, ◌-◌, ◌%◌, ◌≤◌, ◌<◌};
ghost use Rattle.tree.specs.Tree.{at, Within, Half, Descended, Between, Over};
ghost use Rattle.tree.specs.Keys.{key_of, left_key, right_key, best_of};

use slots::Summary;

// The half of node v to which a search goes: the one with the smaller number, the left one where they tie.
fn half(t: Summary<'_>, v: usize) -> usize
    requires { v < 256 }
    ensures { Half t.entry.numbers.now v result }
{
    let left = 2 * v;
    let right = left + 1;
    if t.node(left) <= t.node(right) {
        left
    } else {
        right
    }
}

// The block to which a search comes down from node v, which stands level levels above the leaves: the
// leftmost of those with the node's number. It goes to one of the node's two halves, one level fewer
// each time.
pub fn descend(t: Summary<'_>, v: usize, level: usize) -> usize
    requires { Within v level 256 512 }
    ensures { Descended t.entry.numbers.now v level result }
{
    if level == 0 {
        return v - 256;
    }
    descend(t, half(t, v), level - 1)
}

// A node with the smallest number among some that stand side by side, the leftmost of them.
#[derive(Clone, Copy)]
pub struct Best {
    pub low: usize,
    pub node: usize,
    pub level: usize,
}

// A node's key: the smaller of two has the smaller number and, where these are equal, the smaller rank.
// Where out is 1 the key is above that of any node. With keys the climb has no branch but its loop's.
fn key(t: Summary<'_>, v: usize, out: usize, rank: usize) -> usize
    requires { (v < 512) × (out ≤ 1) × (rank < 16) }
    ensures { (result ≡ key_of t.entry.numbers.now v out rank) × (at t.entry.numbers.now v ≤ 65535) }
{
    16 * (t.node(v) + 65536 * out) + rank
}

// What the climb passes at node l over block a, h levels up: the right neighbour. It is out where it
// has another parent; that parent, or one above, is passed later.
fn left_key(t: Summary<'_>, l: usize, h: usize) -> usize
    requires { (l < 511) × (h ≤ 7) }
    ensures { (result ≡ left_key t.entry.numbers.now l h) × (at t.entry.numbers.now (l + 1 - l % 2) ≤ 65535) }
{
    key(t, l + 1 - l % 2, l % 2, h)
}

// The same at node r over block b: the left neighbour. Here what is passed later stands further left,
// so its rank is smaller.
fn right_key(t: Summary<'_>, r: usize, h: usize) -> usize
    requires { (r < 512) × (h ≤ 7) }
    ensures { (result ≡ right_key t.entry.numbers.now r h) × (at t.entry.numbers.now (r - r % 2) ≤ 65535) }
{
    key(t, r - r % 2, 1 - r % 2, 15 - h)
}

// The node with this key, passed on the way up from a or from b.
fn passed(best: usize, a: usize, b: usize) -> Best
    requires { (a ≤ 255) × (b ≤ 255) }
    ensures { result ≡ best_of a b best }
{
    let low = best / 16;
    let rank = best % 16;
    if rank < 8 {
        Best {
            low,
            node: ((256 + a) >> rank) + 1,
            level: rank,
        }
    } else {
        let level = 15 - rank;
        Best {
            low,
            node: ((256 + b) >> level) - 1,
            level,
        }
    }
}

// The node with the smallest number among those that together cover the blocks between a and b, both
// left out; 65,536 where there is none. The two leaves climb to where they meet, and what they pass on
// the inner side covers those blocks. At most eight levels, two numbers read at each.
pub fn climb(t: Summary<'_>, a: usize, b: usize) -> Best
    requires { (a < b) × (b ≤ 255) }
    ensures { Between t.entry.numbers.now a b result }
{
    let mut l = 256 + a;
    let mut r = 256 + b;
    let mut best: usize = 16 * 65536;
    for h in 0..8 {
        if l / 2 == r / 2 {
            break;
        }
        best = best.min(left_key(t, l, h).min(right_key(t, r, h)));
        l /= 2;
        r /= 2;
    }
    passed(best, a, b)
}

// The number of the lowest node that stands over both a and b: no block from a to b has a smaller
// one. The node's number is what the leaves 256 + a and 256 + b have in common, from the highest bit
// down.
pub fn over(t: Summary<'_>, a: usize, b: usize) -> usize
    requires { (a ≤ 255) × (b ≤ 255) }
    ensures { Over t.entry.numbers.now a b result }
{
    let l = 256 + a;
    let level = 64 - (l ^ (256 + b)).leading_zeros();
    t.node(l >> level)
}
