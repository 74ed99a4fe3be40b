// A lent summary read by its parts (document 01, "The summary"): block ends, the tree of smallest excesses with its
// leaves, and the blocks of closings. Its numbers may be any numbers.
#![tactic(auto)]

ghost use Rattle.std.specs.Prelude.{◌≡◌, ◌+◌, ◌≤◌, ◌<◌, length, get_or};

// At least 896 numbers: who holds one need not ask again how many there are.
#[derive(Clone, Copy)]
pub struct Summary<'a> {
    pub numbers: &'a [u16],
    pub ghost whole: { 896 ≤ length numbers.now },
}

impl<'a> Summary<'a> {
    // The excess behind block k.
    pub fn end(self, k: usize) -> usize
        requires { k < length self.numbers.now }
        ensures { (result ≡ get_or self.entry.numbers.now k 0) × (result ≤ 65535) }
    {
        usize::from(self.numbers[k])
    }

    // The number of node v of the tree.
    pub fn node(self, v: usize) -> usize
        requires { v < 512 }
        ensures { (result ≡ get_or self.entry.numbers.now (256 + v) 0) × (result ≤ 65535) }
    {
        usize::from(self.numbers[256 + v])
    }

    // The leaf of block k: the smallest excess in it.
    pub fn leaf(self, k: usize) -> usize
        requires { k < 256 }
        ensures { (result ≡ get_or self.entry.numbers.now (512 + k) 0) × (result ≤ 65535) }
    {
        usize::from(self.numbers[512 + k])
    }

    // The block in which closing number 256 q stands.
    pub fn block_of(self, q: usize) -> usize
        requires { q < 128 }
        ensures { (result ≡ get_or self.entry.numbers.now (768 + q) 0) × (result ≤ 65535) }
    {
        usize::from(self.numbers[768 + q])
    }
}
