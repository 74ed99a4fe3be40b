// What one block of 256 parentheses gives to the summary; the last one may be short.
ghost use Rattle.std.specs.Prelude.{◌≡◌, ◌≤◌, ◌<◌};
ghost use Rattle.rules.specs.Bytes.{most};
ghost use Rattle.summary.specs.Laid.{noted};

// The closings before the block and those up to its end, the excess behind it, and the smallest in it.
#[derive(Clone, Copy)]
pub struct Block {
    pub from: usize,
    pub upto: usize,
    pub end: u16,
    pub least: u16,
    pub ghost within: { (from ≤ upto) × (upto ≤ most) },
}

impl Block {
    // Its numbers, as those of block k: its end, its leaf, and k itself for the closing in it whose number is a
    // multiple of 256. There is one at most: a block has no more than 256 closings.
    pub fn note(self, k: usize, slots: &mut [u16; 896])
        requires { k < 256 }
        ensures { slots.new ≡ noted slots.old k self.from self.upto self.end self.least }
    {
        slots[k] = self.end;
        slots[512 + k] = self.least;
        let x = (self.from + 255) / 256;
        if 256 * x < self.upto {
            slots[768 + x] = k as u16;
        }
    }
}
