// The left spine of the tree of the entries passed: the places whose openings are still owed, the smallest entry's first,
// so their entries rise.
ghost use Rattle.std.specs.Prelude.{◌≡◌, ◌+◌, ◌<◌, ◌^◌, length, set};
ghost use Rattle.build.specs.Stack.{Stacked, Keeps};

// The first `height` of the work numbers are its places. The topmost one's entry is at hand, so that the first test of
// a turn waits for no other.
#[derive(Drop)]
pub struct Spine<'a> {
    pub places: &'a mut [u16],
    pub height: usize,
    pub top: u32,
}

impl Spine<'_> {
    // How many of its places stay when the entry a comes: those with a smaller entry.
    #[inline(always)]
    pub fn keeps(&self, column: &[u32], a: u32) -> usize
        requires { Stacked column.now self.now }
        ensures { Keeps column.now self.now a result }
    {
        if self.height == 0 {
            return 0;
        }
        if self.top < a {
            return self.height;
        }
        for k in (0..self.height - 1).rev() {
            let p = usize::from(self.places[k]);
            if column[p] < a {
                return k + 1;
            }
        }
        0
    }

    // Its first k places, and then i, the place of the entry a.
    #[inline(always)]
    pub fn take(&mut self, k: usize, i: usize, a: u32)
        requires { (k < length self.old.places.now) × (i < 2 ^ 16) }
        ensures lent { self.new.places.ghost_name ≡ self.old.places.ghost_name }
        ensures places { self.new.places.now ≡ set self.old.places.now k i }
        ensures height { self.new.height ≡ k + 1 }
        ensures top { self.new.top ≡ a }
    {
        self.places[k] = i as u16;
        self.height = k + 1;
        self.top = a;
    }
}
