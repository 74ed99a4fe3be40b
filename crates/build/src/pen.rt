// The pen writes a body's parentheses from the last to the first, so each new one is the lowest bit so far.
ghost use Rattle.std.specs.Prelude.{◌≡◌, [], ◌∷◌, replicate};
ghost use Rattle.rules.specs.Shape.{opening, closing};
ghost use Rattle.build.specs.Writes.{Ready, Writes};

// `left` bytes of the body are still to come, the last of them first; `held` parentheses, fewer than eight, wait in `acc`.
#[derive(Drop)]
pub struct Pen<'a> {
    pub body: &'a mut [u8],
    pub left: usize,
    pub held: usize,
    pub acc: u32,
}

impl Pen<'_> {
    // A run of openings, with a step for each byte that it fills and none for each of its bits.
    #[inline(always)]
    pub fn opens(&mut self, count: usize)
        requires { Ready self.old count }
        ensures lent { self.new.body.ghost_name ≡ self.old.body.ghost_name }
        ensures writes { Writes (replicate count opening) self.old self.new }
    {
        let mut more = count;
        while 8 - self.held <= more {
            self.left -= 1;
            self.body[self.left] = (((self.acc + 1) << (8 - self.held)) - 1) as u8;
            more -= 8 - self.held;
            self.held = 0;
            self.acc = 0;
        }
        self.acc = ((self.acc + 1) << more) - 1;
        self.held += more;
    }

    // One closing.
    #[inline(always)]
    pub fn closes(&mut self)
        requires { Ready self.old 1 }
        ensures lent { self.new.body.ghost_name ≡ self.old.body.ghost_name }
        ensures writes { Writes (closing ∷ []) self.old self.new }
    {
        self.held += 1;
        self.acc *= 2;
        if self.held == 8 {
            self.left -= 1;
            self.body[self.left] = self.acc as u8;
            self.held = 0;
            self.acc = 0;
        }
    }
}
