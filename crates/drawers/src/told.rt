// What find, which and the hand-out say, as text.
use drawer::{Denied, Drawer, Place};
use restated::part;
use shown::Hexes;
use std::fmt;

// Where a record stands.
#[derive(Clone, Copy)]
pub struct At(pub Place);

impl fmt::Display for At {
    fn fmt<W: fmt::Write>(&self, f: &mut fmt::Formatter<W>) -> fmt::Result {
        write!(f, "at {}, length {}", self.0.at, self.0.size)
    }
}

// The drawer that a look takes its part from, or the one that refused.
#[derive(Clone, Copy)]
pub struct Which(pub Result<Drawer, Denied>);

impl fmt::Display for Which {
    fn fmt<W: fmt::Write>(&self, f: &mut fmt::Formatter<W>) -> fmt::Result {
        match self.0 {
            Ok(drawer) => f.write_str(name(drawer)),
            Err(Denied { by, refusal }) => write!(f, "{} refused {refusal}", name(by)),
        }
    }
}

fn name(drawer: Drawer) -> &'static str {
    match drawer {
        Drawer::Own => "own",
        Drawer::Shared => "shared",
    }
}

// A part that is handed out: its length and its first bytes.
#[derive(Clone, Copy)]
pub struct Handed<'a>(pub &'a [u8]);

impl fmt::Display for Handed<'_> {
    fn fmt<W: fmt::Write>(&self, f: &mut fmt::Formatter<W>) -> fmt::Result {
        let size = self.0.len();
        write!(f, "part of {size}{}", Hexes(part::first(self.0, 6)))
    }
}
