// A lent line, and the text at its start.
ghost use Rattle.std.specs.Prelude.{◌≡◌, ◌≤◌, length, replicate};
ghost use Rattle.listing.specs.Room.{line_room};

// Room for the longest line: three numbers with a blank behind each, 65,536 parentheses and the line's end.
pub type Line = [u8; 65600];

pub fn buffer() -> Line
    ensures { result ≡ replicate line_room 0 }
{
    [0; 65600]
}

// The text is the first `used` bytes of the line; those behind it stay as they were lent.
#[derive(Drop)]
pub struct Text<'a> {
    pub(crate) line: &'a mut Line,
    pub(crate) used: usize,
    ghost short: { used ≤ 65600 },
    ghost whole: { length line.now ≡ 65600 },
}
