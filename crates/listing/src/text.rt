// Words and numbers, written behind the text that a line has so far.
ghost use Rattle.std.specs.Prelude.{◌≡◌, ◌+◌, ◌*◌, ◌≤◌, ◌<◌, [], ◌∷◌, ◌++◌, length};
ghost use Rattle.rules.specs.Bytes.{parens};
ghost use Rattle.rules.specs.Listing.{decimal, blank, shown_shape};
ghost use Rattle.listing.specs.Room.{line_room};
ghost use Rattle.listing.specs.Text.{text_of, Writes, Anew};

use crate::line::{Line, Text};
use crate::shape;
use checks::record::Record;

impl<'a> Text<'a> {
    // No text yet, at the start of any line.
    pub fn over(line: &'a mut Line) -> Text<'a>
        ensures lent { result.line.ghost_name ≡ line.entry.ghost_name }
        ensures kept { result.line.now ≡ line.old }
        ensures empty { result.used ≡ 0 }
    {
        Text { line, used: 0 }
    }

    pub fn bytes(&self) -> &[u8]
        ensures is { result.now ≡ text_of self.now }
        ensures short { length result.now ≤ line_room }
    {
        &self.line[..self.used]
    }

    pub(crate) fn clear(&mut self)
        ensures lent { self.new.line.ghost_name ≡ self.old.line.ghost_name }
        ensures anew { Anew [] self.old self.new }
    {
        self.used = 0;
    }

    fn byte(&mut self, b: u8)
        requires { self.old.used + 1 ≤ line_room }
        ensures lent { self.new.line.ghost_name ≡ self.old.line.ghost_name }
        ensures writes { Writes (b ∷ []) self.old self.new }
    {
        self.line[self.used] = b;
        self.used += 1;
    }

    pub(crate) fn word(&mut self, text: &[u8])
        requires { self.old.used + length text.now ≤ line_room }
        ensures lent { self.new.line.ghost_name ≡ self.old.line.ghost_name }
        ensures writes { Writes text.now self.old self.new }
    {
        let end = self.used + text.len();
        let line = &mut *self.line;
        line[self.used..end].copy_from_slice(text);
        self.used = end;
    }

    // A number in decimal: its last digit behind the others.
    pub(crate) fn number(&mut self, x: usize)
        requires { self.old.used + length (decimal x) ≤ line_room }
        ensures lent { self.new.line.ghost_name ≡ self.old.line.ghost_name }
        ensures writes { Writes (decimal x) self.old self.new }
    {
        if 10 <= x {
            self.number(x / 10);
        }
        self.byte(b'0' + (x % 10) as u8);
    }

    // A number and the blank behind it. A number of 64 bits has at most 20 digits.
    pub(crate) fn field(&mut self, x: usize)
        requires { self.old.used + 21 ≤ line_room }
        ensures lent { self.new.line.ghost_name ≡ self.old.line.ghost_name }
        ensures writes { Writes (decimal x ++ blank) self.old self.new }
        ensures short { self.new.used ≤ self.old.used + 21 }
    {
        self.number(x);
        self.byte(b' ');
    }

    // The parentheses of a record, or "-" where there are none.
    pub(crate) fn shape(&mut self, checked: Record)
        requires { self.old.used + 2 * checked.entries < line_room }
        ensures lent { self.new.line.ghost_name ≡ self.old.line.ghost_name }
        ensures writes { Writes (shown_shape checked.entry.entries (parens checked.entry.entries checked.entry.bytes.now)) self.old self.new }
    {
        if checked.entries == 0 {
            return self.byte(b'-');
        }
        let end = self.used + 2 * checked.entries;
        let line = &mut *self.line;
        shape::signs(checked, &mut line[self.used..end]);
        self.used = end;
    }
}
