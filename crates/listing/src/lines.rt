// Whole lines. Each begins anew, over the text that there was.
ghost use Rattle.std.specs.Prelude.{◌≡◌};
ghost use Rattle.rules.specs.Bytes.{parens};
ghost use Rattle.rules.specs.Listing.{shape_line, refused_line, end_line, long_line, record_line};
ghost use Rattle.answers.specs.Said.{number};
ghost use Rattle.listing.specs.Text.{Anew};

use crate::{Text, shape};
use answers::Refusal;
use checks::record::Record;

// The last line.
pub fn end(count: usize, text: &mut Text)
    ensures lent { text.new.line.ghost_name ≡ text.old.line.ghost_name }
    ensures anew { Anew (end_line count) text.old text.new }
{
    text.clear();
    text.word(b"end ");
    text.number(count);
    text.word(b"\n");
}

// The only line of a drawer that is too long.
pub fn long(text: &mut Text)
    ensures lent { text.new.line.ghost_name ≡ text.old.line.ghost_name }
    ensures anew { Anew long_line text.old text.new }
{
    text.clear();
    text.word(b"refused 12\n");
}

// The line of record k, refused with x.
pub fn refused(k: usize, x: Refusal, text: &mut Text)
    ensures lent { text.new.line.ghost_name ≡ text.old.line.ghost_name }
    ensures anew { Anew (refused_line k (number x)) text.old text.new }
{
    text.clear();
    text.field(k);
    text.word(b"refused ");
    text.number(usize::from(x));
    text.word(b"\n");
}

// The line of record k, which has passed its check. The unused bits of its last byte close, so none of them has
// the greatest excess.
fn accepted(k: usize, checked: Record, text: &mut Text)
    ensures lent { text.new.line.ghost_name ≡ text.old.line.ghost_name }
    ensures anew { Anew (shape_line k checked.entry.entries (parens checked.entry.entries checked.entry.bytes.now)) text.old text.new }
{
    text.clear();
    text.field(k);
    text.field(checked.entries);
    text.field(shape::greatest(&checked.bytes[4..]));
    text.shape(checked);
    text.word(b"\n");
}

// The line of record k, by what the record check says of it.
pub fn judged(k: usize, bytes: &[u8], text: &mut Text)
    ensures lent { text.new.line.ghost_name ≡ text.old.line.ghost_name }
    ensures anew { Anew (record_line k bytes.now) text.old text.new }
{
    match Record::of(bytes) {
        Ok(checked) => accepted(k, checked, text),
        Err(x) => refused(k, x, text),
    }
}
