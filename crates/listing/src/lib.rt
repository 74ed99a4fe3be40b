// Document 01, "The listing": the text of a drawer, one line at a time. Each is written at the start of a lent line that
// holds the longest of them; the caller passes it on and comes back for the next. All lines together take a number of
// steps in proportion to the drawer's length.
#![tactic(auto)]

mod line;
mod lines;
mod shape;
mod text;

ghost use Rattle.std.specs.Prelude.{◌≡◌};
ghost use Rattle.listing.specs.Left.{Starts, WritesLine};

use answers::Refusal;
pub use line::{Line, Text, buffer};

// What of a listing is still to be written: one line at least.
#[derive(Clone, Copy, Debug, PartialEq, Eq)]
pub enum Rest {
    // The lines from a record on: its number, and its place in the drawer.
    Lines(u8, usize),
    // The last line, and the count that it shows.
    End(usize),
    // The one line of a drawer that is too long.
    Long,
}

// The whole listing of a drawer, nothing of it written yet.
pub fn start(drawer: &[u8]) -> Rest
    ensures { Starts drawer.now result }
{
    if 65536 < drawer.len() {
        return Rest::Long;
    }
    Rest::Lines(0, 0)
}

// The line of the record at a place, or the one that stops the listing, or the last line where the drawer ends.
fn line_at(drawer: &[u8], k: u8, at: usize, text: &mut Text) -> Option<Rest>
    ensures lent { text.new.line.ghost_name ≡ text.old.line.ghost_name }
    ensures writes { WritesLine drawer.now (Some (Rest.Lines k at)) text.old.line.now result text.new.used text.new.line.now }
{
    let number = usize::from(k);
    if drawer.len() <= at {
        lines::end(number, text);
        return None;
    }
    // behind a refusal that stops the listing comes the last line
    let stopped = Some(Rest::End(number + 1));
    if 64 <= k {
        lines::refused(number, Refusal::DrawerFull, text);
        return stopped;
    }
    match drawer::record_at(drawer, at) {
        Ok(place) => {
            let end = place.at + place.size;
            lines::judged(number, &drawer[place.at..end], text);
            Some(Rest::Lines(k + 1, end))
        }
        Err(x) => {
            lines::refused(number, x, text);
            stopped
        }
    }
}

// Writes the first of the lines that are left, over the text that there was, and answers what is left behind it. Where
// nothing was left there is no text. No byte of the line behind its text changes.
pub fn next(drawer: &[u8], rest: Option<Rest>, text: &mut Text) -> Option<Rest>
    ensures lent { text.new.line.ghost_name ≡ text.old.line.ghost_name }
    ensures writes { WritesLine drawer.now rest text.old.line.now result text.new.used text.new.line.now }
{
    let Some(from) = rest else {
        text.clear();
        return None;
    };
    match from {
        Rest::Lines(k, at) => line_at(drawer, k, at, text),
        Rest::End(count) => {
            lines::end(count, text);
            None
        }
        Rest::Long => {
            lines::long(text);
            None
        }
    }
}
