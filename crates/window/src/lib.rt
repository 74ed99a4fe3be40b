// A window: the record's bytes beside the first and last entry a pass may ask about.
#![tactic(auto)]

ghost use Rattle.std.specs.Prelude.{◌≡◌};
ghost use Rattle.rules.specs.Window.{window_says, through_says};
ghost use Rattle.answers.specs.Said.{said};
ghost use Rattle.window.specs.Made.{Made, in_window};

use answers::Refusal;

#[derive(Clone, Copy)]
pub struct Window<'a> {
    pub bytes: &'a [u8],
    pub first: usize,
    pub last: usize,
}

// The refusal of a window on these bytes with this first and last entry, or n where there is none: the
// record check, then 8 for first above last and for last of n or more. It reads the record once.
pub fn refusal_of(bytes: &[u8], first: usize, last: usize) -> Result<usize, Refusal>
    ensures { said result ≡ window_says bytes.now first last }
{
    let n = checks::check(bytes)?;
    if last < first || n <= last {
        return Err(Refusal::OutOfRange);
    }
    Ok(n)
}

// A window on a record, for a pass that may ask about its entries from first to last. Where it is refused
// it has no bytes and 0 for both, and every ask in it says 5. It reads the record once.
pub fn make(bytes: &[u8], first: usize, last: usize) -> Window<'_>
    ensures { Made bytes.now first last result }
{
    match refusal_of(bytes, first, last) {
        Ok(_) => Window { bytes, first, last },
        Err(_) => Window {
            bytes: &bytes[..0],
            first: 0,
            last: 0,
        },
    }
}

// The leftmost smallest entry from i to j, both counted in, as the plain ask gives it, where both lie in
// the window; else 8. It reads the record twice at most.
pub fn ask_in(w: Window<'_>, i: usize, j: usize) -> Result<usize, Refusal>
    ensures { said result ≡ in_window w.entry i j }
{
    let p = ask::ask(w.bytes, i, j)?;
    if i < w.first || w.last < j {
        return Err(Refusal::OutOfRange);
    }
    Ok(p)
}

// One ask in a window that is made for it. Nothing in its contract is a window, so that whoever calls it
// needs no proof by hand.
pub fn ask_through(
    bytes: &[u8],
    first: usize,
    last: usize,
    i: usize,
    j: usize,
) -> Result<usize, Refusal>
    ensures { said result ≡ through_says bytes.now first last i j }
{
    ask_in(make(bytes, first, last), i, j)
}
