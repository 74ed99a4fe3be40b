// What an entry point refuses with. It answers a `Result`: a length, a place or a count, as its rule says, or one of
// these refusals. specs/Said.antt gives the document's number for each, and every contract speaks through it.
#![tactic(auto)]

ghost use Rattle.std.specs.Prelude.{◌≡◌};

use std::error::Error;
use std::fmt;

// The refusals of document 01, in the order of their numbers from 1 to 14.
#[derive(Clone, Copy, Debug, PartialEq, Eq)]
pub enum Refusal {
    TooManyEntries,
    OutputShort,
    WorkShort,
    Unmarked,
    CutShort,
    UnusedBit,
    Unbalanced,
    OutOfRange,
    Foreign,
    NoRecord,
    BytesAfter,
    DrawerLong,
    UsedWrong,
    DrawerFull,
}

// The document's number of a refusal, for whoever shows it.
impl From<Refusal> for usize {
    ghost use Rattle.answers.specs.Said.{number};

    ghost from_gives = { λ r n. n ≡ number r };

    fn from(r: Refusal) -> usize {
        match r {
            Refusal::TooManyEntries => 1,
            Refusal::OutputShort => 2,
            Refusal::WorkShort => 3,
            Refusal::Unmarked => 4,
            Refusal::CutShort => 5,
            Refusal::UnusedBit => 6,
            Refusal::Unbalanced => 7,
            Refusal::OutOfRange => 8,
            Refusal::Foreign => 9,
            Refusal::NoRecord => 10,
            Refusal::BytesAfter => 11,
            Refusal::DrawerLong => 12,
            Refusal::UsedWrong => 13,
            Refusal::DrawerFull => 14,
        }
    }
}

// It is shown as that number.
impl fmt::Display for Refusal {
    ghost use Rattle.std.specs.Prelude.{Some};
    ghost use Rattle.std.specs.Fmt.{decimal};
    ghost use Rattle.answers.specs.Said.{number};

    ghost output = { λ r. Some (decimal (number r)) };

    fn fmt<W: fmt::Write>(&self, f: &mut fmt::Formatter<W>) -> fmt::Result {
        write!(f, "{}", usize::from(*self))
    }
}

impl Error for Refusal {}
