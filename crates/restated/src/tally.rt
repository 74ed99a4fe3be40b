// What a program counts: comparisons, and what calls answered.
use answers::Refusal;
use std::fmt;

// How many comparisons held, and how many did not.
#[derive(Clone, Copy, Default)]
pub struct Tally {
    pub same: usize,
    pub differ: usize,
}

impl Tally {
    pub fn count(&mut self, holds: bool) {
        let counter = if holds {
            &mut self.same
        } else {
            &mut self.differ
        };
        *counter = counter.saturating_add(1);
    }
}

impl fmt::Display for Tally {
    fn fmt<W: fmt::Write>(&self, f: &mut fmt::Formatter<W>) -> fmt::Result {
        write!(f, "same {}, differ {}", self.same, self.differ)
    }
}

// How many calls answered, under 0, and how many were refused, under the refusal's number.
#[derive(Clone, Copy, Default)]
pub struct Seen {
    pub counts: [usize; 15],
}

impl Seen {
    pub fn see<T>(&mut self, said: &Result<T, Refusal>) {
        let under = match said {
            Ok(_) => 0,
            Err(refusal) => usize::from(*refusal),
        };
        if let Some(count) = self.counts.get_mut(under) {
            *count = count.saturating_add(1);
        }
    }
}
