// A window that is wanted on some bytes, and asks in it.
use answers::Refusal;
use std::fmt;

// What a call said, behind a space: its answer, or its refusal with a mark.
#[derive(Clone, Copy)]
pub struct Marked(pub Result<usize, Refusal>);

impl fmt::Display for Marked {
    fn fmt<W: fmt::Write>(&self, f: &mut fmt::Formatter<W>) -> fmt::Result {
        match self.0 {
            Ok(answer) => write!(f, " {answer}"),
            Err(refusal) => write!(f, " !{refusal}"),
        }
    }
}

#[derive(Clone, Copy)]
pub struct Wanted<'a> {
    pub bytes: &'a [u8],
    pub first: usize,
    pub last: usize,
}

// The window, and what is said of it.
impl fmt::Display for Wanted<'_> {
    fn fmt<W: fmt::Write>(&self, f: &mut fmt::Formatter<W>) -> fmt::Result {
        let said = window::refusal_of(self.bytes, self.first, self.last);
        write!(f, "window {}..{}:{}", self.first, self.last, Marked(said))
    }
}

// Asks from one entry to another, each in a window that is made for it.
#[derive(Clone, Copy)]
pub struct Asks<'a>(pub Wanted<'a>, pub &'a [(usize, usize)]);

impl fmt::Display for Asks<'_> {
    fn fmt<W: fmt::Write>(&self, f: &mut fmt::Formatter<W>) -> fmt::Result {
        let Wanted { bytes, first, last } = self.0;
        for &(i, j) in self.1 {
            let said = window::ask_through(bytes, first, last, i, j);
            write!(f, "{}", Marked(said))?;
        }
        Ok(())
    }
}
