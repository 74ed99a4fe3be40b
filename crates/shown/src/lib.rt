// How a program shows what it lent and what a call said.
#![tactic(auto)]

use answers::Refusal;
use std::fmt;

// Bytes, each in two hexadecimal digits behind a space.
#[derive(Clone, Copy)]
pub struct Hexes<'a>(pub &'a [u8]);

impl fmt::Display for Hexes<'_> {
    fn fmt<W: fmt::Write>(&self, f: &mut fmt::Formatter<W>) -> fmt::Result {
        for byte in self.0 {
            write!(f, " {byte:02X}")?;
        }
        Ok(())
    }
}

// Numbers, each behind a space.
#[derive(Clone, Copy)]
pub struct Spaced<'a, T>(pub &'a [T]);

impl<T: fmt::Display> fmt::Display for Spaced<'_, T> {
    fn fmt<W: fmt::Write>(&self, f: &mut fmt::Formatter<W>) -> fmt::Result {
        for number in self.0 {
            write!(f, " {number}")?;
        }
        Ok(())
    }
}

// What a call answered, or the number that it refused with, behind a space.
#[derive(Clone, Copy)]
pub struct Said<T>(pub Result<T, Refusal>);

impl<T: fmt::Display> fmt::Display for Said<T> {
    fn fmt<W: fmt::Write>(&self, f: &mut fmt::Formatter<W>) -> fmt::Result {
        match &self.0 {
            Ok(answer) => write!(f, " {answer}"),
            Err(refusal) => write!(f, " refused {refusal}"),
        }
    }
}
