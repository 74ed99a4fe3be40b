// What appends are lent, and what that holds.
use answers::Refusal;
use restated::{part, sums};
use std::fmt;

// What a buffer may begin with.
#[derive(Clone, Copy)]
pub enum Begun {
    Nothing,
    Record,
    Unmarked,
    TooLarge,
    NotClean,
}

impl Begun {
    fn bytes(self) -> &'static [u8] {
        match self {
            Begun::Nothing => &[],
            Begun::Record => &[0x52, 0x4D, 1, 0, 1],
            Begun::Unmarked => &[0x52, 0x4E, 0, 0],
            Begun::TooLarge => &[0x52, 0x4D, 1, 0x80, 1],
            Begun::NotClean => &[0x52, 0x4D, 1, 0, 6],
        }
    }

    pub fn fill(self, buffer: &mut [u8]) {
        for (byte, &value) in buffer.iter_mut().zip(self.bytes()) {
            *byte = value;
        }
    }
}

// So many bytes of a buffer, of which some are used, and so many work numbers.
#[derive(Clone, Copy)]
pub struct Lent {
    pub room: usize,
    pub used: usize,
    pub numbers: usize,
}

impl Lent {
    pub fn new(room: usize, used: usize, numbers: usize) -> Lent {
        Lent {
            room,
            used,
            numbers,
        }
    }

    // The append of a column.
    pub fn append(
        self,
        buffer: &mut [u8],
        column: &[u32],
        work: &mut [u16],
    ) -> Result<usize, Refusal> {
        let buffer = part::first_mut(buffer, self.room);
        let work = part::first_mut(work, self.numbers);
        append::append(buffer, self.used, column, work)
    }
}

impl fmt::Display for Lent {
    fn fmt<W: fmt::Write>(&self, f: &mut fmt::Formatter<W>) -> fmt::Result {
        write!(
            f,
            "into {} used {} with {}",
            self.room, self.used, self.numbers
        )
    }
}

// The sums of a buffer and of the work.
#[derive(Clone, Copy)]
pub struct Sums {
    bytes: u64,
    numbers: u64,
}

impl Sums {
    pub fn of(buffer: &[u8], work: &[u16]) -> Sums {
        Sums {
            bytes: sums::sum(buffer),
            numbers: sums::sum(work),
        }
    }
}

impl fmt::Display for Sums {
    fn fmt<W: fmt::Write>(&self, f: &mut fmt::Formatter<W>) -> fmt::Result {
        write!(f, "{} {}", self.bytes, self.numbers)
    }
}
