// The parts that the drawers on standard input are put together from.
ghost use Rattle.std.specs.Prelude.{length};
ghost use Rattle.std.specs.Iterator.{at_most};

#[derive(Clone, Copy)]
pub enum Part<'a> {
    // Bytes that stand in the drawer so many times.
    Bytes { times: u16, bytes: &'a [u8] },
    // The drawer ends.
    End,
}

// The parts of an input, up to the first that is not whole.
#[derive(Drop)]
pub struct Parts<'a>(pub &'a [u8]);

impl<'a> Iterator for Parts<'a> {
    type Item = Part<'a>;

    ghost remaining = { λ parts. at_most (length parts.0.now) };

    fn next(&mut self) -> Option<Part<'a>> {
        let (times, rest) = self.0.split_first_chunk()?;
        let (size, rest) = rest.split_first_chunk()?;
        let (bytes, rest) = rest.split_at_checked(usize::from(u16::from_le_bytes(*size)))?;
        self.0 = rest;
        Some(match u16::from_le_bytes(*times) {
            0 => Part::End,
            times => Part::Bytes { times, bytes },
        })
    }
}
