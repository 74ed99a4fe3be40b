// Standard input into a buffer of fixed size.
#![tactic(auto)]

ghost use Rattle.std.specs.Prelude.{IfOk, ◌≤◌, ◌<◌, length, take};
ghost use Rattle.std.specs.Io.KnownBytes.{Consumes, IsAtEnd};

use std::io::{self, Read};

// Reads until the space is full or the input ends, and says how many bytes stand at its start: those that the input
// began with, and all of them where there is room left. What is read before an error is lost.
pub fn read_full<R: Read>(input: &mut R, space: &mut [u8]) -> io::Result<usize>
    ensures fits { IfOk result (λ n. n ≤ length space.new) }
    ensures read { IfOk result (λ n. Consumes (R.remaining input.old) (R.remaining input.new) (take n space.new)) }
    ensures ended { IfOk result (λ n. n < length space.new → IsAtEnd (R.remaining input.new)) }
{
    let mut n = 0;
    while n < space.len() {
        match input.read(&mut space[n..])? {
            0 => break,
            k => n += k,
        }
    }
    Ok(n)
}
