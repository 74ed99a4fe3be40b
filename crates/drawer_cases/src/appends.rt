// Append into short buffers, with the whole buffer and the whole work shown.
use crate::calls::Calls;
use drawers::lent::{Begun, Lent};
use shown::{Hexes, Said, Spaced};
use std::io;

// Into the first bytes of a buffer full of EE behind what it begins with, with the first numbers of a work full of 7.
fn one(calls: &mut Calls<impl Print>, begun: Begun, column: &[u32], lent: Lent) -> io::Result<()> {
    let mut buffer = [0xEEu8; 16];
    let mut work = [7u16; 6];
    begun.fill(&mut buffer);
    let said = lent.append(&mut buffer, column, &mut work);
    calls.seen.see(&said);
    print!(calls.rt; "append{} {lent}:{}", Spaced(column), Said(said))?;
    println!(calls.rt; ";{};{}", Hexes(&buffer), Spaced(&work))
}

// What the buffer begins with, the column, room, used length, work numbers.
pub fn all(calls: &mut Calls<impl Print>) -> io::Result<()> {
    let rows: [(Begun, &[u32], usize, usize, usize); 25] = [
        // room and work exactly enough, one too few of each, and of both
        (Begun::Record, &[4, 2, 4, 2, 9], 16, 5, 6),
        (Begun::Record, &[4, 2, 4, 2, 9], 11, 5, 5),
        (Begun::Record, &[4, 2, 4, 2, 9], 10, 5, 5),
        (Begun::Record, &[4, 2, 4, 2, 9], 11, 5, 4),
        (Begun::Record, &[4, 2, 4, 2, 9], 10, 5, 4),
        (Begun::Record, &[], 9, 5, 0),
        (Begun::Record, &[], 8, 5, 0),
        (Begun::Record, &[], 5, 5, 0),
        (Begun::Nothing, &[], 4, 0, 0),
        (Begun::Nothing, &[], 3, 0, 0),
        (Begun::Nothing, &[], 0, 0, 0),
        // a used length past the buffer, and used bytes that are not whole framed records
        (Begun::Record, &[7], 16, 16, 6),
        (Begun::Record, &[7], 16, 17, 6),
        (Begun::Record, &[7], 4, 5, 6),
        (Begun::Record, &[7], 16, usize::MAX, 6),
        (Begun::Record, &[7], 16, 4, 6),
        (Begun::Record, &[7], 16, 6, 6),
        (Begun::Unmarked, &[7], 16, 4, 6),
        (Begun::TooLarge, &[7], 16, 5, 6),
        // then with 2 and 3 to come
        (Begun::Record, &[7], 4, 4, 6),
        (Begun::Record, &[7], 16, 4, 0),
        (Begun::Record, &[7], 4, 5, 0),
        (Begun::Record, &[7], 0, 1, 0),
        // bits inside are not judged; bytes behind the used ones are nothing
        (Begun::NotClean, &[7], 16, 5, 6),
        (Begun::Record, &[2, 1], 16, 0, 6),
    ];
    for (begun, column, room, used, numbers) in rows {
        one(calls, begun, column, Lent::new(room, used, numbers))?;
    }
    Ok(())
}
