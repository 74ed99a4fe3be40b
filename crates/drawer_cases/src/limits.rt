// Append at the limits, each refusal alone and each two that compete in one call, with sums of the buffer and of
// the work before and after: both are lent full of a marker behind the used bytes.
use crate::calls::Calls;
use drawers::kinds::Kind;
use drawers::lent::{Lent, Sums};
use restated::{columns, part};
use shown::Said;
use std::io;

fn one(calls: &mut Calls<impl Print>, kind: Kind, entries: usize, lent: Lent) -> io::Result<()> {
    let mut buffer = [0xEEu8; 65540];
    let mut work = [7u16; 32770];
    let mut column = [0u32; 32769];
    columns::Kind::Scattered.fill(&mut column, 0);
    kind.fill(part::first_mut(&mut buffer, lent.used));
    let before = Sums::of(&buffer, &work);
    let said = lent.append(&mut buffer, part::first(&column, entries), &mut work);
    calls.seen.see(&said);
    let after = Sums::of(&buffer, &work);
    print!(calls.rt; "append {entries} entries {lent}:{}", Said(said))?;
    println!(calls.rt; "; sums {before} before, {after} after")
}

// What the used bytes are, how many entries, room, used length, work numbers.
type Row = (Kind, usize, usize, usize, usize);

fn each(calls: &mut Calls<impl Print>, rows: &[Row]) -> io::Result<()> {
    for &(kind, entries, room, used, numbers) in rows {
        one(calls, kind, entries, Lent::new(room, used, numbers))?;
    }
    Ok(())
}

// Records in turn: 64 of them are 288 bytes, and 290 bytes are 64 of them and two bytes more.
pub fn all(calls: &mut Calls<impl Print>) -> io::Result<()> {
    let alone = [
        (Kind::InTurn, 1, 65537, 0, 1),
        (Kind::InTurn, 1, 65536, 65537, 1),
        (Kind::InTurn, 1, 65536, 290, 1),
        (Kind::InTurn, 1, 65536, 288, 1),
        (Kind::InTurn, 32769, 65536, 0, 32769),
        (Kind::InTurn, 32768, 8195, 0, 32768),
        (Kind::InTurn, 32768, 8196, 0, 32767),
    ];
    each(calls, &alone)?;
    let titled: [(&str, &[Row]); 10] = [
        (
            "12 before 13, 13, 14, 1, 2, 3",
            &[
                (Kind::InTurn, 1, 65537, 65538, 1),
                (Kind::InTurn, 1, 65537, 2, 1),
                (Kind::InTurn, 1, 65537, 288, 1),
                (Kind::InTurn, 32769, 65537, 0, 32769),
                (Kind::OfMost, 0, 65537, 65536, 0),
                (Kind::InTurn, 1, 65537, 0, 0),
            ],
        ),
        (
            "13 before 14, 14, 1, 2, 3",
            &[
                (Kind::InTurn, 1, 65536, 290, 1),
                (Kind::InTurn, 1, 288, 289, 1),
                (Kind::InTurn, 32769, 65536, 2, 32769),
                (Kind::InTurn, 1, 6, 2, 1),
                (Kind::InTurn, 1, 65536, 2, 0),
            ],
        ),
        (
            "14 before 1, 2, 3",
            &[
                (Kind::InTurn, 32769, 65536, 288, 32769),
                (Kind::InTurn, 1, 292, 288, 1),
                (Kind::InTurn, 1, 65536, 288, 0),
            ],
        ),
        (
            "1 before 2, 3",
            &[
                (Kind::InTurn, 32769, 8196, 0, 32769),
                (Kind::InTurn, 32769, 65536, 0, 32768),
            ],
        ),
        ("2 before 3", &[(Kind::InTurn, 32768, 8195, 0, 32767)]),
        (
            "all from 12, 13, 14, 1, 2 on",
            &[
                (Kind::OfNone, 32769, 65537, 65538, 0),
                (Kind::InTurn, 32769, 290, 290, 0),
                (Kind::InTurn, 32769, 288, 288, 0),
                (Kind::InTurn, 32769, 283, 283, 0),
                (Kind::InTurn, 32768, 283, 283, 0),
            ],
        ),
        (
            "63, 64, 65 records",
            &[
                (Kind::InTurn, 5, 65536, 283, 5),
                (Kind::InTurn, 5, 65536, 288, 5),
                (Kind::InTurn, 5, 65536, 292, 5),
            ],
        ),
        ("16384 records", &[(Kind::OfNone, 5, 65536, 65536, 5)]),
        (
            "the longest record",
            &[
                (Kind::OfNone, 32768, 8196, 0, 32768),
                (Kind::OfMost, 32768, 65536, 8196, 32770),
            ],
        ),
        (
            "to the last byte",
            &[
                (Kind::OfMost, 32640, 65536, 57372, 32640),
                (Kind::OfMost, 32641, 65536, 57372, 32641),
                (Kind::OfMost, 0, 65536, 65536, 0),
            ],
        ),
    ];
    for (title, rows) in titled {
        println!(calls.rt; "{title}")?;
        each(calls, rows)?;
    }
    Ok(())
}
