// The document's small columns and records, with every lent buffer shown whole.
use restated::part;
use shown::{Hexes, Said, Spaced};
use std::io;

// Build into the first `room` bytes of an output full of EE, with the first `numbers` numbers of a work full
// of 7; then the whole output and the whole work.
fn build(rt: &impl Print, column: &[u32], room: usize, numbers: usize) -> io::Result<()> {
    let mut out = [0xEEu8; 8];
    let mut work = [7u16; 6];
    let said = build::build(
        column,
        part::first_mut(&mut work, numbers),
        part::first_mut(&mut out, room),
    );
    println!(rt;
        "build{} into {room} with {numbers}:{};{};{}",
        Spaced(column),
        Said(said),
        Hexes(&out),
        Spaced(&work)
    )
}

pub fn columns(rt: &impl Print) -> io::Result<()> {
    let columns: [&[u32]; 7] = [
        &[],
        &[7],
        &[1, 2],
        &[5, 5],
        &[2, 1],
        &[3, 1, 2],
        &[0, 4294967295, 0],
    ];
    for column in columns {
        build(rt, column, 8, 6)?;
    }
    // more than enough; just enough; a byte too few; a number too few; both, where 2 comes before 3
    for (room, numbers) in [(8, 6), (6, 5), (5, 6), (6, 4), (5, 4)] {
        build(rt, &[4, 2, 4, 2, 9], room, numbers)?;
    }
    Ok(())
}

pub fn ask(rt: &impl Print, bytes: &[u8], i: usize, j: usize) -> io::Result<()> {
    let said = ask::ask(bytes, i, j);
    println!(rt; "ask{}, {i}..{j}:{}", Hexes(bytes), Said(said))
}

pub fn asks(rt: &impl Print) -> io::Result<()> {
    for (i, j) in [(0, 0), (1, 0), (0, usize::MAX), (usize::MAX, usize::MAX)] {
        ask(rt, &[0x52, 0x4D, 0, 0], i, j)?;
    }
    ask(rt, &[0x52, 0x4D, 2, 0, 5], 0, 1)?;
    // at the end i > j; j = n; both
    for (i, j) in [(0, 4), (1, 3), (2, 4), (2, 2), (3, 2), (4, 5), (6, 5)] {
        ask(rt, &[0x52, 0x4D, 5, 0, 0x33, 1], i, j)?;
    }
    Ok(())
}

// The stand-in in the first `room` numbers of a column full of 8; then the whole column.
pub fn stand_in(rt: &impl Print, bytes: &[u8], room: usize) -> io::Result<()> {
    let mut column = [8u32; 6];
    let said = stand_in::stand_in(bytes, part::first_mut(&mut column, room));
    println!(rt;
        "stand-in{} into {room}:{};{}",
        Hexes(bytes),
        Said(said),
        Spaced(&column)
    )
}

pub fn stand_ins(rt: &impl Print) -> io::Result<()> {
    stand_in(rt, &[0x52, 0x4D, 0, 0], 0)?;
    for room in [6, 5, 4] {
        stand_in(rt, &[0x52, 0x4D, 5, 0, 0x33, 1], room)?;
    }
    Ok(())
}
