// Every refusal of frame and check, and which comes first of each two that can compete in one call.
use crate::{lent, small};
use judge::Judge;
use restated::{part, plain};
use shown::{Hexes, Said};
use std::io;

// The ask would be refused with 8 too, and the stand-in with 2.
fn row(rt: &impl Print, bytes: &[u8]) -> io::Result<()> {
    let frame = Said(checks::frame(bytes));
    let check = Said(checks::check(bytes));
    println!(rt; "frame{}:{frame}, check:{check}", Hexes(bytes))?;
    small::ask(rt, bytes, 1, 0)?;
    small::stand_in(rt, bytes, 0)
}

pub fn all(rt: &impl Print) -> io::Result<()> {
    let rows: [&[u8]; 26] = [
        // 5 for fewer than 4 bytes; before 4
        &[],
        &[0x52, 0x4D, 1],
        &[0x52, 0x4E, 1],
        // 4, in each byte of the mark; before 1, 5, 11, 6, 7
        &[0x52, 0x4E, 1, 0, 1],
        &[0x51, 0x4D, 1, 0, 1],
        &[0x51, 0x4D, 1, 0x80],
        &[0x51, 0x4D, 1, 0],
        &[0x51, 0x4D, 1, 0, 1, 0],
        &[0x51, 0x4D, 1, 0, 5],
        &[0x51, 0x4D, 1, 0, 2],
        // 1, before 5; 5 for the rest, before 7
        &[0x52, 0x4D, 1, 0x80],
        &[0x52, 0x4D, 0, 0x80],
        &[0x52, 0x4D, 1, 0],
        &[0x52, 0x4D, 5, 0, 0x33],
        &[0x52, 0x4D, 5, 0, 2],
        // 11; before 6, 7, both
        &[0x52, 0x4D, 0, 0, 0],
        &[0x52, 0x4D, 1, 0, 1, 0],
        &[0x52, 0x4D, 1, 0, 5, 0],
        &[0x52, 0x4D, 1, 0, 2, 0],
        &[0x52, 0x4D, 1, 0, 6, 0],
        // 6, for the first unused bit and the last; before 7
        &[0x52, 0x4D, 1, 0, 5],
        &[0x52, 0x4D, 1, 0, 0x81],
        &[0x52, 0x4D, 1, 0, 6],
        // 7: an excess below 0, and a last one above 0
        &[0x52, 0x4D, 1, 0, 2],
        &[0x52, 0x4D, 1, 0, 0],
        &[0x52, 0x4D, 1, 0, 3],
    ];
    for bytes in rows {
        row(rt, bytes)?;
    }
    Ok(())
}

// n entries: what is refused, and whether any byte of the output or number of the work changed.
fn tight(rt: &impl Print, n: usize, room: usize, numbers: usize) -> io::Result<()> {
    let column = [5u32; 32769];
    let mut work = [7u16; 32769];
    let mut out = [0xEEu8; 8197];
    let said = build::build(
        part::first(&column, n),
        part::first_mut(&mut work, numbers),
        part::first_mut(&mut out, room),
    );
    let mut judge = Judge::default();
    judge.count(lent::cleared(&work, 0));
    judge.count(lent::kept(&out, 0));
    println!(rt; "{n} into {room} with {numbers}:{}; {judge}", Said(said))
}

pub fn long_columns(rt: &impl Print) -> io::Result<()> {
    let rows = [
        // 1, before 2, 3, both
        (32769, 8197, 32769),
        (32769, 8196, 32769),
        (32769, 8197, 32768),
        (32769, 8196, 32768),
        // 2, before 3; 3
        (32768, 8195, 32768),
        (32768, 8195, 32767),
        (32768, 8196, 32767),
    ];
    for (n, room, numbers) in rows {
        tight(rt, n, room, numbers)?;
    }
    Ok(())
}

// `size` bytes, all ones behind the head.
fn ones(rt: &impl Print, n: u16, size: usize) -> io::Result<()> {
    let mut bytes = [0xFFu8; 8198];
    bytes[..4].copy_from_slice(&plain::head(n));
    let said = checks::check(part::first(&bytes, size));
    println!(rt; "check of {n} into {size}:{}", Said(said))
}

pub fn long_records(rt: &impl Print) -> io::Result<()> {
    let rows = [
        // 1, before 6 and 7, before 11; 7; 11 before 7; 5 before 7
        (32769, 8197),
        (32769, 8198),
        (32768, 8196),
        (32768, 8197),
        (32768, 8195),
    ];
    for (n, size) in rows {
        ones(rt, n, size)?;
    }
    Ok(())
}
