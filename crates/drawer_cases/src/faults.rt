// Faults before, at and behind the record asked for: frames alone are judged, and those through record r alone.
use crate::calls::Calls;
use shown::Hexes;
use std::io;

fn drawer(calls: &mut Calls<impl Print>, bytes: &[u8]) -> io::Result<()> {
    println!(calls.rt; "drawer{}", Hexes(bytes))?;
    calls.finds(bytes, &[0, 1, 2, 3, 64])
}

// Three records, of which the second has this for its mark's second byte, for n and for its byte.
pub fn inside(calls: &mut Calls<impl Print>) -> io::Result<()> {
    let rows = [
        // whole; a mark that is none; n above 32,768; both; 32,768 entries whose bytes are not there
        [0x4D, 1, 0, 1],
        [0x4E, 1, 0, 1],
        [0x4D, 1, 0x80, 1],
        [0x4E, 1, 0x80, 1],
        [0x4D, 0, 0x80, 1],
        // an unused bit, and bits out of balance
        [0x4D, 1, 0, 5],
        [0x4D, 1, 0, 2],
        // the n that takes in all bytes behind it; one more than those; none, so that its byte begins a record
        [0x4D, 20, 0, 1],
        [0x4D, 21, 0, 1],
        [0x4D, 0, 0, 1],
    ];
    for [mark, low, high, body] in rows {
        let bytes = [
            0x52, 0x4D, 1, 0, 1, 0x52, mark, low, high, body, 0x52, 0x4D, 0, 0,
        ];
        drawer(calls, &bytes)?;
    }
    Ok(())
}

// No records; heads and records cut short; faults in two records, of which the first decides.
pub fn cut(calls: &mut Calls<impl Print>) -> io::Result<()> {
    let rows: [&[u8]; 10] = [
        &[],
        &[0x52],
        &[0, 0, 0],
        &[0x52, 0x4D, 1, 0],
        &[0x52, 0x4D, 0, 0, 0x52, 0x4D, 0],
        &[0x52, 0x4D, 0, 0, 0x52, 0x4D, 5, 0, 0x33],
        &[0x52, 0x4D, 0, 0, 0x52, 0x4D, 5, 0, 0x33, 1],
        &[0x52, 0x4D, 0, 0, 0x51, 0x4D, 0, 0, 0x52],
        &[0x52, 0x4D, 0, 0, 0x52, 0x4D, 1, 0x80, 0x51],
        &[0x52, 0x4D, 0, 0, 0x52, 0x4D, 0, 0, 0x51],
    ];
    for bytes in rows {
        drawer(calls, bytes)?;
    }
    Ok(())
}
