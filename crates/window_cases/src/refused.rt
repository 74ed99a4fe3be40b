// Bytes that no window stands on, and windows that no record has.
use crate::wanted::{Asks, Marked, Wanted};
use shown::Hexes;
use std::io;

const FAR: usize = usize::MAX;

// What the check says of the bytes; then the window, with asks that are in order, crossed and far outside.
fn row(rt: &impl Print, window: Wanted) -> io::Result<()> {
    let bytes = window.bytes;
    let check = Marked(checks::check(bytes));
    let asks = Asks(window, &[(0, 0), (1, 0), (0, FAR), (FAR, 0)]);
    println!(rt; "check{}:{check}; {window}; asks{asks}", Hexes(bytes))
}

pub fn all(rt: &impl Print) -> io::Result<()> {
    let rows: [&[u8]; 14] = [
        // fewer than four bytes; the mark; too many entries; bytes that end before the record does
        &[],
        &[0x52],
        &[0x52, 0x4D, 1],
        &[0x52, 0x4E, 1, 0, 1],
        &[0x53, 0x4D, 1, 0, 1],
        &[0x52, 0x4D, 1, 0x80],
        &[0x52, 0x4D, 0, 0x80],
        &[0x52, 0x4D, 5, 0, 0x33],
        // a byte too many; an unused bit; not balanced
        &[0x52, 0x4D, 1, 0, 1, 0],
        &[0x52, 0x4D, 1, 0, 5],
        &[0x52, 0x4D, 1, 0, 2],
        &[0x52, 0x4D, 1, 0, 3],
        // no entries, so that no window stands; one entry
        &[0x52, 0x4D, 0, 0],
        &[0x52, 0x4D, 1, 0, 1],
    ];
    for bytes in rows {
        // a window on entry 0 alone; one that is crossed; one that no record has
        for (first, last) in [(0, 0), (1, 0), (FAR, FAR)] {
            row(rt, Wanted { bytes, first, last })?;
        }
    }
    Ok(())
}
