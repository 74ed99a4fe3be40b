// The look through two drawers, and which of them decides.
use crate::calls::Calls;
use drawers::kinds::Kind;
use restated::part;
use shown::Hexes;
use std::io;

pub fn all(calls: &mut Calls<impl Print>) -> io::Result<()> {
    let own_drawers: [&[u8]; 9] = [
        // records with entries; without; one of each, both ways; one whose bits are out of balance
        &[0x52, 0x4D, 1, 0, 1, 0x52, 0x4D, 5, 0, 0x33, 1],
        &[0x52, 0x4D, 0, 0, 0x52, 0x4D, 0, 0],
        &[0x52, 0x4D, 0, 0, 0x52, 0x4D, 1, 0, 1],
        &[0x52, 0x4D, 1, 0, 2, 0x52, 0x4D, 0, 0],
        // no record; only record 0
        &[],
        &[0x52, 0x4D, 1, 0, 1],
        // record 1 cut short, unmarked, too large
        &[0x52, 0x4D, 0, 0, 0x52, 0x4D, 1, 0],
        &[0x52, 0x4D, 1, 0, 1, 0x52, 0x4E, 1, 0, 1],
        &[0x52, 0x4D, 1, 0, 1, 0x52, 0x4D, 1, 0x80, 1],
    ];
    let shared_drawers: [&[u8]; 5] = [
        // records with entries; without; no record; bytes that are no records
        &[0x52, 0x4D, 2, 0, 3, 0x52, 0x4D, 3, 0, 0x13],
        &[0x52, 0x4D, 0, 0, 0x52, 0x4D, 0, 0],
        &[],
        &[0x51, 0x4D, 0, 0],
        &[0x52, 0x4D, 0, 0, 0x52, 0x4D, 1, 0x80],
    ];
    for own in own_drawers {
        for shared in shared_drawers {
            println!(calls.rt; "own{}; shared{}", Hexes(own), Hexes(shared))?;
            calls.looks(own, shared, &[0, 1, 64])?;
        }
    }
    Ok(())
}

// The first bytes of a long drawer for both. 12 of the own drawer decides, and of the shared one where the own one
// says 10.
pub fn long(calls: &mut Calls<impl Print>) -> io::Result<()> {
    let mut bytes = [0u8; 65537];
    Kind::OfMost.fill(&mut bytes);
    let rows: [(usize, usize, &[usize]); 4] = [
        (65537, 65536, &[7, 64]),
        (65536, 65537, &[7, 8, 64]),
        (65537, 65537, &[7]),
        (0, 65536, &[7, 8]),
    ];
    for (own, shared, records) in rows {
        println!(calls.rt; "own of {own}, shared of {shared}")?;
        calls.looks(
            part::first(&bytes, own),
            part::first(&bytes, shared),
            records,
        )?;
    }
    Ok(())
}
