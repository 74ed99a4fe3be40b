// Every refusal of quick ask and fill, and which comes first of each two that can compete in one call.
use restated::part;
use restated::tally::Tally;
use shown::{Hexes, Said};
use std::io;

// With the first `numbers` numbers of a summary of 65,535s.
fn ask(rt: &impl Print, bytes: &[u8], numbers: usize, i: usize, j: usize) -> io::Result<()> {
    let summary = [65535u16; 900];
    let said = quick::quick_ask(bytes, part::first(&summary, numbers), i, j);
    println!(rt;
        "quick ask{} with {numbers}, {i}..{j}:{}",
        Hexes(bytes),
        Said(said)
    )
}

pub fn asks(rt: &impl Print) -> io::Result<()> {
    // a record's bytes, the summary's length, i and j
    let rows: [(&[u8], usize, usize, usize); 35] = [
        // 5 for fewer than 4 bytes; before 4, 3, 8
        (&[], 896, 0, 0),
        (&[0x52, 0x4D, 1], 896, 0, 0),
        (&[0x52, 0x4E, 1], 896, 0, 0),
        (&[0x52, 0x4D, 1], 895, 0, 0),
        (&[0x52, 0x4D, 1], 896, 1, 0),
        // 4, in each byte of the mark; before 1, 5, 11, 3, 8
        (&[0x52, 0x4E, 1, 0, 1], 896, 0, 0),
        (&[0x51, 0x4D, 1, 0, 1], 896, 0, 0),
        (&[0x51, 0x4D, 1, 0x80], 896, 0, 0),
        (&[0x51, 0x4D, 1, 0], 896, 0, 0),
        (&[0x51, 0x4D, 1, 0, 1, 0], 896, 0, 0),
        (&[0x51, 0x4D, 1, 0, 1], 895, 0, 0),
        (&[0x51, 0x4D, 1, 0, 1], 896, 1, 0),
        // 1, before 5; before 3, 8
        (&[0x52, 0x4D, 1, 0x80], 896, 0, 0),
        (&[0x52, 0x4D, 1, 0x80], 895, 0, 0),
        (&[0x52, 0x4D, 1, 0x80], 896, 1, 0),
        // 5 for the rest; before 3, 8
        (&[0x52, 0x4D, 0, 0x80], 896, 0, 0),
        (&[0x52, 0x4D, 5, 0, 0x33], 896, 0, 0),
        (&[0x52, 0x4D, 5, 0, 0x33], 895, 0, 0),
        (&[0x52, 0x4D, 5, 0, 0x33], 896, 1, 0),
        // 11; before 3, 8
        (&[0x52, 0x4D, 0, 0, 0], 896, 0, 0),
        (&[0x52, 0x4D, 1, 0, 1, 0], 896, 0, 0),
        (&[0x52, 0x4D, 1, 0, 1, 0], 895, 0, 0),
        (&[0x52, 0x4D, 1, 0, 1, 0], 896, 1, 0),
        // 3; before 8
        (&[0x52, 0x4D, 1, 0, 1], 895, 0, 0),
        (&[0x52, 0x4D, 1, 0, 1], 0, 0, 0),
        (&[0x52, 0x4D, 1, 0, 1], 895, 1, 0),
        // 8: i > j; j = n; both; far outside; no entries
        (&[0x52, 0x4D, 1, 0, 1], 896, 1, 0),
        (&[0x52, 0x4D, 1, 0, 1], 896, 0, 1),
        (&[0x52, 0x4D, 1, 0, 1], 900, 2, 1),
        (&[0x52, 0x4D, 1, 0, 1], 896, 0, usize::MAX),
        (&[0x52, 0x4D, 0, 0], 896, 0, 0),
        // an unused bit and bits out of balance are not judged: 3, and 8
        (&[0x52, 0x4D, 1, 0, 5], 895, 0, 0),
        (&[0x52, 0x4D, 1, 0, 5], 896, 1, 0),
        (&[0x52, 0x4D, 1, 0, 2], 895, 0, 0),
        (&[0x52, 0x4D, 1, 0, 2], 896, 1, 0),
    ];
    for (bytes, numbers, i, j) in rows {
        ask(rt, bytes, numbers, i, j)?;
    }
    Ok(())
}

// Into the first `numbers` of 900 numbers of 7. Where fill is refused all are unchanged, else the first 896 alone
// are new.
fn fill(rt: &impl Print, bytes: &[u8], numbers: usize) -> io::Result<()> {
    let mut summary = [7u16; 900];
    let mut like = [7u16; 900];
    let said = summary::fill(bytes, part::first_mut(&mut summary, numbers));
    if said.is_ok() {
        like[..896].copy_from_slice(&restated::summary::of(bytes));
    }
    let mut tally = Tally::default();
    tally.count(summary == like);
    println!(rt;
        "fill{} into {numbers}:{}; {tally}",
        Hexes(bytes),
        Said(said)
    )
}

pub fn fills(rt: &impl Print) -> io::Result<()> {
    // 5, 4, 1, 5, 11, 6, 7, each before 3; the same alone
    let refused: [&[u8]; 7] = [
        &[0x52, 0x4D, 1],
        &[0x52, 0x4E, 1, 0, 1],
        &[0x52, 0x4D, 1, 0x80],
        &[0x52, 0x4D, 5, 0, 0x33],
        &[0x52, 0x4D, 1, 0, 1, 0],
        &[0x52, 0x4D, 1, 0, 5],
        &[0x52, 0x4D, 1, 0, 2],
    ];
    for numbers in [895, 900] {
        for bytes in refused {
            fill(rt, bytes, numbers)?;
        }
    }
    let rows: [(&[u8], usize); 8] = [
        // 3
        (&[0x52, 0x4D, 1, 0, 1], 895),
        (&[0x52, 0x4D, 1, 0, 1], 0),
        (&[0x52, 0x4D, 0, 0], 895),
        // none; and a longer slice keeps the rest
        (&[0x52, 0x4D, 1, 0, 1], 896),
        (&[0x52, 0x4D, 1, 0, 1], 900),
        (&[0x52, 0x4D, 0, 0], 896),
        (&[0x52, 0x4D, 0, 0], 900),
        (&[0x52, 0x4D, 5, 0, 0x33, 1], 897),
    ];
    for (bytes, numbers) in rows {
        fill(rt, bytes, numbers)?;
    }
    Ok(())
}
