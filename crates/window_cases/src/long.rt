// A record of two blocks: 129 falling entries, whose smallest is always the last that is asked about.
use crate::wanted::{Asks, Marked, Wanted};
use restated::columns::Kind;
use std::io;

fn windows(rt: &impl Print, bytes: &[u8]) -> io::Result<()> {
    let rows = [
        (10, 120, 10, 120),
        (10, 120, 11, 119),
        (10, 120, 64, 64),
        // a place outside on either side
        (10, 120, 9, 120),
        (10, 120, 10, 121),
        (10, 120, 9, 9),
        (10, 120, 121, 121),
        (10, 120, 0, 128),
        // the whole record; one entry past it
        (0, 128, 0, 128),
        (0, 129, 0, 128),
        (128, 128, 128, 128),
        (129, 129, 128, 128),
    ];
    for (first, last, i, j) in rows {
        let window = Wanted { bytes, first, last };
        println!(rt; "{window}; ask {i}..{j}:{}", Asks(window, &[(i, j)]))?;
    }
    Ok(())
}

pub fn falling(rt: &impl Print) -> io::Result<()> {
    let mut column = [0u32; 129];
    let mut work = [7u16; 129];
    let mut out = [0xEEu8; 37];
    Kind::Falling.fill(&mut column, 0);
    let built = build::build(&column, &mut work, &mut out);
    println!(rt; "129 falling:{}", Marked(built))?;
    windows(rt, &out)
}
