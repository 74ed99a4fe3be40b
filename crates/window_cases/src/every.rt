// The document's column 4 2 4 2 9 with every window and every ask, up to two past the last entry.
use crate::wanted::{Asks, Marked, Wanted};
use shown::Hexes;
use std::{array, io};

// A window, and from each entry the asks to each.
fn window(rt: &impl Print, window: Wanted) -> io::Result<()> {
    println!(rt; "{window}")?;
    for i in 0..7 {
        let to_each: [(usize, usize); 7] = array::from_fn(|j| (i, j));
        println!(rt; "  {i}..{}", Asks(window, &to_each))?;
    }
    Ok(())
}

pub fn all(rt: &impl Print) -> io::Result<()> {
    let mut work = [7u16; 5];
    let mut out = [0xEEu8; 6];
    let built = build::build(&[4, 2, 4, 2, 9], &mut work, &mut out);
    println!(rt; "build{}:{}", Marked(built), Hexes(&out))?;
    for first in 0..7 {
        for last in 0..7 {
            let bytes = &out;
            window(rt, Wanted { bytes, first, last })?;
        }
    }
    Ok(())
}
