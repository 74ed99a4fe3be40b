// Find and hand-out over drawers of 63, 64 and 65 records, and of 65,536 and 65,537 bytes.
use crate::calls::Calls;
use drawers::kinds::Kind;
use restated::part;
use std::io;

fn drawer(calls: &mut Calls<impl Print>, bytes: &[u8]) -> io::Result<()> {
    println!(calls.rt; "{} bytes", bytes.len())?;
    calls.finds(bytes, &[0, 3, 7, 8, 62, 63, 64, 65, usize::MAX])
}

// Records of no entries and of one entry in turn: 63, 64 and 65 of them.
pub fn counts(calls: &mut Calls<impl Print>) -> io::Result<()> {
    let mut bytes = [0u8; 292];
    Kind::InTurn.fill(&mut bytes);
    for (count, size) in [(63, 283), (64, 288), (65, 292)] {
        print!(calls.rt; "{count} records, ")?;
        drawer(calls, part::first(&bytes, size))?;
    }
    Ok(())
}

// The same drawer, a byte shorter, whole and a byte longer.
fn around(calls: &mut Calls<impl Print>, kind: Kind, count: &str) -> io::Result<()> {
    let mut bytes = [0u8; 65537];
    kind.fill(&mut bytes);
    println!(calls.rt; "{count} records in 65536 bytes")?;
    for size in 65535..=65537 {
        drawer(calls, part::first(&bytes, size))?;
    }
    Ok(())
}

pub fn sizes(calls: &mut Calls<impl Print>) -> io::Result<()> {
    around(calls, Kind::OfMost, "eight")?;
    around(calls, Kind::OfNone, "16384")
}
