// Appends in a row into one buffer, then what find and hand-out say of each record.
use crate::calls::Calls;
use answers::Refusal;
use drawers::kinds::Kind;
use restated::{columns, part, sums};
use shown::{Hexes, Said, Spaced};
use std::io;

// A drawer in the making: a buffer, how many of its bytes are used, and the work that each append is lent.
#[derive(Drop)]
struct Chain<const BYTES: usize, const NUMBERS: usize> {
    buffer: [u8; BYTES],
    used: usize,
    work: [u16; NUMBERS],
}

impl<const BYTES: usize, const NUMBERS: usize> Chain<BYTES, NUMBERS> {
    // Behind so many bytes of records in turn.
    fn behind(used: usize) -> Self {
        let mut buffer = [0xEE; BYTES];
        Kind::InTurn.fill(part::first_mut(&mut buffer, used));
        Chain {
            buffer,
            used,
            work: [7; NUMBERS],
        }
    }

    // One append behind the used bytes, counted.
    fn append(&mut self, calls: &mut Calls<impl Print>, column: &[u32]) -> Result<usize, Refusal> {
        let said = append::append(&mut self.buffer, self.used, column, &mut self.work);
        calls.seen.see(&said);
        self.used = said.unwrap_or(self.used);
        said
    }

    // What stands in the used bytes.
    fn drawer(&self) -> &[u8] {
        part::first(&self.buffer, self.used)
    }
}

// Three records, and a fourth for which a byte is missing.
pub fn three(calls: &mut Calls<impl Print>) -> io::Result<()> {
    let mut chain = Chain::<18, 6>::behind(0);
    let columns: [&[u32]; 4] = [&[3, 1, 2], &[], &[4, 2, 4, 2, 9], &[]];
    println!(calls.rt; "three in a row")?;
    for column in columns {
        print!(calls.rt; "append{} behind {}:", Spaced(column), chain.used)?;
        let said = chain.append(calls, column);
        let buffer = Hexes(&chain.buffer);
        println!(calls.rt; "{};{buffer};{}", Said(said), Spaced(&chain.work))?;
    }
    calls.finds(chain.drawer(), &[0, 1, 2, 3])
}

// Record 63 behind 63 records, and no record 64.
pub fn last(calls: &mut Calls<impl Print>) -> io::Result<()> {
    let mut chain = Chain::<300, 5>::behind(283);
    let with_entries = chain.append(calls, &[4, 2, 4, 2, 9]);
    let with_none = chain.append(calls, &[]);
    println!(calls.rt; "behind 63 records")?;
    println!(calls.rt; "{}{}", Said(with_entries), Said(with_none))?;
    calls.finds(chain.drawer(), &[0, 62, 63, 64])
}

// Seventy appends, of columns of 0 to 69 entries: 64 of them find a place.
pub fn many(calls: &mut Calls<impl Print>) -> io::Result<()> {
    let mut chain = Chain::<2000, 72>::behind(0);
    let mut column = [0u32; 70];
    columns::Kind::Scattered.fill(&mut column, 0);
    for n in 0..70 {
        // counted, whatever it says
        let _ = chain.append(calls, &column[..n]);
    }
    let sum = sums::sum(&chain.buffer);
    println!(calls.rt;
        "seventy appends: used {}, sum {sum}, work{}",
        chain.used,
        Spaced(&chain.work)
    )?;
    for r in 0..66 {
        calls.find(chain.drawer(), r)?;
    }
    Ok(())
}
