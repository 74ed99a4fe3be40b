// Columns of document 01 that are too long to show: what build says, the record's first and last bytes, the
// longest ask, and how much differs from the rules restated plainly.
use crate::lent;
use judge::Judge;
use restated::columns::Kind;
use restated::part;
use shown::{Hexes, Said};
use std::io;

// The first six bytes and the last two, and the ask of all n entries.
fn ends(rt: &impl Print, bytes: &[u8], n: usize) -> io::Result<()> {
    if let (Some(first), Some(last)) = (bytes.first_chunk::<6>(), bytes.last_chunk::<2>()) {
        print!(rt; ";{} ..{}", Hexes(first), Hexes(last))?;
    }
    let said = ask::ask(bytes, 0, n.saturating_sub(1));
    print!(rt; "; ask of all:{}", Said(said))
}

// A column built with more work and output than it needs: the work, what is behind the record, the record.
fn row(rt: &impl Print, name: &str, kind: Kind, n: usize) -> io::Result<()> {
    let mut column = [0u32; 32769];
    let mut work = [7u16; 32769];
    let mut out = [0xEEu8; 8197];
    let column = part::first_mut(&mut column, n);
    kind.fill(column, 1);
    let said = build::build(column, &mut work, &mut out);
    let mut judge = Judge::default();
    let used = if said.is_ok() { n } else { 0 };
    judge.count(lent::cleared(&work, used));
    judge.count(lent::kept(&out, said.unwrap_or(0)));
    print!(rt; "{name} {n}:{}", Said(said))?;
    if let Ok(size) = said {
        let bytes = part::first(&out, size);
        judge.asks(column, bytes, n / 16);
        judge.long_record(bytes);
        ends(rt, bytes, n)?;
    }
    println!(rt; "; {judge}")
}

pub fn columns(rt: &impl Print) -> io::Result<()> {
    let rows = [
        ("falling", Kind::Falling, 128),
        ("falling", Kind::Falling, 129),
        ("falling", Kind::Falling, 32767),
        ("falling", Kind::Falling, 32768),
        ("falling", Kind::Falling, 32769),
        ("below 1,", Kind::Random(1), 32768),
        ("below 2,", Kind::Random(2), 32768),
        ("below 65536,", Kind::Random(65536), 32768),
        ("below 1,", Kind::Random(1), 32769),
    ];
    for (name, kind, n) in rows {
        row(rt, name, kind, n)?;
    }
    Ok(())
}
