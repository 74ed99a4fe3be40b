// Document 01, "Order of checks": append. The new record goes straight into the buffer behind the used bytes.
#![tactic(auto)]

ghost use Rattle.std.specs.Prelude.{◌≡◌};
ghost use Rattle.rules.specs.Drawer.{records_in};
ghost use Rattle.answers.specs.Said.{said};
ghost use Rattle.append.specs.Appends.{Appends};

use answers::Refusal;

// How many records stand in these bytes; 13 where they are not whole framed records. It walks the heads alone.
fn count(bytes: &[u8]) -> Result<usize, Refusal>
    ensures { said result ≡ records_in bytes.now }
{
    let mut at = 0;
    let mut k = 0;
    // by each record's length, which is not known beforehand
    while at < bytes.len() {
        let passed = drawer::record_at(bytes, at).map_err(|_| Refusal::UsedWrong)?;
        at = passed.at + passed.size;
        k += 1;
    }
    Ok(k)
}

// Append: 12, 13, 14, 1, 2, 3. It answers the new used length. The used bytes are framed once, and the record
// is written where it stays: no byte is copied, and none outside the new record changes.
pub fn append(
    buffer: &mut [u8],
    used: usize,
    column: &[u32],
    work: &mut [u16],
) -> Result<usize, Refusal>
    ensures { Appends buffer.old used column.now work.old result buffer.new work.new }
{
    if 65536 < buffer.len() {
        return Err(Refusal::DrawerLong);
    }
    if buffer.len() < used {
        return Err(Refusal::UsedWrong);
    }
    let k = count(&buffer[..used])?;
    if 64 <= k {
        return Err(Refusal::DrawerFull);
    }
    let length = build::build(column, work, &mut buffer[used..])?;
    Ok(used + length)
}
