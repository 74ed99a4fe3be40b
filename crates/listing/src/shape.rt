// The parentheses of a record that has passed its check.
ghost use Rattle.std.specs.Prelude.{◌≡◌, ◌+◌, ◌*◌, ◌/◌, ◌≤◌, ◌<◌, ℕ, length, map, get_or};
ghost use Rattle.rules.specs.Bytes.{low_bits, all_bits, parens};
ghost use Rattle.rules.specs.Listing.{sign, greatest_excess};
ghost use Rattle.listing.specs.Bit.{bit_at};

use checks::record::Record;
use scan::{GROUND, Scan};

// 1 where parenthesis b opens, 0 where it closes.
fn bit(bytes: &[u8], b: usize) -> u8
    requires { (length bytes.now ≤ 8196) × (4 + b / 8 < length bytes.now) }
    ensures { result ≡ bit_at bytes.now b }
{
    (bytes[4 + b / 8] >> (b % 8)) % 2
}

// The greatest excess after any parenthesis of these bytes, 0 for none: each byte is read once through the
// table with its parentheses turned over, opening for closing, and what is the greatest is the smallest then.
pub fn greatest(body: &[u8]) -> usize
    requires { length body.now ≤ 8192 }
    ensures { result ≡ greatest_excess (all_bits body.now) }
{
    let mut st = Scan {
        excess: GROUND,
        smallest: GROUND,
        place: 0,
    };
    for (k, &b) in body.iter().enumerate() {
        st = st.byte(8 * k, 255 - b);
    }
    GROUND - st.smallest
}

// The signs of eight parentheses, worked out at once: of eight copies of the byte each keeps its own bit, and 127 more
// carries that bit, whichever it is, to the copy's highest place.
fn eight(byte: u8) -> [u8; 8]
    ensures { result ≡ map sign (low_bits 8 byte) }
{
    let spread = (u64::from(byte) * 0x0101_0101_0101_0101) & 0x8040_2010_0804_0201;
    let opened = ((spread + 0x7F7F_7F7F_7F7F_7F7F) >> 7) & 0x0101_0101_0101_0101;
    (0x2929_2929_2929_2929 - opened).to_le_bytes()
}

// The signs behind the last whole byte, one by one; those before it stand.
fn others(checked: Record, out: &mut [u8])
    requires long { length out.old ≡ 2 * checked.entries }
    requires stand { (j : ℕ) → j < 8 * (checked.entries / 4) → get_or out.old j 0 ≡ get_or (map sign (parens checked.entries checked.bytes.now)) j 0 }
    ensures { out.new ≡ map sign (parens checked.entry.entries checked.entry.bytes.now) }
{
    for b in 8 * (checked.entries / 4)..2 * checked.entries {
        out[b] = b')' - bit(checked.bytes, b);
    }
}

// Its parentheses, "(" for an opening and ")" for a closing: eight for each whole byte, then the others.
pub fn signs(checked: Record, out: &mut [u8])
    requires { length out.old ≡ 2 * checked.entries }
    ensures { out.new ≡ map sign (parens checked.entry.entries checked.entry.bytes.now) }
{
    for k in 0..checked.entries / 4 {
        let at = 8 * k;
        let to = at + 8;
        out[at..to].copy_from_slice(&eight(checked.bytes[4 + k]));
    }
    others(checked, out);
}
