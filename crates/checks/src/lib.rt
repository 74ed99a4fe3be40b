// Document 01, "Order of checks": frame and record check. Both read bytes and change nothing.
#![tactic(auto)]

pub mod record;

ghost use Rattle.std.specs.Prelude.{◌≡◌, ◌≤◌, ◌<◌, length};
ghost use Rattle.rules.specs.Excess.{balanced};
ghost use Rattle.rules.specs.Bytes.{most, record_length, entries, parens};
ghost use Rattle.rules.specs.Order.{frame_says, check_says};
ghost use Rattle.answers.specs.Said.{said};
ghost use Rattle.checks.specs.Inside.{Whole, inside_says};

use answers::Refusal;
use scan::{GROUND, Scan};

// n, as the head says it.
pub fn head(bytes: &[u8]) -> usize
    requires { 4 ≤ length bytes.now }
    ensures { result ≡ entries bytes.now }
{
    usize::from(u16::from_le_bytes([bytes[2], bytes[3]]))
}

// Frame: 5 for fewer than 4 bytes, 4, 1, 5 for the rest. It answers n and reads the head alone.
pub fn frame(bytes: &[u8]) -> Result<usize, Refusal>
    ensures { said result ≡ frame_says bytes.now }
{
    if bytes.len() < 4 {
        return Err(Refusal::CutShort);
    }
    if bytes[0] != 0x52 {
        return Err(Refusal::Unmarked);
    }
    if bytes[1] != 0x4D {
        return Err(Refusal::Unmarked);
    }
    let n = head(bytes);
    if 32768 < n {
        return Err(Refusal::TooManyEntries);
    }
    if bytes.len() < 4 + (n + 3) / 4 {
        return Err(Refusal::CutShort);
    }
    Ok(n)
}

// Whether the parentheses of a whole record are balanced, by one scan of its bytes. The unused bits of
// the last byte are read as openings, which are never the smallest.
fn in_balance(bytes: &[u8], n: usize) -> bool
    requires { Whole bytes.now n × (0 < n) }
    ensures { result ≡ balanced (parens n bytes.now) }
{
    let last = bytes.len() - 1;
    let spare = 8 * ((n + 3) / 4) - 2 * n;
    let start = Scan {
        excess: GROUND,
        smallest: GROUND,
        place: 0,
    };
    let front = start.bytes(&bytes[4..last], 0);
    let tail = scan::mask::opened(bytes[last], 8 - (spare as u32));
    let end = front.byte(8 * (last - 4), tail);
    if end.smallest < GROUND {
        return false;
    }
    end.excess == GROUND + spare
}

// 11, 6 and 7 of a framed record of n entries.
fn inside(bytes: &[u8], n: usize) -> Result<usize, Refusal>
    requires { (n ≤ most) × (record_length n ≤ length bytes.now) }
    ensures { said result ≡ inside_says bytes.now n }
{
    if 4 + (n + 3) / 4 < bytes.len() {
        return Err(Refusal::BytesAfter);
    }
    if n == 0 {
        return Ok(0);
    }
    let last = bytes[bytes.len() - 1];
    let spare = 8 * ((n + 3) / 4) - 2 * n;
    if scan::mask::opens_from(last, 8 - (spare as u32)) {
        return Err(Refusal::UnusedBit);
    }
    if in_balance(bytes, n) {
        return Ok(n);
    }
    Err(Refusal::Unbalanced)
}

// Record check: frame, 11, 6, 7. It answers n.
pub fn check(bytes: &[u8]) -> Result<usize, Refusal>
    ensures { said result ≡ check_says bytes.now }
{
    inside(bytes, frame(bytes)?)
}
