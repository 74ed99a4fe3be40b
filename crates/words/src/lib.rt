// Eight bytes as one number, and their closings counted at once.
#![tactic(auto)]

ghost use Rattle.std.specs.Prelude.{◌≡◌, ◌+◌, ◌≤◌, length, take, drop};
ghost use Rattle.rules.specs.Excess.{closings};
ghost use Rattle.rules.specs.Bytes.{low_bits, all_bits};

// Eight bytes from at on as one number, low byte first: the compiler makes it one load.
pub fn word(part: &[u8], at: usize) -> u64
    requires { at + 8 ≤ length part.now }
    ensures { low_bits 64 result ≡ all_bits (take 8 (drop at part.now)) }
{
    let to = at + 8;
    let eight = <[u8; 8]>::try_from(&part[at..to]).unwrap();
    u64::from_le_bytes(eight)
}

// The closings of eight bytes from at on: a closing is a 0.
pub fn closings(part: &[u8], at: usize) -> usize
    requires { at + 8 ≤ length part.now }
    ensures { result ≡ closings (all_bits (take 8 (drop at part.now))) }
{
    word(part, at).count_zeros() as usize
}
