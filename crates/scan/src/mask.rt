// A byte of which only a part is meant, made whole so that it too goes through the table: what is
// not meant becomes openings behind it or closings before it.
ghost use Rattle.std.specs.Prelude.{◌≡◌, ◌-◌, ◌≤◌, ◌++◌, ltb, take, drop, replicate};
ghost use Rattle.rules.specs.Shape.{opening, closing};
ghost use Rattle.rules.specs.Excess.{openings};
ghost use Rattle.rules.specs.Bytes.{low_bits};

// The byte with its bits from k on opening.
pub fn opened(b: u8, k: u32) -> u8
    requires { k ≤ 8 }
    ensures { low_bits 8 result ≡ take k (low_bits 8 b) ++ replicate (8 - k) opening }
{
    ((b as u32) | (256 - (1 << k))) as u8
}

// The byte with its bits before k closing.
pub fn closed(b: u8, k: u32) -> u8
    requires { k ≤ 8 }
    ensures { low_bits 8 result ≡ replicate k closing ++ drop k (low_bits 8 b) }
{
    (((b as u32) >> k) << k) as u8
}

// Whether any bit from k on opens.
pub fn opens_from(b: u8, k: u32) -> bool
    requires { k ≤ 8 }
    ensures { result ≡ ltb 0 (openings (drop k (low_bits 8 b))) }
{
    ((b as u32) >> k) != 0
}
