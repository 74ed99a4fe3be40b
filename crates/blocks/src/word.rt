// The closings of eight bytes summed up byte by byte, and the byte in which a closing stands.
ghost use Rattle.std.specs.Prelude.{◌≡◌, ◌≤◌, ◌<◌};
ghost use Rattle.rules.specs.Excess.{closings};
ghost use Rattle.rules.specs.Bytes.{low_bits};
ghost use Rattle.blocks.specs.Select.{joined, count_at, sum_at, Leads};

use crate::byte::Narrow;

// The closings of each byte, all eight at once: bits by twos, by fours, by eights.
fn counts(x: u64) -> u64
    ensures { result ≡ joined 8 (count_at x) }
{
    let y = !x;
    let a = y - ((y & 0xaaaa_aaaa_aaaa_aaaa) >> 1);
    let b = (a & 0x3333_3333_3333_3333) + ((a & 0xcccc_cccc_cccc_cccc) >> 2);
    (b & 0x0f0f_0f0f_0f0f_0f0f) + ((b & 0xf0f0_f0f0_f0f0_f0f0) >> 4)
}

// The same, each with those of the bytes before it.
pub fn sums(x: u64) -> u64
    ensures { result ≡ joined 8 (sum_at x) }
{
    let c = counts(x);
    let d = c + (c << 8);
    let e = d + (d << 16);
    e + (e << 32)
}

// From a word to the byte in which the closing stands. Each byte of the sums is taken from 128 + k, and
// so keeps its highest bit just where no more than k closings are passed.
pub fn to_byte(n: Narrow, sums: u64) -> Narrow
    requires { (sums ≡ joined 8 (sum_at n.bits)) × (n.k < closings (low_bits 64 n.bits)) × (n.at ≤ 1048576) }
    ensures { Leads 64 n 8 result }
{
    let k = n.k as u64;
    let passed = ((0x0101_0101_0101_0101 * k + 0x8080_8080_8080_8080) - sums)
        & 0x8080_8080_8080_8080;
    let d = 64 - passed.leading_zeros();
    let before = ((sums << 8) >> d) % 256;
    Narrow {
        bits: n.bits >> d,
        k: (k - before) as usize,
        at: n.at + (d as usize),
    }
}
