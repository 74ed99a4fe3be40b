// Where a closing stands among eight bits, with no loop and no table in memory: the places in four bits
// stand in the digits of two numbers.
ghost use Rattle.std.specs.Prelude.{◌≡◌, ◌+◌, ◌≤◌, ◌<◌};
ghost use Rattle.rules.specs.Excess.{closings, closing_place};
ghost use Rattle.rules.specs.Bytes.{low_bits};
ghost use Rattle.blocks.specs.Select.{Leads};

// Closing number k of the lowest of these bits is asked for, the first of which stands at place at.
#[derive(Clone, Copy)]
pub struct Narrow {
    pub bits: u64,
    pub k: usize,
    pub at: usize,
}

// The closings among the w lowest bits: those that are not set.
fn count(bits: u64, w: u32) -> usize
    requires { w < 64 }
    ensures { result ≡ closings (low_bits w bits) }
{
    (w - (bits % (1 << w)).count_ones()) as usize
}

// The closings among the eight lowest bits.
pub fn count_eight(bits: u64) -> usize
    ensures { result ≡ closings (low_bits 8 bits) }
{
    count(bits, 8)
}

// Where closing number k of the four lowest bits v stands: half of digit v, the places of closings 0 and 1
// in one number, those of 2 and 3 in another.
fn place(bits: u64, k: usize) -> usize
    requires { k < closings (low_bits 4 bits) }
    ensures { result ≡ closing_place (low_bits 4 bits) k }
{
    let places: u64 = if k < 2 {
        0x0014_2894_3cd4_e894
    } else {
        0x0000_0002_0003_033e
    };
    ((places >> (4 * (bits % 16) + 2 * ((k % 2) as u64))) % 4) as usize
}

// From eight bits to the half of them in which the closing stands.
fn half(n: Narrow) -> Narrow
    requires { (n.k < closings (low_bits 8 n.bits)) × (n.at ≤ 1048576) }
    ensures { Leads 8 n 4 result }
{
    let c = count(n.bits, 4);
    if n.k < c {
        return n;
    }
    Narrow {
        bits: n.bits >> 4,
        k: n.k - c,
        at: n.at + 4,
    }
}

// Where the closing stands that is among the eight lowest bits.
pub fn nth(n: Narrow) -> usize
    requires { (n.k < closings (low_bits 8 n.bits)) × (n.at ≤ 1048576) }
    ensures { result ≡ n.at + closing_place (low_bits 8 n.bits) n.k }
{
    let h = half(n);
    h.at + place(h.bits, h.k)
}
