// Columns by rule.
use crate::random;

#[derive(Clone, Copy)]
pub enum Kind {
    // entries below a number
    Random(u64),
    Falling,
    // 0, n, n - 1, ..: the second closing stands half a record behind the first
    Worst,
    // falling, with noise
    Noisy,
    // rising over so many entries, again and again
    Saw(usize),
    Scattered,
}

impl Kind {
    // Entry k of n, with a random number.
    fn entry(self, n: usize, k: usize, x: u32) -> usize {
        let down = n.saturating_sub(k);
        match self {
            Kind::Random(values) => random::below(x, values) as usize,
            Kind::Falling => down,
            Kind::Worst => if k == 0 { 0 } else { down.saturating_add(1) },
            Kind::Noisy => down % 65536 * 8 + (x >> 24) as usize % 64,
            Kind::Saw(length) => k.checked_rem(length).unwrap_or(0),
            Kind::Scattered => k % 65536 * 40503 % 65536,
        }
    }

    pub fn fill(self, column: &mut [u32], seed: u64) {
        let n = column.len();
        let mut x = random::low(seed);
        for (k, entry) in column.iter_mut().enumerate() {
            x = random::next(x);
            *entry = (self.entry(n, k, x) % 4294967296) as u32;
        }
    }
}
