// Random numbers, the same at every run.
ghost use Rattle.std.specs.Prelude.{◌<◌};

// The lowest 32 bits.
pub(crate) fn low(x: impl Into<u64>) -> u32 {
    (x.into() % (1 << 32)) as u32
}

// The number after x. Of x, here and below, the lowest 32 bits count.
pub fn next(x: impl Into<u64>) -> u32 {
    low(x).wrapping_mul(1664525).wrapping_add(1013904223)
}

// Three steps on: numbers that come from neighbours lie apart.
pub fn far(x: impl Into<u64>) -> u32 {
    next(next(next(x)))
}

// Such a number, brought below `values`; 0 where there are none.
pub fn below(x: impl Into<u64>, values: u64) -> u32 {
    let x = low(x);
    if values == 0 {
        return 0;
    }
    let width = u64::from(u32::MAX) / values + 1;
    (u64::from(x) / width) as u32
}

// The same as a place, of up to 65,535.
pub fn place(x: impl Into<u64>, values: usize) -> usize
    ensures { result < 65536 }
{
    (below(x, values as u64) % 65536) as usize
}

// Numbers below `values`, which the type has.
pub fn fill<T: Copy + TryFrom<u32>>(numbers: &mut [T], seed: impl Into<u64>, values: u64)
where
    T::Error: Drop,
{
    let mut x = low(seed);
    for number in numbers {
        x = next(x);
        if let Ok(fitting) = T::try_from(below(x, values)) {
            *number = fitting;
        }
    }
}

// From entry i to entry j.
#[derive(Clone, Copy)]
pub struct Stretch {
    pub i: usize,
    pub j: usize,
}

impl Stretch {
    // A stretch of n entries. Half of them are short.
    pub fn of(x: impl Into<u64>, n: usize) -> Stretch {
        let x = low(x);
        let y = next(x);
        let i = place(x, n);
        let room = n.saturating_sub(i);
        let short = 1 << 31 <= y;
        let most = if short { room.min(64) } else { room };
        Stretch {
            i,
            j: i + place(next(y), most),
        }
    }
}
