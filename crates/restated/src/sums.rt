// A sum of what is too long to show, in which each place counts differently.

fn step(sum: u64, value: u64) -> u64 {
    (sum % 65521 * 31 + value % 65536) % 65521
}

pub fn sum<T: Copy + Into<u64>>(s: &[T]) -> u64 {
    s.iter().fold(1, |sum, &v| step(sum, v.into()))
}
