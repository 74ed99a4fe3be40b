// The first n of some bytes or numbers, or all where there are fewer.

pub fn first<T>(s: &[T], n: usize) -> &[T] {
    s.get(..n).unwrap_or(s)
}

pub fn first_mut<T>(s: &mut [T], n: usize) -> &mut [T] {
    let end = n.min(s.len());
    &mut s[..end]
}
