ghost use Rattle.std.specs.Prelude.{◌≡◌, drop, take};

// The first n, or all where there are fewer.
pub fn first<T>(all: &[T], n: usize) -> &[T]
    ensures { result.now ≡ take n all.now }
{
    all.get(..n).unwrap_or(all)
}

// What is behind the first n.
pub fn behind<T>(all: &[T], n: usize) -> &[T]
    ensures { result.now ≡ drop n all.now }
{
    all.get(n..).unwrap_or(&[])
}

// The first n, or all, to be written in.
pub fn first_mut<T>(all: &mut [T], n: usize) -> &mut [T] {
    if all.len() < n {
        return all;
    }
    &mut all[..n]
}

// What a table holds: bytes or words.
pub trait Entry: Copy {
    // The number's last bits.
    fn of(value: usize) -> Self;
}

impl Entry for u8 {
    fn of(value: usize) -> u8 {
        (value % 256) as u8
    }
}

impl Entry for u16 {
    fn of(value: usize) -> u16 {
        (value % 65536) as u16
    }
}

// Puts a number's last bits at an index, where there is an entry.
pub fn put<T: Entry>(all: &mut [T], i: usize, value: usize) {
    if let Some(entry) = all.get_mut(i) {
        *entry = T::of(value);
    }
}
