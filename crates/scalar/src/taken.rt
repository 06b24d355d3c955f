// What a read from the front of bytes gives.

// A value and how many bytes it took.
#[derive(Clone, Copy, Debug, PartialEq, Eq)]
pub struct Taken<T> {
    pub value: T,
    pub used: usize,
}
