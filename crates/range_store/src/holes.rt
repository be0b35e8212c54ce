// A run of free places.

/// A longest run of free places: `len` places from `place` on.
#[derive(Clone, Copy, PartialEq, Eq)]
pub struct Hole {
    pub place: u64,
    pub len: u64,
}
