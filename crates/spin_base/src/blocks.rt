// Blocks of keys, entries of a router's table, and the entries of a chip's.
ghost use Rattle.std.specs.Prelude.{◌≡◌, ◌<◌, ◌^◌, bit_and};

use crate::chips::Chip;
use crate::lists::Seq;
use crate::routes::Route;

/// A block of keys: those `k` for which `k & mask = key`. The key has no bit outside the mask.
#[derive(Clone, Copy, PartialEq, Eq)]
pub struct Block {
    pub key: u32,
    pub mask: u32,
    ghost within: { bit_and key mask ≡ key },
    ghost small: { mask < 2 ^ 32 },
}

/// An entry of a router's table: it matches a key `k` where `k & mask = key` (SpiNNaker datasheet).
#[derive(Clone, Copy)]
pub struct Entry {
    pub key: u32,
    pub mask: u32,
    pub route: Route,
}

/// The entries of one chip's table, in order.
#[derive(Drop)]
pub struct ChipTable {
    pub chip: Chip,
    pub entries: Seq<Entry>,
}
