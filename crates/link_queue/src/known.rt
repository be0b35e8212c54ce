// What the ends of a link know. No value of it is made: it exists in proofs alone.
use spin_base::McCopy;
use std::collections::LinkedList;

/// What an end of a link knows of it: whether it sends and takes, the first list, what was taken of its offers, its
/// notes of Full, what it took, its notes of None; the capacity, a bound on how many copies are held, and on how many
/// are left.
pub struct Known {
    pub sends: bool,
    pub takes: bool,
    pub first: LinkedList<McCopy>,
    pub sent: LinkedList<McCopy>,
    pub fulls: LinkedList<u64>,
    pub took: LinkedList<McCopy>,
    pub nones: LinkedList<u64>,
    pub cap: u64,
    pub held: u64,
    pub left: u64,
}
