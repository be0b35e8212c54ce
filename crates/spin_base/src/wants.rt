// What a call may want and not get.
use std::alloc::{AllocError, AllocFailed};

/// There was not enough memory. It is the one free answer: no clause says when it comes.
#[derive(Clone, Copy, PartialEq, Eq)]
pub struct Memory;

impl From<AllocError> for Memory {
    fn from(_: AllocError) -> Self {
        Memory
    }
}

impl<T: Drop> From<AllocFailed<T>> for Memory {
    fn from(_: AllocFailed<T>) -> Self {
        Memory
    }
}

/// A read or a write outside the process failed.
#[derive(Clone, Copy, PartialEq, Eq)]
pub struct Failed;
