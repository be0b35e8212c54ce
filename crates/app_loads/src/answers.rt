// What loading and unloading answer.
use crate::deliveries::Deliveries;
use spin_base::{Chip, DumpRec, Seq};

/// What an application leaves when it is unloaded: its deliveries and its dump records, each in the order in which they came.
#[derive(Drop)]
pub struct Ended {
    pub delivered: Deliveries,
    pub dumped: Seq<DumpRec>,
}

/// Why an application was not loaded.
#[derive(Clone, Copy)]
pub enum LoadErr {
    /// It was refused.
    Refused(LoadRefusal),
    /// Memory ran out.
    Memory,
}

/// Why an application is refused.
#[derive(Clone, Copy)]
pub enum LoadRefusal {
    /// An application of that number is loaded.
    Loaded,
    /// No hole in the memory of the vertex's chip has its bytes.
    MemoryOut { vertex: u32 },
    /// The net's fixed block is not wholly free, or no block of its size is.
    KeysOut { net: u32 },
    /// No hole among the chip's entries has room for the application's rows there.
    RowsOut { chip: Chip },
}

/// Why an application was not unloaded.
#[derive(Clone, Copy)]
pub enum UnloadErr {
    /// No application of that number is loaded.
    NotLoaded,
    /// A copy of a packet of the application is unsent or waits somewhere: the least number of such a packet.
    Waiting { packet: u32 },
    /// Memory ran out.
    Memory,
}
