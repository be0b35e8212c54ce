// The tables of a chip while they are covered: rows that stand for original blocks.
ghost use Rattle.std.specs.Prelude.{◌≡◌};
ghost use Rattle.tern_word.specs.Entries.{entry_of};

use spin_base::{Block, Entry, Port, Route, Seq, Shared};

/// An original block of the chip that a row stands for: the keys of a net, and the port at which its packets arrive.
#[derive(Clone, Copy, PartialEq, Eq)]
pub struct Alias {
    pub block: Block,
    pub port: Port,
}

/// A row: packets whose key lies in `block` go out by `route`. It stands for the original blocks `aliases`.
#[derive(Drop)]
pub struct Row {
    pub block: Block,
    pub route: Route,
    pub aliases: Seq<Alias>,
}

impl Row {
    /// The entry of a router's table that the row is: its key, mask and route.
    pub fn entry(&self) -> Entry
        ensures { result ≡ entry_of self.now }
    {
        Entry {
            key: self.block.key,
            mask: self.block.mask,
            route: self.route,
        }
    }
}

/// The rows of one chip; the first that matches a key routes it.
#[derive(Drop)]
pub struct Table {
    pub rows: Seq<Row>,
}

impl Shared for Table {}
