// A row as a tool gives it.
use spin_base::{Block, Port, Route};

/// A row of a table: packets whose key lies in the block go out by the route, where no earlier row has the key. They come in by the
/// port; `Local` is that of packets of a core, and of those of which nothing is told.
#[derive(Clone, Copy)]
pub struct RoutedBlock {
    pub block: Block,
    pub route: Route,
    pub port: Port,
}
