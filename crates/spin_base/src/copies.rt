// Copies of packets, and what becomes of them.
ghost use Rattle.std.specs.Prelude.{◌≡◌};
ghost use Rattle.spin_base.specs.Hops.{onward};

use crate::chips::{Chip, Port};
use crate::routes::Out;

/// One copy of a packet.
#[derive(Clone, Copy, PartialEq, Eq)]
pub struct McCopy {
    /// The packet's number in the job. Records alone use it: a router looks at the key.
    pub packet: u32,
    /// The 32-bit key.
    pub key: u32,
    pub payload: Option<u32>,
    /// How many routers the copy has passed. It stays at 4,294,967,295, and a router gives a copy of that number no output.
    pub hop: u32,
}

impl McCopy {
    /// The copy behind a router: one hop more. One more than 4,294,967,295 is that number again.
    pub fn onward(self) -> McCopy
        ensures { result ≡ onward self }
    {
        McCopy {
            hop: self.hop.saturating_add(1),
            ..self
        }
    }
}

/// A copy that could not leave by an output, and was dropped there.
#[derive(Clone, Copy, PartialEq, Eq)]
pub struct DumpRec {
    pub chip: Chip,
    pub out: Out,
    pub copy: McCopy,
}

/// A copy that a vertex took, by the vertex's number.
#[derive(Clone, Copy, PartialEq, Eq)]
pub struct Delivery {
    pub vertex: u32,
    pub copy: McCopy,
}

/// A packet of a job: the net by its number, and the key as its place in the net's block.
#[derive(Clone, Copy)]
pub struct Packet {
    pub net: u32,
    pub index: u32,
    pub payload: Option<u32>,
}

/// One step of the machine. The numbers are vertices.
#[derive(Clone, Copy)]
pub enum Event {
    /// The vertex sends its first unsent copy.
    Inject(u32),
    /// The chip's router takes the first copy that waits at a port.
    Take(Chip, Port),
    /// The chip's router sends the copy in its hand by an output.
    Send(Chip, Out),
    /// The chip's router drops the copy in its hand for an output.
    Dump(Chip, Out),
    /// The vertex takes the first copy that waits for it.
    Collect(u32),
}
