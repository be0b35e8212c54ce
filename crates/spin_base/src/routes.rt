// Routes: which links and cores get a copy of a packet.
ghost use Rattle.std.specs.Prelude.{◌≡◌, ◌<◌, ◌^◌, count_by, if◌then◌else◌};

use crate::chips::{CORES, Dir};
use arrayvec::ArrayVec;

/// An output of a router: a link, or a core of the chip (0 to 17).
#[derive(Clone, Copy, PartialEq, Eq)]
pub enum Out {
    Link(Dir),
    Core(u8),
}

impl Default for Out {
    fn default() -> Self {
        Out::Core(0)
    }
}

impl Out {
    ghost use Rattle.spin_base.specs.Outputs.{out_number, IsOutput};

    /// The output's bit in a route: bits 0 to 5 are the links, bits 6 to 23 the cores 0 to 17 (SpiNNaker datasheet).
    pub fn number(self) -> u16
        ensures { result ≡ out_number self }
    {
        match self {
            Out::Link(link) => u16::from(link.number()),
            Out::Core(core) => 6 + u16::from(core),
        }
    }

    /// The output of a bit.
    pub fn of_bit(number: u8) -> Out
        requires { number < 24 }
        ensures output { IsOutput result }
        ensures number { out_number result ≡ number }
    {
        match Dir::from_number(number) {
            Some(link) => Out::Link(link),
            None => Out::Core(number - 6),
        }
    }
}

/// The outputs of one packet: at most 24 different ones, in the order of their bits.
pub type Outs = ArrayVec<Out, 24>;

/// The links and cores that get a copy of a packet, as 24 bits (SpiNNaker datasheet).
#[derive(Clone, Copy, PartialEq, Eq)]
pub struct Route {
    pub bits: u32,
    ghost within: { bits < 2 ^ 24 },
}

impl Route {
    ghost use Rattle.spin_base.specs.Equality.{out_eq};
    ghost use Rattle.spin_base.specs.declared.routes.Out.{Out};
    ghost use Rattle.spin_base.specs.Outputs.{has, outs_of, IsOutput, WithOut, nothing};

    /// No link and no core.
    pub fn nothing() -> Route
        ensures { result ≡ nothing }
    {
        Route { bits: 0 }
    }

    /// Whether the output gets a copy: its bit is 1. A core above 17 has no bit.
    pub fn has(self, out: Out) -> bool
        ensures { result ≡ has self out }
    {
        match out {
            Out::Link(link) => (self.bits >> link.number()) & 1 == 1,
            Out::Core(core) => core < CORES && (self.bits >> (6 + core)) & 1 == 1,
        }
    }

    /// The same route, and that output besides.
    pub fn with(self, out: Out) -> Route
        requires { IsOutput out }
        ensures { WithOut self out result }
    {
        let number = match out {
            Out::Link(link) => link.number(),
            Out::Core(core) => 6 + core,
        };
        Route {
            bits: self.bits | 1 << number,
        }
    }

    /// The outputs that get a copy, in the order of their bits, each once.
    pub fn outs(self) -> Outs
        ensures all { result.items ≡ outs_of self }
        ensures once { (o : Out) → IsOutput o
            → count_by (out_eq o) result.items ≡ (if has self o then 1 else 0) }
    {
        let mut outs = Outs::new();
        let mut left = self.bits;
        while left != 0 {
            let number = left.trailing_zeros();
            left &= !(1 << number);
            outs.push(Out::of_bit(number as u8));
        }
        outs
    }
}
