// Chips, the six links of a chip, the ports at which a packet arrives, and the cores of a chip.
ghost use Rattle.std.specs.Prelude.{◌≡◌, ◌+◌, ◌%◌, ◌<◌, ◌↔◌, Some, None, IfSome, IsNone, IfNone, ◌≤◌};
ghost use Rattle.spin_base.specs.Links.{dir_number, opposite_of, port_number};

/// A chip, by its place (x, y) in the grid.
#[derive(Clone, Copy, PartialEq, Eq, Hash)]
pub struct Chip {
    pub x: u8,
    pub y: u8,
}

/// A link of a chip, in the order of the links' numbers 0 to 5 (SpiNNaker datasheet).
#[derive(Clone, Copy, PartialEq, Eq)]
pub enum Dir {
    /// Link 0, to (+1, 0).
    East,
    /// Link 1, to (+1, +1).
    NorthEast,
    /// Link 2, to (0, +1).
    North,
    /// Link 3, to (-1, 0).
    West,
    /// Link 4, to (-1, -1).
    SouthWest,
    /// Link 5, to (0, -1).
    South,
}

impl Dir {
    /// The six links, in the order of their numbers.
    pub const ALL: [Dir; 6] = [
        Dir::East,
        Dir::NorthEast,
        Dir::North,
        Dir::West,
        Dir::SouthWest,
        Dir::South,
    ];

    /// The link's number, 0 to 5.
    pub fn number(self) -> u8
        ensures number { result ≡ dir_number self }
        ensures below_six { result < 6 }
    {
        match self {
            Dir::East => 0,
            Dir::NorthEast => 1,
            Dir::North => 2,
            Dir::West => 3,
            Dir::SouthWest => 4,
            Dir::South => 5,
        }
    }

    /// The link of that number, and `None` exactly where the number is above 5.
    pub fn from_number(number: u8) -> Option<Dir>
        ensures found { IfSome result (λ d. dir_number d ≡ number) }
        ensures beyond { IsNone result ↔ (6 ≤ number) }
    {
        match number {
            0 => Some(Dir::East),
            1 => Some(Dir::NorthEast),
            2 => Some(Dir::North),
            3 => Some(Dir::West),
            4 => Some(Dir::SouthWest),
            5 => Some(Dir::South),
            _ => None,
        }
    }

    /// The link that leads the other way: of number (d + 3) mod 6 (SpiNNaker datasheet).
    pub fn opposite(self) -> Dir
        ensures link { result ≡ opposite_of self }
        ensures number { dir_number result ≡ (dir_number self + 3) % 6 }
    {
        match self {
            Dir::East => Dir::West,
            Dir::NorthEast => Dir::SouthWest,
            Dir::North => Dir::South,
            Dir::West => Dir::East,
            Dir::SouthWest => Dir::NorthEast,
            Dir::South => Dir::North,
        }
    }
}

/// Where a packet comes into a router: by a link, or from a core of the chip.
#[derive(Clone, Copy, PartialEq, Eq)]
pub enum Port {
    Link(Dir),
    Local,
}

impl Port {
    /// How many ports a chip has: its six links, and its own cores.
    pub const COUNT: u32 = 7;

    /// The seven ports, in the order of their numbers.
    pub const ALL: [Port; 7] = [
        Port::Link(Dir::East),
        Port::Link(Dir::NorthEast),
        Port::Link(Dir::North),
        Port::Link(Dir::West),
        Port::Link(Dir::SouthWest),
        Port::Link(Dir::South),
        Port::Local,
    ];

    /// The link's number, and 6 for `Local`.
    pub fn number(self) -> u8
        ensures number { result ≡ port_number self }
        ensures below_seven { result < 7 }
    {
        match self {
            Port::Link(link) => link.number(),
            Port::Local => 6,
        }
    }
}

/// How many cores a chip has (SpiNNaker datasheet). What hangs on link d of a chip counts as its number `CORES` + d.
pub const CORES: u8 = 18;

/// A core of a chip, by its number.
#[derive(Clone, Copy, PartialEq, Eq)]
pub struct Spot {
    pub chip: Chip,
    pub core: u8,
}
