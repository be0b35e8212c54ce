// The machine, and its queries.
ghost use Rattle.std.specs.Prelude.{◌≡◌, ◌+◌, ◌*◌, ◌<◌, ◌≤◌, ◌↔◌, Some, IfOk, All, length, not, count_by};

use crate::grids::Grid;
use crate::parts::MachineParts;
use crate::steps::Step;
use crate::trees::Edge;
use spin_base::{Chip, Dir, Memory, Seq, Shared, Spot};
use std::alloc::Global;
use std::marker::Model;

/// A machine: its grid of chips, the shared memory of each, and what of it is dead. Each query takes constant time and
/// no memory.
#[derive(Drop)]
pub struct Machine {
    grid: Grid,
    wrap: bool,
    sdram: u32,
    dead_chips: Seq<Chip>,
    dead_cores: Seq<Spot>,
    dead_links: Seq<Edge>,
    chip_listed: Vec<bool>,
    core_listed: Vec<bool>,
    link_listed: Vec<bool>,
    live_count: u32,
}

impl Shared for Machine {}

impl Model for Machine {
    ghost use Rattle.machine_desc.specs.Description.{Description};

    ghost Value = { Description };

    ghost use Rattle.machine_desc.specs.Described.{described, IsMachineTabled};

    ghost view = { described };

    ghost invariant = { IsMachineTabled };
}

impl Machine {
    ghost use Rattle.machine_desc.specs.Description.{HasSize};
    ghost use Rattle.machine_desc.specs.Live.{far_of, is_inside, is_listed, is_live_chip, is_live_link, is_usable, live_count_of, index_of, chip_of, IsInside};
    ghost use Rattle.spin_base.specs.Links.{opposite_of};
    ghost use Rattle.spin_base.specs.declared.chips.Chip.{Chip};
    ghost use Rattle.spin_base.specs.declared.chips.Dir.{Dir};

    /// The machine of these parts.
    pub fn new(alloc: Global, parts: MachineParts) -> Result<Machine, Memory>
        ensures { IfOk result (λ m. m ≡ record {
          width = parts.width;
          height = parts.height;
          wrap = parts.wrap;
          sdram = parts.sdram;
          dead_chips = parts.dead_chips;
          dead_cores = parts.dead_cores;
          dead_links = parts.dead_links;
        }) }
    {
        let grid = Grid {
            width: parts.width,
            height: parts.height,
        };
        let chip_listed = grid.chip_table(alloc, parts.dead_chips.as_slice())?;
        let core_listed = grid.core_table(alloc, parts.dead_cores.as_slice())?;
        let link_listed = grid.link_table(alloc, parts.dead_links.as_slice())?;
        let live_count = clear_count(&chip_listed);
        Ok(Machine {
            grid,
            wrap: parts.wrap,
            sdram: parts.sdram,
            dead_chips: parts.dead_chips,
            dead_cores: parts.dead_cores,
            dead_links: parts.dead_links,
            chip_listed,
            core_listed,
            link_listed,
            live_count,
        })
    }

    /// The same machine once more.
    pub fn copy(&self, alloc: Global) -> Result<Machine, Memory>
        ensures { IfOk result (λ m. m ≡ self.now) }
    {
        Ok(Machine {
            grid: self.grid,
            wrap: self.wrap,
            sdram: self.sdram,
            dead_chips: copied(alloc, &self.dead_chips)?,
            dead_cores: copied(alloc, &self.dead_cores)?,
            dead_links: copied(alloc, &self.dead_links)?,
            chip_listed: Vec::from_slice(alloc, &self.chip_listed)?,
            core_listed: Vec::from_slice(alloc, &self.core_listed)?,
            link_listed: Vec::from_slice(alloc, &self.link_listed)?,
            live_count: self.live_count,
        })
    }

    /// Chips along x, 1 to 64.
    pub fn width(&self) -> u8
        ensures value { result ≡ self.now.width }
        ensures size { HasSize self.now }
    {
        self.grid.width
    }

    /// Chips along y, 1 to 64.
    pub fn height(&self) -> u8
        ensures value { result ≡ self.now.height }
        ensures size { HasSize self.now }
    {
        self.grid.height
    }

    /// Whether the grid is closed to a torus.
    pub fn wrap(&self) -> bool
        ensures { result ≡ self.now.wrap }
    {
        self.wrap
    }

    /// Bytes of shared memory of each chip.
    pub fn sdram(&self) -> u32
        ensures { result ≡ self.now.sdram }
    {
        self.sdram
    }

    /// The number of chips, live or not: 1 to 4096.
    pub fn chips(&self) -> usize
        ensures total { result ≡ self.now.width * self.now.height }
        ensures some { 1 ≤ result }
        ensures few { result ≤ 4096 }
        ensures size { HasSize self.now }
    {
        self.grid.chips()
    }

    /// The number of live chips.
    pub fn live_count(&self) -> u32
        ensures { result ≡ live_count_of self.now }
    {
        self.live_count
    }

    /// Whether the chip is inside the grid.
    pub fn is_inside(&self, c: Chip) -> bool
        ensures { result ≡ is_inside self.now c }
    {
        c.x < self.grid.width && c.y < self.grid.height
    }

    /// The chip's index, x * height + y.
    pub fn index(&self, c: Chip) -> u32
        requires { IsInside self.now c }
        ensures value { result ≡ index_of self.now c }
        ensures below { result < self.now.width * self.now.height }
        ensures few { result < 4096 }
    {
        u32::from(c.x) * u32::from(self.grid.height) + u32::from(c.y)
    }

    /// The chip of an index.
    pub fn chip_at(&self, index: u32) -> Chip
        requires { index < self.now.width * self.now.height }
        ensures chip { result ≡ chip_of self.now index }
        ensures inside { IsInside self.now result }
        ensures back { index_of self.now result ≡ index }
    {
        let height = u32::from(self.grid.height);
        Chip {
            x: (index / height) as u8,
            y: (index % height) as u8,
        }
    }

    /// The chip to which a link leads: the neighbour, modulo width and height with wrap (SpiNNaker datasheet). `None`
    /// exactly where, without wrap, it lies outside the grid, or where it is `c` itself.
    pub fn far(&self, c: Chip, d: Dir) -> Option<Chip>
        requires { IsInside self.now c }
        ensures { result ≡ far_of self.now c d }
    {
        let x = Step::along_x(d).from(self.wrap, self.grid.width, c.x)?;
        let y = Step::along_y(d).from(self.wrap, self.grid.height, c.y)?;
        let far = Chip { x, y };
        if far == c { None } else { Some(far) }
    }

    /// Whether the chip is inside the grid and not listed dead.
    pub fn live(&self, c: Chip) -> bool
        ensures { result ≡ is_live_chip self.now c }
    {
        self.is_inside(c) && !self.chip_listed[self.grid.chip_place(c)]
    }

    // Whether the link is listed dead, as this end numbers it.
    fn is_listed(&self, c: Chip, d: Dir) -> bool
        requires { IsInside self.now c }
        ensures { result ≡ is_listed self.now c d }
    {
        self.link_listed[self.grid.edge_place(Edge { chip: c, dir: d })]
    }

    /// Whether the link leads to a chip, both ends are live, and neither end lists it dead.
    pub fn link_live(&self, c: Chip, d: Dir) -> bool
        ensures { result ≡ is_live_link self.now c d }
    {
        if !self.live(c) {
            return false;
        }
        match self.far(c, d) {
            None => false,
            Some(e) => self.live(e) && !self.is_listed(c, d) && !self.is_listed(e, d.opposite()),
        }
    }

    /// Whether the chip is live, and the core one of 1 to 17 that is not listed dead.
    pub fn usable(&self, s: Spot) -> bool
        ensures { result ≡ is_usable self.now s }
    {
        self.live(s.chip)
            && s.core >= 1
            && s.core <= 17
            && !self.core_listed[self.grid.spot_place(s)]
    }

    /// Each link leads there and back: for chips `c` and `e` inside the grid, link `d` of `c` leads to `e` exactly where
    /// the opposite link of `e` leads to `c`. It does nothing.
    pub fn links_lead_back(&self)
        ensures { (c e : Chip) (d : Dir) → IsInside self.now c → IsInside self.now e →
            (far_of self.now c d ≡ Some e) ↔ (far_of self.now e (opposite_of d) ≡ Some c) }
    {}
}

// The number of things that a table doesn't list.
fn clear_count(table: &[bool]) -> u32
    requires { length table.now ≤ 4096 }
    ensures { result ≡ count_by not table.now }
{
    table.iter().filter(|listed| !**listed).count() as u32
}

// The same list once more.
fn copied<T: Copy>(alloc: Global, list: &Seq<T>) -> Result<Seq<T>, Memory>
    ensures { IfOk result (λ copy. copy ≡ list.now) }
{
    Ok(Seq::from_vec(Vec::from_slice(alloc, list.as_slice())?))
}
