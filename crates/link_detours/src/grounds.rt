// What searches go over, with what is known of it.
ghost use Rattle.std.specs.Prelude.{◌≡◌, ◌*◌, ◌<◌, ◌≤◌, ◌↔◌, All, IsTrue, length};
ghost use Rattle.machine_desc.specs.Live.{IsInside, IsLiveLink, is_live_link};
ghost use Rattle.link_detours.specs.LiveRoads.{AreRoadsOf};
ghost use Rattle.link_detours.specs.Repair.{IsTreeWithDeadLinks};

use crate::roads::{Roads, bit_is_set};
use machine_desc::{Edge, Machine};
use spin_base::Chip;

/// A machine and its live links.
#[derive(Clone, Copy)]
pub struct Ground<'a> {
    pub machine: &'a Machine,
    pub roads: &'a Roads,
    pub ghost roads_are: { AreRoadsOf machine.now roads.now },
}

impl<'a> Ground<'a> {
    /// Whether all edges are live links.
    pub fn carry(self, edges: &[Edge]) -> bool
        ensures { IsTrue result ↔ All (λ e. IsLiveLink self.entry.machine.now e.chip e.dir) edges.now }
    {
        edges.iter().all(|edge| self.has(*edge))
    }

    // Whether the edge is a live link.
    pub(crate) fn has(self, edge: Edge) -> bool
        ensures { result ≡ is_live_link self.entry.machine.now edge.chip edge.dir }
    {
        self.machine.is_inside(edge.chip) && self.has_inside(edge)
    }

    // Whether an edge that begins inside the grid is a live link.
    pub(crate) fn has_inside(self, edge: Edge) -> bool
        requires { IsInside self.machine.now edge.chip }
        ensures { result ≡ is_live_link self.entry.machine.now edge.chip edge.dir }
    {
        bit_is_set(
            self.roads.word(usize::from(edge.chip.x), edge.dir),
            edge.chip.y,
        )
    }
}

/// A tree of which links may be dead, on its ground, and the targets to which it is to lead.
#[derive(Clone, Copy)]
pub struct BrokenTree<'a> {
    pub ground: Ground<'a>,
    pub root: Chip,
    pub edges: &'a [Edge],
    pub targets: &'a [Chip],
    pub ghost is_tree: { IsTreeWithDeadLinks ground.machine.now root edges.now },
    pub ghost some_target: { 0 < length targets.now },
    pub ghost targets_inside: { All (IsInside ground.machine.now) targets.now },
}

/// Edges that begin inside a machine's grid, and a root there.
#[derive(Clone, Copy)]
pub struct RootedEdges<'a> {
    pub machine: &'a Machine,
    pub root: Chip,
    pub list: &'a [Edge],
    pub ghost root_inside: { IsInside machine.now root },
    pub ghost inside: { All (λ e. IsInside machine.now e.chip) list.now },
}

// The edges of a tree on a ground, and its root.
#[derive(Clone, Copy)]
pub struct GroundedTree<'a> {
    pub ground: Ground<'a>,
    pub root: Chip,
    pub list: &'a [Edge],
    pub ghost root_inside: { IsInside ground.machine.now root },
    pub ghost inside: { All (λ e. IsInside ground.machine.now e.chip) list.now },
}

// A target on a ground, which is to be joined to the tree of a root.
#[derive(Clone, Copy)]
pub struct Aim<'a> {
    pub ground: Ground<'a>,
    pub root: Chip,
    pub target: Chip,
    pub ghost inside: { IsInside ground.machine.now target },
}

// A set of chips on a ground: it has a word for each column.
#[derive(Clone, Copy)]
pub struct Front<'a> {
    pub ground: Ground<'a>,
    pub set: &'a [u64],
    pub ghost long: { length set.now ≡ ground.machine.now.width },
}

// A front, and a chip of its ground.
#[derive(Clone, Copy)]
pub struct FrontAt<'a> {
    pub front: Front<'a>,
    pub chip: Chip,
    pub ghost inside: { IsInside front.ground.machine.now chip },
}

// A column of a front.
#[derive(Clone, Copy)]
pub struct Column<'a> {
    pub front: Front<'a>,
    pub x: u32,
    pub ghost within: { x < front.ground.machine.now.width },
    pub ghost few: { x < 64 },
}

// Edges that begin inside a machine's grid.
#[derive(Clone, Copy)]
pub struct Edges<'a> {
    pub machine: &'a Machine,
    pub list: &'a [Edge],
    pub ghost inside: { All (λ e. IsInside machine.now e.chip) list.now },
}

// Edges, and the targets of their tree.
#[derive(Clone, Copy)]
pub struct TargetedEdges<'a> {
    pub edges: Edges<'a>,
    pub targets: &'a [Chip],
    pub ghost inside: { All (IsInside edges.machine.now) targets.now },
}

/// Chips of a machine's grid.
#[derive(Clone, Copy)]
pub struct Chips<'a> {
    pub machine: &'a Machine,
    pub list: &'a [Chip],
    pub ghost inside: { All (IsInside machine.now) list.now },
}

// Edges, and a mark for each chip of their machine.
#[derive(Clone, Copy)]
pub struct MarkedEdges<'a> {
    pub edges: Edges<'a>,
    pub marks: &'a [bool],
    pub ghost long: { length marks.now ≡ edges.machine.now.width * edges.machine.now.height },
}

// A flag for each link of a machine.
#[derive(Clone, Copy)]
pub struct Flagged<'a> {
    pub machine: &'a Machine,
    pub flags: &'a [bool],
    pub ghost long: { length flags.now ≡ machine.now.width * machine.now.height * 6 },
}

// A chip of a machine whose links have flags, and a mark for each chip.
#[derive(Clone, Copy)]
pub struct FlaggedChip<'a> {
    pub table: Flagged<'a>,
    pub chip: Chip,
    pub marks: &'a [bool],
    pub ghost inside: { IsInside table.machine.now chip },
    pub ghost long: { length marks.now ≡ table.machine.now.width * table.machine.now.height },
}

// A search over flagged links, from these chips on.
#[derive(Clone, Copy)]
pub struct Search<'a> {
    pub table: Flagged<'a>,
    pub seeds: &'a [Chip],
    pub ghost inside: { All (IsInside table.machine.now) seeds.now },
}

// The number of places of a ring of rows or columns.
#[derive(Clone, Copy)]
pub struct Ring {
    pub size: u8,
    pub ghost some: { 0 < size },
    pub ghost few: { size ≤ 64 },
}
