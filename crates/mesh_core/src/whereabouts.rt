// Where a target's copy of a packet is.
ghost use Rattle.std.specs.Prelude.{◌≡◌, ◌==◌, ◌&&◌, All, Contains, Some, None, position, slice_get};
ghost use Rattle.std.specs.List.{list_any};
ghost use Rattle.machine_desc.specs.Live.{IsInside};
ghost use Rattle.mesh_core.specs.Searches.{IsEdgeInto, port_behind};

use crate::meshes::Mesh;
use crate::places::{Place, Where};
use machine_desc::{Edge, Machine, NetPlan, out_of};
use spin_base::{Chip, McCopy, Out, Port, Spot};

impl Mesh {
    ghost use Rattle.spin_base.specs.Equality.{chip_eq, out_eq};
    ghost use Rattle.machine_desc.specs.Live.{index_of};
    ghost use Rattle.mesh_core.specs.Whereabouts.{IsTracked, IsWhere};
    ghost use Rattle.mesh_core.specs.Searches.{IsFound, IsOfCore, IsOfOutput, IsOfPort, is_held};

    /// Where the target's copy of the packet is, by its number in the job: it looks at the target's core, and then up the
    /// tree of the net, from the target to the source. It takes no memory, and time as the deliveries, and for each chip
    /// of the target's branch as the tree's edges, the dump records and the copies of a queue.
    pub fn where_is(&self, net: &NetPlan, packet: u32, target: Spot) -> Where
        requires tracked { IsTracked self.now net.now packet }
        requires is_target { Contains net.now.targets target }
        ensures { IsWhere self.now net.now packet target result }
    {
        let machine = self.setup.machine();
        if let Some(found) = self.at_core(packet, target) {
            return found;
        }
        let mut chip = target.chip;
        let mut out = out_of(target.core);
        for _ in 0..machine.chips() {
            if let Some(found) = self.at_output(packet, chip, out) {
                return found;
            }
            let before = edge_into(machine, net.tree.edges.as_slice(), chip);
            if let Some(found) = self.at_port(packet, chip, port_behind(before)) {
                return found;
            }
            let Some(edge) = before else {
                return Where::Unsent;
            };
            chip = edge.chip;
            out = Out::Link(edge.dir);
        }
        unreachable!()
    }

    // Where a copy of the packet is at the vertex on a core: delivered, or in the core's queue.
    fn at_core(&self, packet: u32, spot: Spot) -> Option<Where>
        ensures { IsFound self.now packet (IsOfCore self.now spot) result }
    {
        let vertex = self.setup.vertex_at(spot)?;
        if let Some(place) = self.delivery_to(packet, vertex) {
            return Some(Where::Delivered(place));
        }
        if has_packet(self.cores[vertex].as_slice(), packet) {
            return Some(Where::At(Place::CoreQueue(spot.chip, spot.core)));
        }
        None
    }

    // Where a copy of the packet is at an output of a chip: in the hand, or dumped.
    #[tactic(auto, using(crate::proofs::Searching::dump_has, crate::proofs::Searching::hand_has))]
    fn at_output(&self, packet: u32, chip: Chip, out: Out) -> Option<Where>
        requires { IsInside self.now.setup.machine chip }
        ensures { IsFound self.now packet (IsOfOutput chip out) result }
    {
        if self.holds(packet, chip, out) {
            return Some(Where::At(Place::Hand(chip, out)));
        }
        let place = self.dump_at(packet, chip, out)?;
        Some(Where::Dumped(place))
    }

    // Where a copy of the packet is at a port of a chip: in the input queue.
    fn at_port(&self, packet: u32, chip: Chip, port: Port) -> Option<Where>
        requires { IsInside self.now.setup.machine chip }
        ensures { IsFound self.now packet (IsOfPort chip port) result }
    {
        if has_packet(self.queue(chip, port), packet) {
            Some(Where::At(Place::InQueue(chip, port)))
        } else {
            None
        }
    }

    // The place of the first delivery of the packet to the vertex.
    fn delivery_to(&self, packet: u32, vertex: usize) -> Option<usize>
        ensures { result
            ≡ position (λ d. (d.vertex == vertex) && (d.copy.packet == packet)) self.now.delivered }
    {
        self.delivered
            .as_slice()
            .iter()
            .position(|d| d.vertex as usize == vertex && d.copy.packet == packet)
    }

    // The place of the first dump record of the packet at the output of the chip.
    fn dump_at(&self, packet: u32, chip: Chip, out: Out) -> Option<usize>
        ensures { result
            ≡ position (λ r. (chip_eq r.chip chip && out_eq r.out out)
            && (r.copy.packet == packet)) self.now.dumped }
    {
        self.dumped.as_slice().iter().position(|r| {
            r.chip.x == chip.x
                && r.chip.y == chip.y
                && r.out.number() == out.number()
                && r.copy.packet == packet
        })
    }

    // Whether the chip's hand has a copy of the packet for the output.
    fn holds(&self, packet: u32, chip: Chip, out: Out) -> bool
        requires { IsInside self.now.setup.machine chip }
        ensures { result
            ≡ is_held packet out (slice_get self.now.hands (index_of self.now.setup.machine chip)) }
    {
        match self.hand(chip) {
            Some(hand) => hand.copy.packet == packet && hand.serves(out),
            None => false,
        }
    }
}

// Whether a copy of the packet is among these.
fn has_packet(copies: &[McCopy], packet: u32) -> bool
    ensures { result ≡ list_any (λ k. k.packet == packet) copies.now }
{
    copies.iter().any(|copy| copy.packet == packet)
}

// The edge of a tree that leads into a chip.
fn edge_into(machine: &Machine, edges: &[Edge], chip: Chip) -> Option<Edge>
    requires { All (λ e. IsInside machine.now e.chip) edges.now }
    ensures { IsEdgeInto machine.now edges.now chip result }
{
    for edge in edges {
        if machine.far(edge.chip, edge.dir) == Some(chip) {
            return Some(*edge);
        }
    }
    None
}

// The port at which a tree's packets come in where this edge leads, and at the root.
fn port_behind(before: Option<Edge>) -> Port
    ensures { result ≡ port_behind before }
{
    match before {
        Some(edge) => Port::Link(edge.dir.opposite()),
        None => Port::Local,
    }
}
