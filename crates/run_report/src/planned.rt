// What a report is of.
ghost use Rattle.std.specs.Prelude.{◌≡◌, ◌≤◌, length};

use app_graph::Graph;
use machine_desc::NetPlan;
use mesh_core::Mesh;
use spin_base::{Seq, Spot};

/// A graph with its plan: the spot of each vertex, and what each net got.
#[derive(Clone, Copy)]
pub struct PlannedGraph<'a> {
    pub graph: &'a Graph,
    pub spots: &'a Seq<Spot>,
    pub nets: &'a Seq<NetPlan>,
    pub ghost each_spot: { length spots.now ≡ length graph.now.vertices },
    pub ghost each_net: { length nets.now ≡ length graph.now.nets },
}

// A mesh whose vertices have numbers of 32 bits.
#[derive(Clone, Copy)]
pub(crate) struct NumberedMesh<'a> {
    pub(crate) mesh: &'a Mesh,
    pub(crate) ghost few: { length mesh.now.setup.spots ≤ 4294967295 },
}
