// Valid graphs.
ghost use Rattle.app_graph.specs.ValidGraph.{IsValidGraph};

use app_graph::Graph;

// A valid graph.
#[derive(Clone, Copy)]
pub(crate) struct ValidGraph<'a> {
    pub(crate) graph: &'a Graph,
    pub(crate) ghost valid: { ∥ IsValidGraph graph.now ∥₁ },
}
