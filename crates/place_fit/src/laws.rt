//! What follows from the definition alone. The function does nothing.
ghost use Rattle.std.specs.Prelude.{◌≡◌, ℕ, List};
ghost use Rattle.spin_base.specs.declared.chips.Spot.{Spot};
ghost use Rattle.machine_desc.specs.Description.{Description};
ghost use Rattle.app_graph.specs.declared.graphs.Vertex.{Vertex};
ghost use Rattle.place_fit.specs.Placement.{IsPlacement, HasNoRoom};

/// Vertices have at most one placement. They have one, or there is no room for one vertex, and never both.
pub fn placements_are_determined()
    ensures one_placement { (m : Description) (vertices : List Vertex) (ss ts : List Spot)
        (ms ns : List ℕ) → IsPlacement m vertices ss ms → IsPlacement m vertices ts ns
        → (ss ≡ ts) × (ms ≡ ns) }
    ensures not_both { (m : Description) (vertices : List Vertex) (ss : List Spot) (ms : List ℕ)
        (i : ℕ) → IsPlacement m vertices ss ms → HasNoRoom m vertices i → ⊥ }
    ensures one_vertex { (m : Description) (vertices : List Vertex) (i j : ℕ)
        → HasNoRoom m vertices i → HasNoRoom m vertices j → i ≡ j }
{}
