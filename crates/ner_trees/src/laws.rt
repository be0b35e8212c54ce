//! What follows from the definitions alone. The function does nothing.
ghost use Rattle.std.specs.Prelude.{◌≡◌, List, All};
ghost use Rattle.spin_base.specs.declared.chips.Chip.{Chip};
ghost use Rattle.machine_desc.specs.declared.trees.Edge.{Edge};
ghost use Rattle.machine_desc.specs.Description.{Description};
ghost use Rattle.machine_desc.specs.Live.{IsInside};
ghost use Rattle.ner_trees.specs.declared.growths.Join.{Join};
ghost use Rattle.ner_trees.specs.Growth.{IsNear, IsAdded, IsGrown};

/// A tree on the grid has one chip to which a target is joined, and one branch to it. So there is one tree that grows from
/// a root to a list of targets, and they are joined to it in one way.
pub fn grown_trees_are_determined()
    ensures one_near { (m : Description) (root : Chip) (tree : List Edge) (t a b : Chip)
        → IsInside m root → All (λ e. IsInside m e.chip) tree
        → IsNear m root tree t a → IsNear m root tree t b → a ≡ b }
    ensures one_branch { (m : Description) (root : Chip) (tree : List Edge) (j k : Join)
        (added also : List Edge) → j.target ≡ k.target → j.near ≡ k.near
        → IsAdded m root tree j added → IsAdded m root tree k also
        → (j.start ≡ k.start) × (added ≡ also) }
    ensures one_tree { (m : Description) (root : Chip) (targets : List Chip) (js ks : List Join)
        (es fs : List Edge) → IsInside m root
        → IsGrown m root targets js es → IsGrown m root targets ks fs → (js ≡ ks) × (es ≡ fs) }
{}
