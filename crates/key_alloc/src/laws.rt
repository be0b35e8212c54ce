//! What follows from the definition alone. The function does nothing.
ghost use Rattle.std.specs.Prelude.{◌≡◌, ℕ, List};
ghost use Rattle.spin_base.specs.declared.blocks.Block.{Block};
ghost use Rattle.app_graph.specs.declared.graphs.Net.{Net};
ghost use Rattle.key_alloc.specs.KeyBlocks.{AreRightBlocks, AreKeysOut};

/// Nets have at most one right list of blocks. They have one, or keys are out at one net, and never both.
pub fn right_blocks_are_determined()
    ensures one_list { (nets : List Net) (xs ys : List Block) → AreRightBlocks nets xs
        → AreRightBlocks nets ys → xs ≡ ys }
    ensures not_both { (nets : List Net) (xs : List Block) (i : ℕ) → AreRightBlocks nets xs
        → AreKeysOut nets i → ⊥ }
    ensures one_net { (nets : List Net) (i j : ℕ) → AreKeysOut nets i → AreKeysOut nets j → i ≡ j }
{}
