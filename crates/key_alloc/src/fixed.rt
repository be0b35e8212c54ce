// The keys that no net has by a fixed block.
ghost use Rattle.std.specs.Prelude.{◌≡◌, ◌≤◌, ◌++◌, ◌∷◌, [], AllPairs, IfOk, OnOk};
ghost use Rattle.std.specs.List.Sorted.{IsPermutation};
ghost use Rattle.spin_base.specs.declared.blocks.Block.{Block};
ghost use Rattle.app_graph.specs.ValidGraph.{IsValidGraph};
ghost use Rattle.key_alloc.specs.KeyBlocks.{fixed_of};
ghost use Rattle.key_alloc.specs.FreeKeys.{AreKeysFreeBeside};

use crate::free::{FreeKeys, SortedBlocks};
use app_graph::{Graph, Net};
use spin_base::{Block, Memory};
use std::alloc::Global;

// All keys but those of the nets' fixed blocks.
pub(crate) fn keys_not_fixed(alloc: Global, graph: &Graph) -> Result<FreeKeys, Memory>
    requires { IsValidGraph graph.now }
    ensures free { IfOk result (AreKeysFreeBeside (fixed_of graph.now.nets)) }
{
    let mut blocks = fixed_blocks(alloc, graph.nets.as_slice())?;
    sort_downwards(&mut blocks)?;
    let fixed = SortedBlocks { blocks };
    FreeKeys::beside(alloc, fixed)
}

// The fixed blocks of the nets.
fn fixed_blocks(alloc: Global, nets: &[Net]) -> Result<Vec<Block>, Memory>
    ensures blocks { IfOk result (λ fixed. fixed.items ≡ fixed_of nets.now) }
{
    Ok(nets.iter().filter_map(|net| net.fixed).collect(alloc)?)
}

// Sorts blocks by their keys, the least at the back.
fn sort_downwards(blocks: &mut Vec<Block>) -> Result<(), Memory>
    ensures same { OnOk result (IsPermutation blocks.old.items blocks.new.items) }
    ensures downwards { OnOk result (AllPairs (λ (a b : Block). b.key ≤ a.key) blocks.new.items) }
{
    blocks.sort_by_key(|block| u32::MAX - block.key)?;
    Ok(())
}
