// The blocks of all nets.
ghost use Rattle.std.specs.Prelude.{◌≡◌, ℕ, ◌≤◌, ◌++◌, ◌∷◌, [], List, None, AllPairs, IfOk, IfErr, IfSome, IfNone};
ghost use Rattle.std.specs.List.{AllZip, Contains};
ghost use Rattle.spin_base.specs.declared.blocks.Block.{Block};
ghost use Rattle.app_graph.specs.ValidGraph.{IsValidGraph};
ghost use Rattle.tern_word.specs.Ternary.{Intersects};
ghost use Rattle.key_alloc.specs.KeyBlocks.{IsSizeFor, IsOpenPlace, IsLeastBlock, IsBlockFor, AreRightBlocks, HasKeys};
ghost use Rattle.key_alloc.specs.FreeKeys.{AreKeysFreeBeside, AreFreeBesideSome};
ghost use Rattle.key_alloc.specs.Cause.{IsKeysCause};

use crate::fixed::keys_not_fixed;
use crate::free::{FreeKeys, Size};
use app_graph::{Graph, Net};
use spin_base::{Block, Memory, Seq};
use std::alloc::Global;
use tern_word::block_of;

/// Why nets have no keys.
#[derive(Clone, Copy, PartialEq, Eq)]
pub enum KeyErr {
    /// There is no free range of keys for this net, the first such of the list.
    KeysOut { net: u32 },
    /// There was not enough memory.
    Memory,
}

impl From<Memory> for KeyErr {
    ghost use Rattle.std.specs.Prelude.{◌≡◌};
    ghost use Rattle.key_alloc.specs.declared.alloc.KeyErr.TheVariants.{Memory as NoMemory};

    ghost from_gives = { λ _ e. e ≡ NoMemory };

    fn from(_: Memory) -> Self {
        KeyErr::Memory
    }
}

/// The blocks of the nets, in their order. First the fixed blocks of all nets are taken. Then each net without one, in
/// order, gets a block of as many keys as the least power of two that is not below the keys that it needs; it begins at the
/// least multiple of that number from which the range meets no fixed block and no block of an earlier net. `KeysOut` comes
/// exactly where some net without a fixed block has no such range below 2^32, and names the first.
pub fn keys(alloc: Global, graph: &Graph) -> Result<Seq<Block>, KeyErr>
    requires { IsValidGraph graph.now }
    ensures blocks { IfOk result (AreRightBlocks graph.now.nets) }
    ensures keys_out { IfErr result (IsKeysCause graph.now.nets) }
    ensures apart { IfOk result (AllPairs (λ a b. ¬ Intersects a b)) }
    ensures enough { IfOk result (AllZip HasKeys graph.now.nets) }
{
    let mut free = keys_not_fixed(alloc, graph)?;
    let mut blocks = Seq::new(alloc);
    for (i, net) in graph.nets.as_slice().iter().enumerate() {
        let Some(block) = block_for(&mut free, KeyedNet { net })? else {
            return Err(KeyErr::KeysOut { net: i as u32 });
        };
        blocks.push(block)?;
    }
    Ok(blocks)
}

// A net that needs keys, no more than there are.
#[derive(Clone, Copy)]
struct KeyedNet<'a> {
    net: &'a Net,
    ghost some: { 1 ≤ net.now.keys },
    ghost few: { net.now.keys ≤ 4294967296 },
}

// The block that is fixed for a net, which is taken already, or else the least block for its keys, which it takes.
fn block_for(free: &mut FreeKeys, keyed: KeyedNet) -> Result<Option<Block>, Memory>
    requires { AreFreeBesideSome free.old }
    ensures right { IfOk result (λ o. IfSome o (λ b. (taken : List Block)
        → AreKeysFreeBeside taken free.old → IsBlockFor taken keyed.entry.net.now b)) }
    ensures free { IfOk result (λ o. IfSome o (λ b. (taken : List Block)
        → AreKeysFreeBeside taken free.old → IfSome keyed.entry.net.now.fixed (Contains taken)
        → AreKeysFreeBeside
        (taken ++ b ∷ []) free.new)) }
    ensures not_fixed { IfOk result (λ o. IfNone o (keyed.entry.net.now.fixed ≡ None)) }
    ensures none { IfOk result (λ o. IfNone o ((taken : List Block)
        → AreKeysFreeBeside taken free.old → (size place : ℕ)
        → IsSizeFor keyed.entry.net.now.keys size → IsOpenPlace taken size place → ⊥)) }
{
    match keyed.net.fixed {
        Some(block) => Ok(Some(block)),
        None => {
            let keys = keyed.net.keys;
            least_block(free, Size { keys })
        }
    }
}

// Takes the least block for so many keys.
fn least_block(free: &mut FreeKeys, needed: Size) -> Result<Option<Block>, Memory>
    requires { AreFreeBesideSome free.old }
    ensures least { IfOk result (λ o. IfSome o (λ b. (taken : List Block)
        → AreKeysFreeBeside taken free.old → IsLeastBlock taken needed.keys b)) }
    ensures free { IfOk result (λ o. IfSome o (λ b. (taken : List Block)
        → AreKeysFreeBeside taken free.old → AreKeysFreeBeside (taken ++ b ∷ []) free.new)) }
    ensures none { IfOk result (λ o. IfNone o ((taken : List Block)
        → AreKeysFreeBeside taken free.old
        → (size place : ℕ) → IsSizeFor needed.keys size → IsOpenPlace taken size place → ⊥)) }
{
    let size = needed.keys.next_power_of_two();
    let wanted = Size { keys: size };
    let Some(place) = free.take(wanted)? else {
        return Ok(None);
    };
    Ok(Some(block_of(place as u32, size)))
}
