// Fixed blocks in the order of nets, looked up by their last keys.
ghost use Rattle.std.specs.Prelude.{◌≡◌, [], ◌++◌, false, IfOk, IfSome, option_to_list};
ghost use Rattle.std.specs.List.{list_any};
ghost use Rattle.job_readers.specs.Blocks.{shares_key, last_key_of, IsRange};

use spin_base::{Block, Memory};
use std::alloc::Global;
use std::collections::BTreeMap;
use std::marker::Model;

// The last key of a block that is a range.
fn last_key(block: Block) -> u32
    ensures { result ≡ last_key_of block }
{
    block.key + (u32::MAX - block.mask)
}

// The blocks that nets fix, in their order, of which no two share a key. Contracts see the list; a map tells by the last key of each
// block its first.
#[derive(Drop)]
pub(crate) struct FixedBlocks {
    listed: Vec<Block>,
    firsts: BTreeMap<u32, u32>,
}

impl Model for FixedBlocks {
    ghost use Rattle.std.specs.Prelude.{List};
    ghost use Rattle.spin_base.specs.declared.blocks.Block.{Block};
    ghost use Rattle.job_readers.specs.FixedRanges.{blocks_listed, KeepsRanges};

    ghost Value = { List Block };

    ghost view = { blocks_listed };

    ghost invariant = { KeepsRanges };
}

impl FixedBlocks {
    // No block.
    pub(crate) fn new(alloc: Global) -> FixedBlocks
        ensures { result ≡ [] }
    {
        FixedBlocks {
            listed: Vec::new(alloc),
            firsts: BTreeMap::new(alloc),
        }
    }

    // Whether the block shares a key with one of them: with the first of those that end in it or behind it, if with any.
    pub(crate) fn meets(&self, block: Block) -> bool
        requires { IsRange block }
        ensures { result ≡ list_any (shares_key block) self.now }
    {
        match self.firsts.range(block.key..).next() {
            Some((_, first)) => *first <= last_key(block),
            None => false,
        }
    }

    // The blocks, and one more at the end where there is one.
    pub(crate) fn and(self, block: Option<Block>) -> Result<FixedBlocks, Memory>
        requires range { IfSome block IsRange }
        requires fresh { IfSome block (λ b. list_any (shares_key b) self ≡ false) }
        ensures { IfOk result (λ blocks. blocks ≡ self ++ option_to_list block) }
    {
        let Some(block) = block else {
            return Ok(self);
        };
        let FixedBlocks {
            mut listed,
            mut firsts,
        } = self;
        listed.push(block)?;
        firsts.insert(last_key(block), block.key)?;
        Ok(FixedBlocks { listed, firsts })
    }
}
