// Where a vertex's packets come, by the blocks of their nets.
ghost use Rattle.std.specs.Prelude.{◌≡◌, ℕ, List, true, IfSome, OnOk};
ghost use Rattle.machine_desc.specs.RightTables.{IsKeyOf};
ghost use Rattle.mesh_core.specs.State.{Setup};
ghost use Rattle.app_loads.specs.declared.loaded.LoadedApp.{LoadedApp as AnApp};
ghost use Rattle.app_loads.specs.Groups.{last_arrivals};
ghost use Rattle.app_loads.specs.Running.{AreKnown, Comes, IsBlockWith, IsKnownOf};

use crate::arrivals::Arrivals;
use crate::groups::Groups;
use crate::loaded::LoadedApp;
use spin_base::{Block, McCopy, Memory};
use std::collections::BTreeMap;

// A block of keys, and where a vertex's packets with its keys come.
#[derive(Drop)]
pub struct KnownBlock {
    pub block: Block,
    pub arrivals: Arrivals,
}

// The blocks of packets that a vertex sent in this drain, by their first keys.
pub type Known = BTreeMap<u32, KnownBlock>;

// What is known of the block that has the key. Blocks share no key, and each has its keys one after the other: so it is the nearest.
pub(crate) fn known_of(known: &Known, key: u32) -> Option<&KnownBlock>
    ensures { IfSome result (λ it. IsKnownOf known.now key it.now) }
{
    let (_, nearest) = known.range(..=key).next_back()?;
    if has_key(nearest.block, key) {
        Some(nearest)
    } else {
        None
    }
}

// The block of the packet's net.
pub(crate) fn block_of(apps: &[LoadedApp], copy: McCopy) -> Option<Block>
    ensures { IfSome result (IsBlockWith apps.now copy.key) }
{
    let later = apps.partition_point(|app| app.first <= copy.packet);
    let app = apps[..later].last()?;
    let number = copy.packet.checked_sub(app.first)?;
    let packet = app.plan.packets.as_slice().get(number as usize)?;
    let block = app.blocks.as_slice().get(packet.net as usize)?;
    if has_key(*block, copy.key) {
        Some(*block)
    } else {
        None
    }
}

// The last group holds the list of the nearest block that is known, where both are the same: nets of one source may have the same
// targets.
pub(crate) fn share_near(earlier: &mut Groups, known: &Known, key: u32)
    ensures { earlier.new ≡ earlier.old }
{
    if let Some((_, it)) = known.range(..key).next_back() {
        if earlier.share(&it.arrivals) {
            return;
        }
    }
    if let Some((_, it)) = known.range(key..).next() {
        earlier.share(&it.arrivals);
    }
}

// It is known of a block that packets with its keys come where those of the last group came.
#[tactic(auto, using(crate::proofs::Kept::one_known, crate::proofs::Kept::comes_there))]
pub(crate) fn remember(earlier: &Groups, known: &mut Known, block: Block) -> Result<(), Memory>
    ensures { OnOk result ((u : Setup) (v : ℕ) (apps : List AnApp) → AreKnown u v apps known.old →
        Comes u v (last_arrivals earlier.now) block → AreKnown u v apps known.new) }
{
    if let Some(arrivals) = earlier.last_arrivals() {
        let arrivals = arrivals.share()?;
        known.insert(block.key, KnownBlock { block, arrivals })?;
    }
    Ok(())
}

// Whether the block has the key.
pub(crate) fn has_key(block: Block, key: u32) -> bool
    ensures { result ≡ true → IsKeyOf block key }
{
    key & block.mask == block.key
}
