// Detours: the shortest way over live links from a tree to a chip that it doesn't have.
ghost use Rattle.std.specs.Prelude.{◌≡◌, ℕ, ◌+◌, ◌*◌, ◌<◌, ◌≤◌, ◌↔◌, List, ◌++◌, length, IfOk, IfSome, IfNone, IsTrue, true, false};
ghost use Rattle.machine_desc.specs.Live.{IsInside, LeadsTo};
ghost use Rattle.machine_desc.specs.RoutingTree.{IsTreeChip};
ghost use Rattle.link_detours.specs.Steps.{Steps, IsReachedBy, IsStepLevel};
ghost use Rattle.link_detours.specs.Usable.{is_marked};
ghost use Rattle.link_detours.specs.Repair.{EdgeStep, IsTreeLevel, IsDetour, IsCutOff};
ghost use Rattle.link_detours.specs.Waves.{IsIn, IsSetOfTree, AreWaves, IsStepFrom, IsBestStep};
ghost use Rattle.spin_base.specs.declared.chips.Chip.{Chip};
ghost use Rattle.machine_desc.specs.declared.trees.Edge.{Edge};

use crate::grounds::{Aim, Edges, Flagged, Front, FrontAt, Ring, RootedEdges, Search};
use crate::searches::reached_chips;
use crate::sets::{has, near_columns, put, spread};
use crate::tables::link_table;
use machine_desc::Edge;
use spin_base::{Chip, Dir, Memory};
use std::alloc::Global;

/// A table that marks the chips that the edges join to their root.
///
/// # Errors
///
/// `Memory` where memory runs out.
pub fn tree_reach(alloc: Global, tree: RootedEdges) -> Result<Vec<bool>, Memory>
    ensures long { IfOk result (λ t. length t.items ≡ tree.entry.machine.now.width *
        tree.entry.machine.now.height) }
    ensures reach { IfOk result (λ t. (c : Chip) → IsInside tree.entry.machine.now c →
        (is_marked tree.entry.machine.now t.items c ≡ true)
        ↔ ((n : ℕ) × Steps (EdgeStep tree.entry.machine.now tree.entry.list.now) n
        tree.entry.root c)) }
{
    let machine = tree.machine;
    let links = Edges {
        machine,
        list: tree.list,
    };
    let table = link_table(alloc, links)?;
    let flagged = Flagged {
        machine,
        flags: &table,
    };
    let seeds = [tree.root];
    let search = Search {
        table: flagged,
        seeds: &seeds,
    };
    let reach = reached_chips(alloc, search)?;
    Ok(reach)
}

// The waves from the chips of a tree, one behind the other, up to the last without the target: there are as many as live
// links lead to it. `None` exactly where no walk of live links leads to it.
fn waves(alloc: Global, target: FrontAt) -> Result<Option<Vec<u64>>, Memory>
    ensures waves { IfOk result (λ o. IfSome o (λ v. (n : ℕ)
        × AreWaves target.entry.front.ground.machine.now (IsIn target.entry.front.set.now) n v.items
        × IsStepLevel (LeadsTo target.entry.front.ground.machine.now)
        (IsIn target.entry.front.set.now) target.entry.chip n)) }
    ensures cut_off { IfOk result (λ o. IfNone o ((n : ℕ)
        → IsReachedBy (LeadsTo target.entry.front.ground.machine.now)
        (IsIn target.entry.front.set.now) n target.entry.chip
        → ⊥)) }
{
    let tree = target.front;
    let ground = tree.ground;
    let columns = Ring {
        size: ground.machine.width(),
    };
    let mut near = u64::MAX;
    // (each wave has a chip more than the one before it)
    let mut waves = Vec::with_capacity(alloc, tree.set.len() * ground.machine.chips())?;
    let mut words = Vec::from_slice(alloc, tree.set)?;
    let last: &mut [u64] = &mut words;
    'spreading: while !has(last, target.chip) {
        let from = waves.len();
        waves.extend_from_slice(last)?;
        let front = Front {
            ground,
            set: &waves[from..],
        };
        let grown = spread(front, near, last);
        if grown == 0 {
            return Ok(None);
        }
        near = near_columns(columns, grown);
    }
    Ok(Some(waves))
}

// The chip of the set from which the link `d` leads, live, to the chip.
fn step_before(here: FrontAt, d: Dir) -> Option<Chip>
    ensures found { IfSome result (λ b. IsStepFrom here.entry.front.ground.machine.now
        here.entry.front.set.now here.entry.chip (record { chip = b; dir = d })) }
    ensures none { IfNone result ((b : Chip) → IsStepFrom here.entry.front.ground.machine.now
        here.entry.front.set.now here.entry.chip (record { chip = b; dir = d }) → ⊥) }
{
    let (front, at) = (here.front, here.chip);
    let back = d.opposite();
    let link = Edge {
        chip: at,
        dir: back,
    };
    if !front.ground.has_inside(link) {
        return None;
    }
    let chip = front.ground.machine.far(at, back)?;
    if has(front.set, chip) {
        Some(chip)
    } else {
        None
    }
}

// Of the live links that lead from a chip of the set to the chip, that of the least number.
fn last_link(here: FrontAt) -> Option<Edge>
    ensures found { IfSome result (λ e. IsBestStep here.entry.front.ground.machine.now
        here.entry.front.set.now here.entry.chip e) }
    ensures none { IfNone result ((e : Edge) → IsStepFrom here.entry.front.ground.machine.now
        here.entry.front.set.now here.entry.chip e → ⊥) }
{
    for dir in Dir::ALL {
        if let Some(chip) = step_before(here, dir) {
            return Some(Edge { chip, dir });
        }
    }
    None
}

// Adds the links of the way back from a target over the waves, the last first, and the chips into which they lead.
fn walk_back(aim: Aim, waves: &[u64], tree: &mut [u64], whole: &mut Vec<Edge>) -> Result<(), Memory>
    requires waves { (n : ℕ) × AreWaves aim.ground.machine.now
        (IsTreeChip aim.ground.machine.now aim.root whole.old.items) n waves.now
        × IsTreeLevel aim.ground.machine.now aim.root whole.old.items aim.target n }
    requires set { IsSetOfTree aim.ground.machine.now aim.root whole.old.items tree.old }
    ensures joined { IfOk result (λ _. (walk : List Edge)
        × (whole.new.items ≡ whole.old.items ++ walk)
        × IsDetour aim.entry.ground.machine.now aim.entry.root whole.old.items aim.entry.target
        walk) }
    ensures chips { IfOk result (λ _. (c : Chip) → IsIn tree.new c
        ↔ IsTreeChip aim.entry.ground.machine.now aim.entry.root whole.new.items c) }
{
    let ground = aim.ground;
    let mut left = waves;
    let mut at = aim.target;
    'back: while !left.is_empty() {
        let (before, wave) = left.split_at(left.len() - tree.len());
        let front = Front { ground, set: wave };
        let here = FrontAt { front, chip: at };
        let Some(edge) = last_link(here) else {
            unreachable!();
        };
        put(tree, at);
        whole.push(edge)?;
        at = edge.chip;
        left = before;
    }
    Ok(())
}

// Adds the detour to a target that the tree doesn't have, and to the set of the tree's chips those of the detour. `false`
// exactly where no walk of live links joins root and target.
pub(crate) fn join(
    alloc: Global,
    aim: Aim,
    tree: &mut [u64],
    whole: &mut Vec<Edge>,
) -> Result<bool, Memory>
    requires { IsSetOfTree aim.ground.machine.now aim.root whole.old.items tree.old }
    ensures joined { IfOk result (λ b. IsTrue b
        → (walk : List Edge) × (whole.new.items ≡ whole.old.items ++ walk)
        × IsDetour aim.entry.ground.machine.now aim.entry.root whole.old.items aim.entry.target
        walk) }
    ensures chips { IfOk result (λ b. IsTrue b → (c : Chip) → IsIn tree.new c
        ↔ IsTreeChip aim.entry.ground.machine.now aim.entry.root whole.new.items c) }
    ensures cut_off { IfOk result (λ b. (b ≡ false)
        → IsCutOff aim.entry.ground.machine.now aim.entry.root aim.entry.target) }
{
    if has(tree, aim.target) {
        return Ok(true);
    }
    let front = Front {
        ground: aim.ground,
        set: tree,
    };
    let target = FrontAt {
        front,
        chip: aim.target,
    };
    let found = waves(alloc, target)?;
    match found {
        None => Ok(false),
        Some(list) => {
            walk_back(aim, &list, tree, whole)?;
            Ok(true)
        }
    }
}
