// Rounds of a mesh on threads: one, and as many as it takes.
ghost use Rattle.std.specs.Prelude.{◌≡◌, IfErr, IfOk, true};
ghost use Rattle.std.specs.List.{list_all};
ghost use Rattle.mesh_core.specs.State.{IsMesh};
ghost use Rattle.mesh_core.specs.Expected.{IsAtRest};
ghost use Rattle.mesh_round.specs.RoundFlow.{HasNoHand, HasRounds};
ghost use Rattle.mesh_round.specs.OnThreads.{LeadsByRound, MayGoOn, has_none, holds_none};
ghost use Rattle.mesh_round.specs.Bound.{HasMovingRounds, LeadsSoon};

use crate::flow_laws::rounds_that_move_copies_are_few;
use crate::laid::LaidMesh;
use mesh_core::{Mesh, MeshParts};
use mesh_run::{Layout, Pace, RaisedMesh, Round};
use spin_base::{Fifo, Gate, McCopy, Memory};
use std::alloc::Global;
use std::sync::Wait;
use std::thread::Threads;

/// One round: the router and the bank of cores of each live chip take at most `pace.turns` turns, in `pace.workers` workers, of which
/// each enters the gate in phase `number`. A router offers a copy `pace.patience` times before it dumps it. A round moves a copy where
/// one waits or is unsent. All memory is taken before the first turn.
///
/// # Errors
///
/// `Memory` where memory runs out, with the mesh as it was.
pub fn round<R: Threads + Wait + Sync, G: Gate>(
    rt: &R,
    alloc: Global,
    mesh: Mesh,
    pace: Pace,
    number: u32,
    gate: &G,
) -> Result<Mesh, (Mesh, Memory)>
    requires { HasNoHand mesh }
    ensures round { IfOk result (LeadsByRound pace.patience pace.turns mesh) }
    ensures no_hand { IfOk result HasNoHand }
    ensures back { IfErr result (λ b. b.0 ≡ mesh) }
{
    let parts = mesh.take_apart();
    let layout = match Layout::of(alloc, &parts, pace.workers) {
        Ok(layout) => layout,
        Err(e) => return Err((Mesh::put_together(parts), e)),
    };
    let laid = LaidMesh {
        parts,
        layout: &layout,
    };
    match play_on(rt, alloc, laid, pace, number, gate) {
        Ok(parts) => Ok(Mesh::put_together(parts)),
        Err((parts, e)) => Err((Mesh::put_together(parts), e)),
    }
}

// One round of a mesh with its layout, in which each actor is asked to look at all its queues.
fn play_on<R: Threads + Wait + Sync, G: Gate>(
    rt: &R,
    alloc: Global,
    laid: LaidMesh<'_>,
    pace: Pace,
    number: u32,
    gate: &G,
) -> Result<MeshParts, (MeshParts, Memory)>
    ensures round { IfOk result (LeadsByRound pace.patience pace.turns laid.entry.mesh) }
    ensures ready { IfOk result MayGoOn }
    ensures back { IfErr result (λ b. b.0 ≡ laid.entry.mesh) }
{
    let LaidMesh { parts, layout } = laid;
    let mut raised = RaisedMesh::raise(rt, alloc, parts, layout, pace)?;
    let round = Round {
        number,
        gate,
        thorough: true,
    };
    match raised.play(rt, alloc, &round) {
        Err(e) => Err((raised.lower(rt, alloc), e)),
        Ok(true) => Ok(raised.lower(rt, alloc)),
        Ok(false) => at_rest(raised.lower(rt, alloc)),
    }
}

// A mesh in which a round that looked everywhere moved no copy is at rest.
fn at_rest(parts: MeshParts) -> Result<MeshParts, (MeshParts, Memory)>
    ensures same { IfOk result (λ n. n ≡ parts) }
    ensures none { IfOk result (λ n. has_none n ≡ true) }
    ensures back { IfErr result (λ b. b.0 ≡ parts) }
{
    if is_at_rest(&parts) {
        Ok(parts)
    } else {
        Err((parts, Memory))
    }
}

/// Rounds, numbered from 1, until nothing waits and nothing is unsent: none where that is so at once. Numbers stay at the greatest, should it come to that. In the mesh
/// of a job there are at most as many in which a copy moves as copies can move: for each packet one, one for each chip of its net's
/// tree, and one for each target.
///
/// # Errors
///
/// `Memory` where memory runs out, with a mesh that whole rounds reach, which may go on from there.
pub fn run_out<R: Threads + Wait + Sync, G: Gate>(
    rt: &R,
    alloc: Global,
    mesh: Mesh,
    pace: Pace,
    gate: &G,
) -> Result<Mesh, (Mesh, Memory)>
    requires { HasNoHand mesh }
    ensures rounds { IfOk result (HasRounds pace.patience pace.turns mesh) }
    ensures soon { IfOk result (LeadsSoon pace.patience pace.turns mesh) }
    ensures at_rest { IfOk result IsAtRest }
    ensures refused { IfErr result (λ b. HasRounds pace.patience pace.turns mesh b.0) }
    ensures ready { IfErr result (λ b. MayGoOn b.0) }
{
    rounds_that_move_copies_are_few();
    let parts = mesh.take_apart();
    if is_at_rest(&parts) {
        return Ok(Mesh::put_together(parts));
    }
    let layout = match Layout::of(alloc, &parts, pace.workers) {
        Ok(layout) => layout,
        Err(e) => return Err((Mesh::put_together(parts), e)),
    };
    let laid = LaidMesh {
        parts,
        layout: &layout,
    };
    match run_on(rt, alloc, laid, pace, gate) {
        Ok(parts) => Ok(Mesh::put_together(parts)),
        Err((parts, e)) => Err((Mesh::put_together(parts), e)),
    }
}

// Rounds of a mesh with its layout, numbered from 1. Where a round moved no copy, the next asks each actor to look at all its
// queues; where that one moved none either, the mesh is at rest.
pub(crate) fn run_on<R: Threads + Wait + Sync, G: Gate>(
    rt: &R,
    alloc: Global,
    laid: LaidMesh<'_>,
    pace: Pace,
    gate: &G,
) -> Result<MeshParts, (MeshParts, Memory)>
    ensures rounds { IfOk result (HasMovingRounds pace.patience pace.turns laid.entry.mesh) }
    ensures ready { IfOk result MayGoOn }
    ensures at_rest { IfOk result IsAtRest }
    ensures refused { IfErr result (λ b. HasMovingRounds pace.patience pace.turns laid.entry.mesh b.0) }
    ensures ready_still { IfErr result (λ b. MayGoOn b.0) }
{
    let LaidMesh { parts, layout } = laid;
    let mut raised = RaisedMesh::raise(rt, alloc, parts, layout, pace)?;
    let mut number: u32 = 0;
    let mut thorough = true;
    for _ in rt.forever() {
        number = number.saturating_add(1);
        let round = Round {
            number,
            gate,
            thorough,
        };
        match raised.play(rt, alloc, &round) {
            Err(e) => return Err((raised.lower(rt, alloc), e)),
            Ok(true) => thorough = false,
            Ok(false) => {
                if thorough {
                    return at_rest(raised.lower(rt, alloc));
                }
                thorough = true;
            }
        }
    }
    unreachable!()
}

// Whether no copy waits in a queue and none is unsent.
fn is_at_rest(parts: &MeshParts) -> bool
    ensures { result ≡ has_none parts.now }
{
    are_empty(&parts.inputs) && are_empty(&parts.cores) && are_empty(&parts.unsent)
}

// Whether each queue is empty.
fn are_empty(queues: &[Fifo<McCopy>]) -> bool
    ensures { result ≡ list_all holds_none queues.now }
{
    queues.iter().all(|queue| queue.len() == 0)
}
