// Dumped copies put back where they were dropped, until every target has its own.
ghost use Rattle.std.specs.Prelude.{◌≡◌, ◌<◌, ℕ, [], length, IfErr, IfOk, OnErr, OnOk};
ghost use Rattle.mesh_core.specs.declared.places.Did.TheVariants.{Moved};
ghost use Rattle.mesh_core.specs.State.{IsMesh};
ghost use Rattle.mesh_core.specs.PutBack.{after_put_back};
ghost use Rattle.mesh_core.specs.Expected.{IsAtRest};
ghost use Rattle.mesh_round.specs.RoundFlow.{HasNoHand};
ghost use Rattle.mesh_round.specs.Work.{work_in};
ghost use Rattle.mesh_round.specs.OnThreads.{MayGoOn};
ghost use Rattle.mesh_round.specs.Reinjecting.{put_back_answer, HasPasses, IsOfNets};

use crate::flow_laws::a_round_leaves_less_to_do;
use crate::laid::LaidMesh;
use crate::laws::passes_keep_the_ledger;
use crate::putting::{has_room, push_behind, queue_behind};
use crate::rounds::run_on;
use mesh_core::laws::a_mesh_stays_a_mesh;
use mesh_core::{Did, Mesh, MeshParts};
use mesh_run::{Layout, Pace};
use spin_base::{Gate, Memory};
use std::alloc::Global;
use std::sync::Wait;
use std::thread::Threads;

/// Puts the first dumped copy back: its record leaves the list, and the copy, one hop on, goes to the back of the queue behind the
/// record's output. `Moved` exactly where there is a record and that queue isn't full; else `Idle`, and the mesh is as it was. Its
/// cost does not depend on the size of the mesh.
///
/// # Errors
///
/// `Memory` where memory runs out, with the mesh as it was.
pub fn put_back(mesh: Mesh) -> Result<(Mesh, Did), (Mesh, Memory)>
    ensures moves { IfOk result (λ b. b.0 ≡ after_put_back mesh) }
    ensures answer { IfOk result (λ b. b.1 ≡ put_back_answer mesh) }
    ensures back { IfErr result (λ b. b.0 ≡ mesh) }
{
    a_mesh_stays_a_mesh();
    match put_first_back(mesh.take_apart()) {
        Ok((parts, did)) => Ok((Mesh::put_together(parts), did)),
        Err((parts, e)) => Err((Mesh::put_together(parts), e)),
    }
}

/// Rounds until nothing waits and nothing is unsent, then dumped copies put back, first ones first, until the first one can't be;
/// and so on until no dump record is left. In a mesh that meets the ledger of its nets each dumped copy has a queue behind its output,
/// which is empty after the rounds: so there is an end. Each time rounds are numbered anew, from 1. They go as those of `run_out`.
///
/// # Errors
///
/// `Memory` where memory runs out, with a mesh that whole rounds and copies put back reach, which may go on from there.
pub fn reinject<R: Threads + Wait + Sync, G: Gate>(
    rt: &R,
    alloc: Global,
    mesh: Mesh,
    pace: Pace,
    gate: &G,
) -> Result<Mesh, (Mesh, Memory)>
    requires no_hand { HasNoHand mesh }
    requires ledger { IsOfNets mesh }
    ensures passes { IfOk result (HasPasses pace.patience pace.turns mesh) }
    ensures at_rest { IfOk result IsAtRest }
    ensures no_record { IfOk result (λ n. n.dumped ≡ []) }
    ensures refused { IfErr result (λ b. HasPasses pace.patience pace.turns mesh b.0) }
    ensures ready { IfErr result (λ b. MayGoOn b.0) }
{
    let parts = mesh.take_apart();
    let layout = match Layout::of(alloc, &parts, pace.workers) {
        Ok(layout) => layout,
        Err(e) => return Err((Mesh::put_together(parts), e)),
    };
    let laid = LaidMesh {
        parts,
        layout: &layout,
    };
    match pass_on(rt, alloc, laid, pace, gate) {
        Ok(parts) => Ok(Mesh::put_together(parts)),
        Err((parts, e)) => Err((Mesh::put_together(parts), e)),
    }
}

// Rounds and copies put back, in turn, of a mesh with its layout. No pass changes what the layout is of.
fn pass_on<R: Threads + Wait + Sync, G: Gate>(
    rt: &R,
    alloc: Global,
    laid: LaidMesh<'_>,
    pace: Pace,
    gate: &G,
) -> Result<MeshParts, (MeshParts, Memory)>
    requires ledger { IsOfNets laid.mesh }
    ensures passes { IfOk result (HasPasses pace.patience pace.turns laid.entry.mesh) }
    ensures ready { IfOk result MayGoOn }
    ensures at_rest { IfOk result IsAtRest }
    ensures no_record { IfOk result (λ n. n.dumped ≡ []) }
    ensures refused { IfErr result (λ b. HasPasses pace.patience pace.turns laid.entry.mesh b.0) }
    ensures ready_still { IfErr result (λ b. MayGoOn b.0) }
{
    passes_keep_the_ledger();
    a_round_leaves_less_to_do();
    let layout = laid.layout;
    let mut parts = run_on(rt, alloc, laid, pace, gate)?;
    'passes: while parts.dumped.len() > 0 {
        let filled = put_all_back(parts)?;
        let refilled = LaidMesh {
            parts: filled,
            layout,
        };
        parts = run_on(rt, alloc, refilled, pace, gate)?;
    }
    Ok(parts)
}

// Puts dumped copies back, first ones first, until the first one can't be.
fn put_all_back(parts: MeshParts) -> Result<MeshParts, (MeshParts, Memory)>
    requires ready { MayGoOn parts }
    ensures passes { IfOk result (λ n. (patience turns : ℕ) → HasPasses patience turns parts n) }
    ensures ready { IfOk result MayGoOn }
    ensures less { IfOk result (λ n. put_back_answer parts ≡ Moved → work_in n < work_in parts) }
    ensures refused { IfErr result (λ b. (patience turns : ℕ)
        → HasPasses patience turns parts b.0) }
    ensures ready_still { IfErr result (λ b. MayGoOn b.0) }
{
    let mut parts = parts;
    'copies: loop {
        let (next, did) = put_first_back(parts)?;
        parts = next;
        match did {
            Did::Moved => {}
            Did::Idle => return Ok(parts),
        }
    }
}

// Puts the first dumped copy back.
fn put_first_back(parts: MeshParts) -> Result<(MeshParts, Did), (MeshParts, Memory)>
    requires { IsMesh parts }
    ensures moves { IfOk result (λ b. b.0 ≡ after_put_back parts) }
    ensures answer { IfOk result (λ b. b.1 ≡ put_back_answer parts) }
    ensures back { IfErr result (λ b. b.0 ≡ parts) }
{
    let mut parts = parts;
    let Some(record) = parts.dumped.as_slice().first().copied() else {
        return Ok((parts, Did::Idle));
    };
    let queue = queue_behind(&parts, record.chip, record.out);
    if !has_room(&parts, queue) {
        return Ok((parts, Did::Idle));
    }
    if let Err(e) = push_behind(&mut parts, queue, record.copy.onward()) {
        return Err((parts, e));
    }
    let _ = parts.dumped.pop();
    Ok((parts, Did::Moved))
}
