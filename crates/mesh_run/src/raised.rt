// A mesh split into shares, from round to round.
ghost use Rattle.std.specs.Prelude.{◌≡◌, ◌+◌, IfErr, IfOk, OnErr, OnOk};
ghost use Rattle.mesh_core.specs.State.{IsMesh, State};
ghost use Rattle.mesh_run.specs.Layouts.{IsLayoutOf};
ghost use Rattle.mesh_run.specs.Raised.{IsRaisedFrom, IsRoomyFrom, PlaysTo};

use crate::crossing::{collect, deal};
use crate::footing::Footing;
use crate::gathering::MeshLogs;
use crate::layout::Layout;
use crate::paces::{Pace, Round};
use crate::queues::{Places, bring_down, rest_all, widen_all};
use crate::rooms::{RoundSize, make_room_in_all};
use crate::shares::{Ground, Share, play_all};
use crate::splitting::{SplitPlan, move_in, move_out, swap_queue};
use crate::standing::Standing;
use chip_node::{Around, Log};
use mesh_core::MeshParts;
use mesh_core::laws::every_setup_has_sites;
use spin_base::{Fifo, Gate, McCopy, Memory, Seq};
use std::alloc::Global;
use std::mem;
use std::sync::Wait;
use std::thread::Threads;

/// A mesh that is split into shares, one for each run of a layout, and stays so between rounds.
#[derive(Drop)]
pub struct RaisedMesh<'l> {
    // What never changes, and the lists that the shares' go back to.
    pub(crate) parts: MeshParts,
    pub(crate) pace: Pace,
    pub(crate) layout: &'l Layout,
    pub(crate) standing: Standing,
    pub(crate) crossing: Vec<Fifo<McCopy>>,
    pub(crate) shares: Vec<Share>,
    pub(crate) logs: MeshLogs,
}

impl<'l> RaisedMesh<'l> {
    /// The mesh, split on its layout.
    ///
    /// # Errors
    ///
    /// `Memory` where memory runs out, with the mesh as it was.
    pub fn raise<R: Wait>(
        rt: &R,
        alloc: Global,
        parts: MeshParts,
        layout: &'l Layout,
        pace: Pace,
    ) -> Result<RaisedMesh<'l>, (MeshParts, Memory)>
        requires mesh { IsMesh parts }
        requires layout { IsLayoutOf parts.setup layout.now }
        ensures raised { IfOk result (λ r. IsRaisedFrom parts 0 r) }
        ensures pace { IfOk result (λ r. r.pace ≡ pace) }
        ensures back { IfErr result (λ b. b.0 ≡ parts) }
    {
        let mut parts = parts;
        match SplitPlan::of(rt, alloc, &parts, layout, pace) {
            Err(e) => Err((parts, e)),
            Ok(plan) => {
                let SplitPlan {
                    standing,
                    crossing,
                    mut shares,
                } = plan;
                move_in(alloc, &mut parts, &layout.homes, &layout.cuts, &mut shares);
                let delivered = mem::replace(&mut parts.delivered, Seq::new(alloc));
                let dumped = mem::replace(&mut parts.dumped, Fifo::new(alloc));
                Ok(RaisedMesh {
                    parts,
                    pace,
                    layout,
                    standing,
                    crossing,
                    shares,
                    logs: MeshLogs {
                        delivered: Log::of_list(delivered),
                        dumped: Log::of_list(dumped.into_seq()),
                    },
                })
            }
        }
    }

    /// One round: the router and the bank of each live chip take at most `pace.turns` turns, in as many workers as there are shares, of
    /// which each enters the gate in the phase of the round's number. All memory is taken before the first turn. Whether a copy moved.
    ///
    /// # Errors
    ///
    /// `Memory` where memory runs out, with the mesh as it was.
    pub fn play<R: Threads + Wait + Sync, G: Gate>(
        &mut self,
        rt: &R,
        alloc: Global,
        round: &Round<G>,
    ) -> Result<bool, Memory>
        requires { (m : State) × IsMesh m × IsRaisedFrom m 0 self.old }
        ensures played { IfOk result (λ moved. (m : State) → IsMesh m → IsRaisedFrom m 0 self.old
            → PlaysTo self.old.pace.patience self.old.pace.turns m moved self.new) }
        ensures back { OnErr result ((m : State) → IsMesh m → IsRaisedFrom m 0 self.old
            → IsRaisedFrom m 0 self.new) }
        ensures pace { self.new.pace ≡ self.old.pace }
    {
        let places = places_of(&self.parts, self.pace.turns);
        widen_all(rt, alloc, &mut self.standing, places)?;
        let size = RoundSize {
            capacity: places.cap,
            turns: places.turns,
        };
        make_room_in_all(&mut self.shares, &self.layout.floor, size, round.thorough)?;
        self.logs.make_room(&self.shares)?;
        Ok(self.play_roomy(rt, round))
    }

    // A round for which there is room.
    fn play_roomy<R: Threads + Wait + Sync, G: Gate>(&mut self, rt: &R, round: &Round<G>) -> bool
        requires { (m : State) × IsMesh m × IsRoomyFrom m (self.old.pace.turns + 1) self.old }
        ensures played { (m : State) → IsMesh m
            → IsRoomyFrom m (self.old.pace.turns + 1) self.old
            → PlaysTo self.old.pace.patience self.old.pace.turns m result self.new }
        ensures pace { self.new.pace ≡ self.old.pace }
    {
        deal(&mut self.shares, &mut self.standing, &self.layout.cuts);
        let around = Around {
            links: &self.standing.links,
            capacity: self.parts.setup.capacity(),
            patience: self.pace.patience,
        };
        let footing = Footing {
            setup: &self.parts.setup,
            floor: &self.layout.floor,
        };
        let ground = Ground {
            footing,
            around,
            turns: self.pace.turns,
        };
        play_all(rt, ground, &mut self.shares, round);
        collect(&mut self.shares, &mut self.standing, &self.layout.cuts);
        let _ = rest_all(rt, &mut self.standing, self.parts.setup.capacity());
        self.logs.gather(&mut self.shares)
    }

    /// The mesh with its queues. It takes no memory.
    #[tactic(auto, using(crate::proofs::Lowering::cuts_none))]
    pub fn lower<R: Wait>(self, rt: &R, alloc: Global) -> MeshParts
        requires { (m : State) × IsMesh m × IsRaisedFrom m 0 self }
        ensures { (m : State) → IsMesh m → IsRaisedFrom m 0 self.entry → result ≡ m }
    {
        let RaisedMesh {
            mut parts,
            layout,
            standing,
            mut crossing,
            mut shares,
            logs,
            ..
        } = self;
        move_out(alloc, &mut parts, &layout.homes, &mut shares);
        bring_down(rt, standing, &mut crossing);
        for number in 0..layout.cuts.len() {
            let copies = mem::replace(&mut crossing[number], Fifo::new(alloc));
            let _ = swap_queue(&mut parts, layout.cuts[number].queue as usize, copies);
        }
        let MeshLogs { delivered, dumped } = logs;
        parts.delivered = delivered.into_list();
        parts.dumped = Fifo::from_seq(dumped.into_list());
        parts
    }
}

// For what the links of a mesh have places, in rounds of so many turns.
fn places_of(parts: &MeshParts, turns: u32) -> Places
    ensures cap { result.cap ≡ parts.now.setup.capacity }
    ensures turns { result.turns ≡ turns }
{
    every_setup_has_sites(&parts.setup);
    Places {
        cap: parts.setup.capacity(),
        turns,
    }
}
