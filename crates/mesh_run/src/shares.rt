// One worker's share of a mesh, and its turns of a round.
ghost use Rattle.std.specs.Prelude.{◌≡◌, ◌<◌, ℕ, All, length, slice_index_or};
ghost use Rattle.mesh_run.specs.Shares.{ActsAt, IsInRun, IsShareOf, PlaysAndStays, PlaysOne, PlaysRound, PlaysTurns};

use crate::footing::Footing;
use crate::paces::Round;
use chip_node::{Around, Flags, Holdings, Turn};
use spin_base::{Gate, Shared};
use std::sync::Wait;
use std::thread;
use std::thread::Threads;

/// A run of actors, and what they hold. Flags are hints, and no promise rests on them.
#[derive(Drop)]
pub struct Share {
    /// The places of the run: from the first, to below the second.
    pub from: usize,
    pub to: usize,
    pub hold: Holdings,
    /// The number by which its worker enters the gate.
    pub worker: u32,
    /// Who may have something to do.
    pub awake: Flags,
    /// Who takes from another worker, and so always may have.
    pub polled: Flags,
    /// Who had no room in the last round.
    pub short: Flags,
    /// Whether a copy moved in the last round.
    pub moved: bool,
    /// For how many dump records and deliveries the next round gets room: twice as many as the last one had.
    pub dumps_wanted: usize,
    pub deliveries_wanted: usize,
}

impl Shared for Share {}

/// What all shares of a round stand on.
#[derive(Clone, Copy)]
pub(crate) struct Ground<'a, 'l> {
    pub footing: Footing<'a, 'l>,
    pub around: Around<'a>,
    pub turns: u32,
    ghost capacity: { around.capacity ≡ footing.setup.now.capacity },
}

impl Share {
    /// The share's turns of a round. Its worker enters the gate before each turn, and once more after the last.
    #[tactic(auto, using(crate::proofs::Acting::round_more))]
    pub(crate) fn play<R: Wait, G: Gate>(&mut self, rt: &R, ground: Ground, round: &Round<G>)
        requires { IsShareOf ground.footing.setup.now ground.around.links.now self.old }
        ensures plays { PlaysRound ground.entry.footing.setup.now ground.entry.around.patience
            ground.entry.turns self.old self.new }
        ensures share { IsShareOf ground.entry.footing.setup.now ground.entry.around.links.now self.new }
    {
        self.moved = false;
        for step in 0..ground.turns {
            round.gate.enter(round.number, self.worker, step);
            self.turn_each(rt, ground, step, step == 0 && round.thorough);
        }
        round.gate.enter(round.number, self.worker, ground.turns);
    }

    // One turn of each actor that is awake, or of all.
    #[tactic(auto, using(crate::proofs::Acting::each_none))]
    fn turn_each<R: Wait>(&mut self, rt: &R, ground: Ground, number: u32, all: bool)
        requires { IsShareOf ground.footing.setup.now ground.around.links.now self.old }
        ensures plays { PlaysTurns ground.entry.footing.setup.now ground.entry.around.patience 1 self.old
            self.new }
        ensures share { IsShareOf ground.entry.footing.setup.now ground.entry.around.links.now self.new }
    {
        let mut at = self.from;
        'actors: while at < self.to {
            if !all {
                match self.awake.next(at) {
                    Some(place) => at = place,
                    None => return,
                }
            }
            if at < self.to {
                match self.act(rt, ground, number, at, all) {
                    Turn::Moved => self.moved = true,
                    Turn::Waits => self.short.set(at),
                    Turn::Nothing => {
                        if !self.polled.has(at) {
                            self.awake.clear(at);
                        }
                    }
                }
            }
            at += 1;
        }
    }

    // What the actor at a place does in a turn. On a chip that isn't live there is none.
    fn act<R: Wait>(&mut self, rt: &R, ground: Ground, number: u32, at: usize, all: bool) -> Turn
        requires share { IsShareOf ground.footing.setup.now ground.around.links.now self.old }
        requires within { IsInRun self.old.from self.old.to at }
        ensures acts { ActsAt ground.entry.footing.setup.now ground.entry.around.patience at self.old result
            self.new }
        ensures share { IsShareOf ground.entry.footing.setup.now ground.entry.around.links.now self.new }
    {
        let index = at / 2;
        if at % 2 == 0 {
            match ground.footing.router(index) {
                Some(router) => {
                    router.turn(
                        rt,
                        ground.around,
                        &mut self.hold,
                        &mut self.awake,
                        number,
                        all,
                    )
                }
                None => Turn::Nothing,
            }
        } else {
            match ground.footing.bank(index) {
                Some(bank) => {
                    bank.turn(
                        rt,
                        ground.around,
                        &mut self.hold,
                        &mut self.awake,
                        number,
                        all,
                    )
                }
                None => Turn::Nothing,
            }
        }
    }
}

/// The turns of a round, by as many workers as there are shares. With one share the calling thread gives them.
pub(crate) fn play_all<R: Threads + Wait + Sync, G: Gate>(
    rt: &R,
    ground: Ground,
    shares: &mut Vec<Share>,
    round: &Round<G>,
)
    requires { All (IsShareOf ground.footing.setup.now ground.around.links.now) shares.old.items }
    ensures long { length shares.new.items ≡ length shares.old.items }
    ensures each { (i : ℕ) (d : Share) → i < length shares.old.items
        → PlaysAndStays ground.entry.footing.setup.now ground.entry.around.links.now
        ground.entry.around.patience ground.entry.turns (slice_index_or shares.old.items i d)
        (slice_index_or shares.new.items i d) }
{
    let workers = shares.len().max(1);
    thread::for_each_mut(
        rt,
        shares.as_mut_slice(),
        workers,
        &|_, share: &mut Share|
            requires { IsShareOf ground.footing.setup.now ground.around.links.now share.now }
            ensures { PlaysAndStays ground.entry.footing.setup.now ground.entry.around.links.now
                ground.entry.around.patience ground.entry.turns share.entry.now share.exit.now }
        { share.play(rt, ground, round) },
    );
}
