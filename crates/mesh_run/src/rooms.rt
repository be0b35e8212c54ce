// Room for the turns of a round, made before the first of them.
ghost use Rattle.std.specs.Prelude.{◌≡◌, ◌≤◌, ◌*◌, length};
ghost use Rattle.mesh_run.specs.Rooms.{AreSameCopies, SameCopies, SameEnd};

use crate::floors::{Floor, OUT_COUNT};
use crate::shares::Share;
use chip_node::End;
use spin_base::Memory;

/// For how many dump records a share has room at least.
pub(crate) const LEAST_LOG: usize = 256;

/// For how many deliveries a share has room at least, where its banks may take as many in a round. What isn't used costs addresses alone.
const LEAST_DELIVERIES: usize = 65536;

/// For how many copies more a lane gets room at least, where a round has as many turns: where all lanes get it, and where only those do that
/// had none in the last round.
const LEAST_LANE: usize = 4;

const SHORT_LANE: usize = 16;

/// For which rounds there is to be room: how many copies a queue holds at most, and how many turns an actor takes.
#[derive(Clone, Copy)]
pub(crate) struct RoundSize {
    pub capacity: u32,
    pub turns: u32,
}

impl RoundSize {
    // For how many copies more a lane is to have room that holds so many. It is a hint, and no promise rests on it.
    fn lane_room(self, held: usize, all: bool) -> usize {
        let least = if all { LEAST_LANE } else { SHORT_LANE };
        held.saturating_add(least).min(self.turns as usize)
    }
}

impl Share {
    /// Makes room for a round: where those send who had none in the last one, or where all send.
    #[tactic(auto, using(crate::proofs::RoomLaws::copies_same, crate::proofs::RoomLaws::copies_on, crate::proofs::RoomLaws::logs_made))]
    pub fn make_room(&mut self, floor: &Floor, size: RoundSize, all: bool) -> Result<(), Memory>
        ensures { SameCopies self.old self.new }
    {
        let mut at = self.from;
        'actors: while at < self.to {
            if !all {
                match self.short.next(at) {
                    Some(place) => at = place,
                    None => break 'actors,
                }
            }
            if at < self.to {
                self.make_room_at(floor, size, at, all)?;
                self.short.clear(at);
            }
            at += 1;
        }
        self.hold.dumps.make_room(self.dumps_wanted.max(LEAST_LOG))?;
        let most = self.most_deliveries(size);
        let wanted = self.deliveries_wanted.max(LEAST_DELIVERIES).min(most);
        self.hold.deliveries.make_room(wanted)
    }

    // How many copies the banks of the share take in a round at most. It is a hint, and no promise rests on it.
    fn most_deliveries(&self, size: RoundSize) -> usize {
        let banks = self.to.saturating_sub(self.from) / 2 + 1;
        banks.saturating_mul(size.turns as usize)
    }

    // Makes room where the actor at a place sends.
    #[tactic(auto, using(crate::proofs::RoomLaws::copies_same, crate::proofs::RoomLaws::copies_on))]
    fn make_room_at(
        &mut self,
        floor: &Floor,
        size: RoundSize,
        at: usize,
        all: bool,
    ) -> Result<(), Memory>
        ensures { SameCopies self.old self.new }
    {
        let index = at / 2;
        if at % 2 == 1 {
            return self.widen(index.saturating_mul(7).saturating_add(6), size, all);
        }
        for number in 0..OUT_COUNT {
            if let Some(place) = floor.place_behind(index, number) {
                self.widen(place as usize, size, all)?;
            }
        }
        Ok(())
    }

    // Makes room in a lane, as much as a round may use, as far as is known.
    fn widen(&mut self, place: usize, size: RoundSize, all: bool) -> Result<(), Memory>
        ensures { SameCopies self.old self.new }
    {
        if place < self.hold.ends.len() {
            widen(&mut self.hold.ends[place], size, all)
        } else {
            Ok(())
        }
    }
}

/// Makes room for a round in all shares. After a refusal some have it, and all hold what they held.
#[tactic(auto, using(crate::proofs::Raising::copies_so_far, crate::proofs::Going::gone_none, crate::proofs::Going::gone_more))]
pub(crate) fn make_room_in_all(
    shares: &mut Vec<Share>,
    floor: &Floor,
    size: RoundSize,
    all: bool,
) -> Result<(), Memory>
    ensures { AreSameCopies shares.old.items shares.new.items }
{
    for number in 0..shares.len() {
        shares[number].make_room(floor, size, all)?;
    }
    Ok(())
}

// Makes room in a lane.
fn widen(end: &mut End, size: RoundSize, all: bool) -> Result<(), Memory>
    ensures { SameEnd end.old end.new }
{
    match end {
        End::Own(lane) => {
            let held = lane.len();
            let wanted = size.lane_room(held, all);
            if lane.spare() < wanted && held < size.capacity as usize {
                lane.make_room(wanted)?;
            }
            Ok(())
        }
        End::Away => Ok(()),
        End::Sends(_) => Ok(()),
        End::Takes(_) => Ok(()),
    }
}
