// A chip's router between queues.
ghost use Rattle.std.specs.Prelude.{◌≡◌, ◌≢◌, ◌≤◌, ◌<◌, ◌+◌, [], ◌∷◌, ℕ, None, Some, length, slice_get, All, IsTrue};
ghost use Rattle.spin_base.specs.Outputs.{IsOutput, all_outs};
ghost use Rattle.chip_node.specs.Acting.{IsIdleRouter, IsReadyRouter, RouterActs, ServesOuts, place_at_router, service_items};
ghost use Rattle.chip_node.specs.Going.{AreEndsOf, Goes, HasAmpleRoom};
ghost use Rattle.chip_node.specs.Items.{port_place};
ghost use Rattle.chip_node.specs.Passing.{SendsBehind};
ghost use Rattle.chip_node.specs.Taking.{AreOuts, MayServe, HasRoomBehind, HasRoomForOuts, HasRoomIn, Looks};
ghost use Rattle.chip_node.specs.declared.ends.Served.TheVariants.{Dumped};
ghost use Rattle.chip_node.specs.declared.holdings.Turn.TheVariants.{Moved};

use crate::ends::{Bounds, Seen, Served};
use crate::flags::Flags;
use crate::holdings::{Around, Holdings, Turn};
use crate::nodes::{Behind, RouterNode};
use crate::routing::outputs_of;
use spin_base::{DumpRec, McCopy, Out, Outs, Port};
use std::sync::Wait;

/// A copy that left a queue, and the outputs that the table gives it.
#[derive(Drop)]
struct Taken {
    copy: McCopy,
    outs: Outs,
}

/// What a look at a port came to.
#[derive(Drop)]
enum Look {
    /// This copy was there, and left the queue.
    Took(Taken),
    /// The queue was found empty.
    Empty,
    /// There may be no room for what the copy's turn needs.
    NoRoom,
}

impl RouterNode<'_> {
    /// One turn: looks at the queues of its ports that are marked, or of all where `all` says so, from a start that goes round with the
    /// turn's number, until one gives a copy, and serves each output that the table gives the copy at its port once, in order; none where
    /// its hop number is 4,294,967,295. It takes nothing where there may be no room for what it would do. Where there is room and it looks
    /// at all, it takes nothing only where each of its queues is found empty. Whoever takes what it sends is awake. No clause says at which
    /// queue it begins.
    pub fn turn<R: Wait>(
        self,
        rt: &R,
        around: Around,
        hold: &mut Holdings,
        awake: &mut Flags,
        number: u32,
        all: bool,
    ) -> Turn
        requires { IsReadyRouter around.links.now self hold.old }
        ensures acts { RouterActs around.entry.capacity around.entry.patience self.entry.table.now
            self.entry hold.old result hold.new }
        ensures idle { IsTrue all → result ≢ Moved → HasAmpleRoom around.entry.capacity hold.old
            → IsIdleRouter self.entry hold.old }
        ensures ends { AreEndsOf around.entry.links.now hold.new.ends.items }
    {
        let start = number % Port::COUNT;
        let marks = awake.marks(self.index);
        let mut found = Turn::Nothing;
        'ports: for step in 0..Port::COUNT {
            let at = (start + step) % Port::COUNT;
            if !all && marks >> at & 1 == 0 {
                continue 'ports;
            }
            match self.look(rt, around, hold, awake, Port::ALL[at as usize]) {
                Look::Took(taken) => {
                    self.serve_all(rt, around, hold, awake, taken.outs.as_slice(), taken.copy);
                    return Turn::Moved;
                }
                Look::Empty => {}
                Look::NoRoom => found = Turn::Waits,
            }
        }
        found
    }

    // Looks at the queue of a port: its first copy leaves it, where there is one and room for its turn. A lane that is found empty isn't
    // marked any more.
    #[tactic(auto, using(crate::proofs::Flows::goes_none, crate::proofs::Looking::idle_past, crate::proofs::Flows::ready_router_on, crate::proofs::Stays::stays_same))]
    fn look<R: Wait>(
        self,
        rt: &R,
        around: Around,
        hold: &mut Holdings,
        awake: &mut Flags,
        port: Port,
    ) -> Look
        requires { IsReadyRouter around.links.now self hold.old }
        ensures looks { Looks around.entry.capacity around.entry.patience self.entry.table.now
            self.entry port hold.old result hold.new }
        ensures ready { IsReadyRouter around.entry.links.now self.entry hold.new }
    {
        let number = port.number();
        let place = (Port::COUNT * self.index) as usize + usize::from(number);
        let Some(end) = hold.ends.get(place) else {
            return Look::Empty;
        };
        match end.front() {
            Seen::Nothing => {
                awake.unmark(self.index, number);
                Look::Empty
            }
            Seen::Front(copy) => {
                let outs = outputs_of(self.table, port, copy);
                if !self.has_room(around, hold, outs.as_slice()) {
                    return Look::NoRoom;
                }
                match hold.ends[place].take(rt, around.links) {
                    Some(copy) => Look::Took(Taken { copy, outs }),
                    None => Look::Empty,
                }
            }
            Seen::Unknown => {
                // Room is asked for only where the link wasn't found empty.
                if hold.ends[place].finds_nothing(around.links) {
                    return Look::Empty;
                }
                self.take_over(rt, around, hold, port)
            }
        }
    }

    // Takes the first copy of the link of a port, where there is room at each output.
    #[tactic(auto, using(crate::proofs::Stays::stays_same))]
    fn take_over<R: Wait>(self, rt: &R, around: Around, hold: &mut Holdings, port: Port) -> Look
        requires ready { IsReadyRouter around.links.now self hold.old }
        requires place { port_place self.index port < length hold.old.ends.items }
        ensures looks { Looks around.entry.capacity around.entry.patience self.entry.table.now
            self.entry port hold.old result hold.new }
        ensures ready { IsReadyRouter around.entry.links.now self.entry hold.new }
    {
        if !self.has_room_everywhere(around, hold) {
            return Look::NoRoom;
        }
        let place = (Port::COUNT * self.index) as usize + usize::from(port.number());
        match hold.ends[place].take(rt, around.links) {
            Some(copy) => {
                let outs = outputs_of(self.table, port, copy);
                Look::Took(Taken { copy, outs })
            }
            None => Look::Empty,
        }
    }

    // Whether there is room for a copy at each output, and for as many records.
    fn has_room_everywhere(self, around: Around, hold: &Holdings) -> bool
        ensures yes { IsTrue result
            → HasRoomForOuts around.entry.capacity self.entry all_outs hold.now }
        ensures no { HasAmpleRoom around.entry.capacity hold.now → IsTrue result }
    {
        if hold.dumps.spare() < self.behind.len() {
            return false;
        }
        for slot in self.behind {
            if !has_room_in(around, hold, *slot) {
                return false;
            }
        }
        true
    }

    // Whether there is room for a copy at each of these outputs, and for as many records.
    fn has_room(self, around: Around, hold: &Holdings, outs: &[Out]) -> bool
        requires { All IsOutput outs.now }
        ensures yes { IsTrue result
            → HasRoomForOuts around.entry.capacity self.entry outs.entry.now hold.now }
        ensures no { length outs.entry.now ≤ 24 → HasAmpleRoom around.entry.capacity hold.now
            → IsTrue result }
    {
        if hold.dumps.spare() < outs.len() {
            return false;
        }
        for out in outs {
            if !self.has_room_at(around, hold, *out) {
                return false;
            }
        }
        true
    }

    // Whether the queue behind an output takes a copy without more room, or takes none.
    fn has_room_at(self, around: Around, hold: &Holdings, out: Out) -> bool
        requires { IsOutput out }
        ensures yes { IsTrue result → HasRoomBehind around.entry.capacity self.entry hold.now out }
        ensures no { HasAmpleRoom around.entry.capacity hold.now → IsTrue result }
    {
        has_room_in(around, hold, self.behind[out.number() as usize])
    }

    // Serves a copy at these outputs.
    #[tactic(auto, using(crate::proofs::Serving::serves_none))]
    fn serve_all<R: Wait>(
        self,
        rt: &R,
        around: Around,
        hold: &mut Holdings,
        awake: &mut Flags,
        outs: &[Out],
        copy: McCopy,
    )
        requires ready { IsReadyRouter around.links.now self hold.old }
        requires outs { AreOuts outs.now }
        requires room { HasRoomForOuts around.capacity self outs.now hold.old }
        ensures serves { ServesOuts around.entry.capacity around.entry.patience self.entry
            outs.entry.now copy hold.old hold.new }
        ensures ready { IsReadyRouter around.entry.links.now self.entry hold.new }
    {
        for out in outs {
            let _ = self.serve(rt, around, hold, awake, *out, copy);
        }
    }

    /// Serves one output of a copy: offers the copy, with one hop more, up to `patience` times. `Sent` exactly where an offer of this call
    /// was taken. `Dumped` exactly where all of them were refused: one record of the copy as it was handed in is logged then. An output
    /// with no queue behind it refuses every offer. Who takes from the queue is awake.
    #[tactic(auto, using(crate::proofs::Sending::sent_nowhere, crate::proofs::Placing::served_elsewhere))]
    pub fn serve<R: Wait>(
        self,
        rt: &R,
        around: Around,
        hold: &mut Holdings,
        awake: &mut Flags,
        out: Out,
        copy: McCopy,
    ) -> Served
        requires { MayServe around.links.now around.capacity self hold.old out }
        ensures goes { Goes around.entry.capacity around.entry.patience hold.old
            (service_items self.entry (record { out = out; copy = copy; fate = result } ∷ []))
            hold.new }
        ensures nowhere { place_at_router self.entry.behind.now out ≡ None → result ≡ Dumped }
        ensures elsewhere { (q : ℕ) → place_at_router self.entry.behind.now out ≢ Some q
            → slice_get hold.new.ends.items q ≡ slice_get hold.old.ends.items q }
        ensures spare { hold.old.dumps.spare ≤ hold.new.dumps.spare + 1 }
        ensures ready { IsReadyRouter around.entry.links.now self.entry hold.new }
    {
        let served = self.send(rt, around, hold, awake, out, copy.onward());
        match served {
            Served::Sent => {}
            Served::Dumped => hold.dumps.put(DumpRec {
                chip: self.chip,
                out,
                copy,
            }),
        }
        served
    }

    // Offers a copy to the queue behind an output. Where there is none, it is refused.
    fn send<R: Wait>(
        self,
        rt: &R,
        around: Around,
        hold: &mut Holdings,
        awake: &mut Flags,
        out: Out,
        copy: McCopy,
    ) -> Served
        requires { MayServe around.links.now around.capacity self hold.old out }
        ensures sends { SendsBehind around.entry.capacity around.entry.patience
            (place_at_router self.entry.behind.now out) copy result hold.old.ends.items
            hold.new.ends.items }
        ensures ends { AreEndsOf around.entry.links.now hold.new.ends.items }
        ensures unsent { hold.new.unsent ≡ hold.old.unsent }
        ensures dumps { hold.new.dumps ≡ hold.old.dumps }
        ensures deliveries { hold.new.deliveries ≡ hold.old.deliveries }
    {
        let Some(behind) = self.behind[out.number() as usize] else {
            return Served::Dumped;
        };
        awake.wake(behind);
        let bounds = Bounds {
            capacity: around.capacity,
            patience: around.patience,
        };
        hold.ends[behind.place as usize].send(rt, around.links, copy, bounds)
    }
}

// Whether the queue behind an output, where there is one, takes a copy without more room, or takes none.
fn has_room_in(around: Around, hold: &Holdings, slot: Option<Behind>) -> bool
    ensures yes { IsTrue result → HasRoomIn around.entry.capacity slot hold.now }
    ensures no { HasAmpleRoom around.entry.capacity hold.now → IsTrue result }
{
    let Some(behind) = slot else {
        return true;
    };
    match hold.ends.get(behind.place as usize) {
        None => true,
        Some(end) => end.has_room(around.capacity),
    }
}
