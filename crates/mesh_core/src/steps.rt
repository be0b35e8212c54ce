// The step: what one event does to a mesh.
ghost use Rattle.std.specs.Prelude.{◌≡◌, ℕ, List, OnOk, OnErr, IfOk, IfSome, length, slice_get};
ghost use Rattle.machine_desc.specs.Live.{index_of, IsInside};
ghost use Rattle.mesh_core.specs.State.{behind};
ghost use Rattle.mesh_core.specs.Step.{has_room_behind};
ghost use Rattle.mesh_core.specs.Serving.{queue_named, copy_served, IsPlace};

use crate::hands::{Hand, serve};
use crate::meshes::Mesh;
use crate::places::Did;
use crate::queues::{Queue, drop_front, front, has_room, push_at, push_behind};
use crate::setups::queue_place;
use spin_base::{Chip, Delivery, DumpRec, Event, McCopy, Memory, Out, Port};

impl Mesh {
    ghost use Rattle.spin_base.specs.declared.copies.Event.TheVariants.{Inject, Take, Send, Dump, Collect};
    ghost use Rattle.std.specs.Prelude.{◌≤◌};
    ghost use Rattle.spin_base.specs.declared.chips.Chip.{Chip};
    ghost use Rattle.spin_base.specs.declared.routes.Out.{Out};
    ghost use Rattle.spin_base.specs.declared.copies.Packet.{Packet};
    ghost use Rattle.machine_desc.specs.declared.nets.NetPlan.{NetPlan};
    ghost use Rattle.machine_desc.specs.RightTables.{AreRight};
    ghost use Rattle.mesh_core.specs.declared.places.Did.TheVariants.{Idle};
    ghost use Rattle.mesh_core.specs.Step.{after_event, answer};
    ghost use Rattle.mesh_core.specs.Ledger.{Label, MeetsLedger};
    ghost use Rattle.mesh_core.specs.Opened.{MeetsJobLedger};

    /// One event: `Moved` exactly where it is enabled, and `Idle` exactly where it isn't, and then nothing changes.
    ///
    /// `Inject` takes a vertex's first unsent copy to the back of its chip's injection queue, where that isn't full.
    /// `Take` takes the front copy at a port into the free hand of a live chip, with the outputs that the chip's table
    /// gives, or with none where its hop number is the greatest; without an output the copy is gone. `Send` takes the
    /// copy in hand, with one hop more, to the back of the queue behind one of its outputs, where that isn't full.
    /// `Dump` records the copy and drops it for an output behind which is a full queue or none. `Collect` delivers the
    /// front copy in the queue of a vertex's core. An event of a vertex or a chip that isn't there is not enabled.
    ///
    /// Where the tables are right for some nets and the mesh met their ledger of copies before, it meets it after. Where it
    /// met the ledger of a job and a queue holds as many copies as the job has packets, no `Dump` is enabled.
    ///
    /// It moves what it moves: its cost does not depend on the size of the mesh. After a refusal the mesh is as before.
    #[tactic(auto, using(crate::proofs::Fixed::after_event_setup))]
    pub fn step(&mut self, e: Event) -> Result<Did, Memory>
        ensures answer { IfOk result (λ did. did ≡ answer self.old e) }
        ensures moves { OnOk result (self.new ≡ after_event self.old e) }
        ensures err { OnErr result (self.new ≡ self.old) }
        ensures setup_stays { self.new.setup ≡ self.old.setup }
        ensures ledger { (nets : List NetPlan) (labels : ℕ → Label) →
            AreRight self.old.setup.machine self.old.setup.tables nets
            → MeetsLedger self.old nets labels → MeetsLedger self.new nets labels }
        ensures roomy { (nets : List NetPlan) (packets : List Packet) (c : Chip) (o : Out)
            → MeetsJobLedger self.old nets packets →
            length packets ≤ self.old.setup.capacity → e ≡ Dump c o
            → IfOk result (λ did. did ≡ Idle) }
    {
        let _ = &self.setup; // Opens the mesh: what every mesh has is then known of the old one.
        self.act(e)
    }

    // The event's router, vertex or core does its step.
    fn act(&mut self, e: Event) -> Result<Did, Memory>
        ensures answer { IfOk result (λ did. did ≡ answer self.old e) }
        ensures moves { OnOk result (self.new ≡ after_event self.old e) }
        ensures err { OnErr result (self.new ≡ self.old) }
    {
        match e {
            Event::Inject(vertex) => self.inject(vertex),
            Event::Take(chip, port) => Ok(self.take(chip, port)),
            Event::Send(chip, out) => self.send(chip, out),
            Event::Dump(chip, out) => self.dump(chip, out),
            Event::Collect(vertex) => self.collect(vertex),
        }
    }

    // The vertex sends its first unsent copy to its chip's injection queue.
    fn inject(&mut self, v: u32) -> Result<Did, Memory>
        ensures answer { IfOk result (λ did. did ≡ answer self.old (Inject v)) }
        ensures moves { OnOk result (self.new ≡ after_event self.old (Inject v)) }
        ensures err { OnErr result (self.new ≡ self.old) }
    {
        let vertex = v as usize;
        let Some(spot) = self.setup.spots().get(vertex) else {
            return Ok(Did::Idle);
        };
        let Some(copy) = front(&self.unsent, vertex) else {
            return Ok(Did::Idle);
        };
        let queue = queue_place(self.setup.machine(), spot.chip, Port::Local);
        if !has_room(&self.inputs, queue, self.setup.capacity()) {
            return Ok(Did::Idle);
        }
        push_at(&mut self.inputs, queue, copy)?;
        drop_front(&mut self.unsent, vertex);
        Ok(Did::Moved)
    }

    // The vertex takes the first copy in the queue of its core.
    fn collect(&mut self, v: u32) -> Result<Did, Memory>
        ensures answer { IfOk result (λ did. did ≡ answer self.old (Collect v)) }
        ensures moves { OnOk result (self.new ≡ after_event self.old (Collect v)) }
        ensures err { OnErr result (self.new ≡ self.old) }
    {
        let vertex = v as usize;
        let Some(copy) = front(&self.cores, vertex) else {
            return Ok(Did::Idle);
        };
        self.delivered.push(Delivery { vertex: v, copy })?;
        drop_front(&mut self.cores, vertex);
        Ok(Did::Moved)
    }

    // The chip's router takes the first copy in the queue of a port.
    fn take(&mut self, c: Chip, port: Port) -> Did
        ensures answer { result ≡ answer self.old (Take c port) }
        ensures moves { self.new ≡ after_event self.old (Take c port) }
    {
        let machine = self.setup.machine();
        if !machine.live(c) {
            return Did::Idle;
        }
        let chip = machine.index(c) as usize;
        if self.hands[chip].is_some() {
            return Did::Idle;
        }
        let queue = queue_place(machine, c, port);
        let Some(copy) = front(&self.inputs, queue) else {
            return Did::Idle;
        };
        self.hands[chip] = Hand::taken(copy, port, &self.setup.tables()[chip]);
        drop_front(&mut self.inputs, queue);
        Did::Moved
    }

    // The chip's router sends the copy in its hand by an output.
    fn send(&mut self, c: Chip, out: Out) -> Result<Did, Memory>
        ensures answer { IfOk result (λ did. did ≡ answer self.old (Send c out)) }
        ensures moves { OnOk result (self.new ≡ after_event self.old (Send c out)) }
        ensures err { OnErr result (self.new ≡ self.old) }
    {
        let Some(copy) = self.copy_for(c, out) else {
            return Ok(Did::Idle);
        };
        let queue = self.behind(c, out);
        if !self.has_room_behind(queue) {
            return Ok(Did::Idle);
        }
        push_behind(&mut self.inputs, &mut self.cores, queue, copy.onward())?;
        let chip = self.setup.machine().index(c) as usize;
        serve(&mut self.hands, chip, out);
        Ok(Did::Moved)
    }

    // The chip's router drops the copy in its hand for an output.
    fn dump(&mut self, c: Chip, out: Out) -> Result<Did, Memory>
        ensures answer { IfOk result (λ did. did ≡ answer self.old (Dump c out)) }
        ensures moves { OnOk result (self.new ≡ after_event self.old (Dump c out)) }
        ensures err { OnErr result (self.new ≡ self.old) }
    {
        let Some(copy) = self.copy_for(c, out) else {
            return Ok(Did::Idle);
        };
        let queue = self.behind(c, out);
        if self.has_room_behind(queue) {
            return Ok(Did::Idle);
        }
        self.dumped.push(DumpRec { chip: c, out, copy })?;
        let chip = self.setup.machine().index(c) as usize;
        serve(&mut self.hands, chip, out);
        Ok(Did::Moved)
    }

    // The copy in the hand of the chip's router that still has to leave by the output.
    fn copy_for(&self, c: Chip, out: Out) -> Option<McCopy>
        ensures copy { result
            ≡ copy_served self.now c out (slice_get self.now.hands
            (index_of self.now.setup.machine c)) }
        ensures inside { IfSome result (λ _. IsInside self.now.setup.machine c) }
    {
        let machine = self.setup.machine();
        if !machine.live(c) {
            return None;
        }
        let hand = self.hands[machine.index(c) as usize].as_ref()?;
        if hand.serves(out) {
            Some(hand.copy)
        } else {
            None
        }
    }

    /// The queue behind an output. There is none behind an output of a chip that isn't live. It takes constant time and no memory.
    pub fn behind(&self, c: Chip, out: Out) -> Queue
        ensures queue { queue_named result ≡ behind self.now.setup c out }
        ensures place { IsPlace (length self.now.inputs) (length self.now.cores) result }
    {
        self.setup.behind(c, out)
    }

    // Whether the queue behind an output has room.
    fn has_room_behind(&self, queue: Queue) -> bool
        ensures { result ≡ has_room_behind self.now (queue_named queue) }
    {
        match queue {
            Queue::Input(place) => has_room(&self.inputs, place, self.setup.capacity()),
            Queue::Core(vertex) => has_room(&self.cores, vertex, self.setup.capacity()),
            Queue::Nowhere => false,
        }
    }
}
