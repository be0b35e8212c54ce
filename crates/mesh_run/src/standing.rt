// Links with their ends, of which some may be lent.
ghost use Rattle.std.specs.Prelude.{◌≡◌, ℕ, ◌+◌, ◌<◌, ◌≤◌, ◌++◌, [], ◌∷◌, List, IfOk, IsSome, None, Some, length, slice_get, slice_set};
ghost use Rattle.link_queue.specs.declared.links.LinkEnds.{LinkEnds};
ghost use Rattle.mesh_run.specs.Standing.{RisenTo, HoldsAll, LacksEnds};

use link_queue::{Link, LinkEnds, Rx, Tx};
use spin_base::{McCopy, Memory, Room, Seq};
use std::alloc::Global;

/// Links that are brought up one after the other.
#[derive(Drop)]
pub(crate) struct Rising {
    links: Room<Link>,
    txs: Room<Option<Tx>>,
    rxs: Room<Option<Rx>>,
    rooms: Room<Room<McCopy>>,
}

/// Links, and at the same places their ends, as far as they are not lent, and room for what they hold.
#[derive(Drop)]
pub struct Standing {
    pub links: Vec<Link>,
    pub txs: Vec<Option<Tx>>,
    pub rxs: Vec<Option<Rx>>,
    pub rooms: Vec<Room<McCopy>>,
}

impl Rising {
    /// No link, with room for so many.
    pub fn over(alloc: Global, count: usize) -> Result<Rising, Memory>
        ensures { IfOk result (RisenTo [] count) }
    {
        let links = room_for(alloc, count)?;
        let txs = room_for(alloc, count)?;
        let rxs = room_for(alloc, count)?;
        let rooms = room_for(alloc, count)?;
        Ok(Rising {
            links,
            txs,
            rxs,
            rooms,
        })
    }

    /// One link more.
    pub fn put(&mut self, ends: LinkEnds)
        requires { (before : List LinkEnds) × (spare : ℕ) × RisenTo before (spare + 1) self.old }
        ensures { (before : List LinkEnds) (spare : ℕ) → RisenTo before (spare + 1) self.old
            → RisenTo (before ++ ends ∷ []) spare self.new }
    {
        let LinkEnds { link, tx, rx, room } = ends;
        self.links.put(link);
        self.txs.put(Some(tx));
        self.rxs.put(Some(rx));
        self.rooms.put(room);
    }

    /// The links, all of whose ends are there.
    pub fn into_standing(self) -> Standing
        ensures { (before : List LinkEnds) (spare : ℕ) → RisenTo before spare self
            → HoldsAll before result }
    {
        let Rising {
            links,
            txs,
            rxs,
            rooms,
        } = self;
        Standing {
            links: links.into_seq().into_vec(),
            txs: txs.into_seq().into_vec(),
            rxs: rxs.into_seq().into_vec(),
            rooms: rooms.into_seq().into_vec(),
        }
    }
}

impl Standing {
    /// The last link leaves, with both ends.
    pub(crate) fn pop(&mut self) -> LinkEnds
        requires { (rest : List LinkEnds) × (last : LinkEnds)
            × HoldsAll (rest ++ last ∷ []) self.old }
        ensures { (rest : List LinkEnds) (last : LinkEnds) → HoldsAll (rest ++ last ∷ []) self.old
            → (result ≡ last) × HoldsAll rest self.new }
    {
        let link = last_of(&mut self.links);
        let tx = present(last_of(&mut self.txs));
        let rx = present(last_of(&mut self.rxs));
        let room = last_of(&mut self.rooms);
        LinkEnds { link, tx, rx, room }
    }

    /// Both ends of the link at a place leave.
    #[tactic(auto, using(crate::proofs::Slots::ends_gone))]
    pub(crate) fn take_ends(&mut self, place: usize) -> (Tx, Rx)
        requires { (ends : List LinkEnds) × (old : LinkEnds) × HoldsAll ends self.old
            × (slice_get ends place ≡ Some old) }
        ensures ends { (ends : List LinkEnds) (old : LinkEnds) → HoldsAll ends self.old
            → slice_get ends place ≡ Some old → (result.0 ≡ old.tx) × (result.1 ≡ old.rx) }
        ensures left { (ends : List LinkEnds) → HoldsAll ends self.old
            → LacksEnds ends place self.new }
    {
        (take_at(&mut self.txs, place), take_at(&mut self.rxs, place))
    }

    /// Both ends of the link at a place are there.
    pub(crate) fn put_ends(&mut self, place: usize, tx: Tx, rx: Rx)
        requires { (ends : List LinkEnds) × LacksEnds ends place self.old × (place < length ends) }
        ensures { (ends : List LinkEnds) (old : LinkEnds) → LacksEnds ends place self.old
            → slice_get ends place ≡ Some old
            → HoldsAll (slice_set ends place (record old { tx = tx; rx = rx })) self.new }
    {
        self.txs[place] = Some(tx);
        self.rxs[place] = Some(rx);
    }

    /// Another link stands at a place, with its ends.
    pub(crate) fn set(&mut self, place: usize, ends: LinkEnds)
        requires { (before : List LinkEnds) × LacksEnds before place self.old
            × (place < length before) }
        ensures { (before : List LinkEnds) → LacksEnds before place self.old
            → HoldsAll (slice_set before place ends) self.new }
    {
        let LinkEnds { link, tx, rx, room } = ends;
        self.links[place] = link;
        self.txs[place] = Some(tx);
        self.rxs[place] = Some(rx);
        self.rooms[place] = room;
    }
}

// The end at a place leaves.
#[tactic(auto, using(std::proofs::lemmas::Option::get_or_from_slice_get))]
pub(crate) fn take_at<T>(slots: &mut Vec<Option<T>>, place: usize) -> T
    requires { (x : T) × (slice_get slots.old.items place ≡ Some (Some x)) }
    ensures stood { slice_get slots.old.items place ≡ Some (Some result) }
    ensures left { slots.new.items ≡ slice_set slots.old.items place None }
{
    match slots[place].take() {
        Some(x) => x,
        None => unreachable!(),
    }
}

// The last item, which leaves the list.
pub(crate) fn last_of<T>(list: &mut Vec<T>) -> T
    requires { (rest : List T) × (last : T) × (list.old.items ≡ rest ++ last ∷ []) }
    ensures { list.old.items ≡ list.new.items ++ result ∷ [] }
{
    match list.pop() {
        Some(last) => last,
        None => unreachable!(),
    }
}

// What is there.
fn present<T>(there: Option<T>) -> T
    requires { IsSome there }
    ensures { there ≡ Some result }
{
    match there {
        Some(x) => x,
        None => unreachable!(),
    }
}

// An empty list, with room for so many items.
pub(crate) fn room_for<T: Drop>(alloc: Global, count: usize) -> Result<Room<T>, Memory>
    ensures { IfOk result (λ room. (room.items ≡ []) × (count ≤ room.spare)) }
{
    match Room::over(Seq::new(alloc), count as u64) {
        Ok(room) => Ok(room),
        Err(_) => Err(Memory),
    }
}
