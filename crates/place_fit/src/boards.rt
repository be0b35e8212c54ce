// How far the chips of a machine are filled.
ghost use Rattle.std.specs.Prelude.{◌≡◌, ℕ, ◌+◌, ◌==◌, ◌^◌, ◌<◌, ◌≤◌, length, slice_index, if◌then◌else◌, IfSome, IfNone};
ghost use Rattle.std.proofs.Props.{props};
ghost use Rattle.machine_desc.specs.Live.{is_usable};
ghost use Rattle.place_fit.specs.Cores.{AreCores, IsJoined, IsParted, room_left};
ghost use Rattle.place_fit.specs.Curve.{hilbert, IsCurveLevel};
ghost use Rattle.place_fit.specs.Placement.{HasDeviceRoom, device_spot};

use crate::curves::{OnSquare, curve, place_on_curve};
use crate::rooms::Rooms;
use app_graph::Vertex;
use machine_desc::{Edge, Machine};
use spin_base::{CORES, Chip, Memory, Seq, Spot};
use std::alloc::Global;

// The chips of the curve of a level, and the bytes of memory of each. Beside each, its free cores, as bits; and how much room it
// has, which is one more than the bytes that are left of its memory, and 0 where no core is free.
#[derive(Drop)]
pub struct Board {
    pub level: u32,
    pub sdram: u32,
    pub chips: Seq<Chip>,
    pub cores: Vec<u32>,
    pub rooms: Rooms,
    pub ghost small: { level ≤ 6 },
    pub ghost curve: { chips ≡ hilbert level } by { Prim.hlevel props },
    pub ghost cores_beside: { length cores.items ≡ length chips },
    pub ghost rooms_beside: { length rooms ≡ length chips },
    pub ghost few: { (q : ℕ) → slice_index cores.items q < 2 ^ 18 },
    pub ghost fair: { (q : ℕ) → q < length chips → 0 < slice_index rooms q
        → (0 < slice_index cores.items q) × (slice_index rooms q ≤ sdram + 1) },
}

// Where one vertex stands, and where its memory begins.
#[derive(Clone, Copy)]
pub struct Placed {
    pub spot: Spot,
    pub memory: u64,
}

// The least level of the curve whose square holds the machine's grid.
fn level_of(machine: &Machine) -> u32
    ensures level { IsCurveLevel machine.now result }
    ensures small { result ≤ 6 }
{
    let width = machine.width();
    let height = machine.height();
    let mut side = 1u8;
    for level in 0..6 {
        if width <= side && height <= side {
            return level;
        }
        side *= 2;
    }
    6
}

// The cores of a chip that are usable, as bits.
fn usable_cores(machine: &Machine, chip: Chip) -> u32
    ensures cores { AreCores (is_usable machine.now) chip result }
    ensures few { result < 2 ^ 18 }
{
    let mut cores = 0;
    for core in 0..CORES {
        if machine.usable(Spot { chip, core }) {
            cores = joined(cores, core);
        }
    }
    cores
}

// These cores, and one.
fn joined(cores: u32, core: u8) -> u32
    requires { (core < 18) × (cores < 2 ^ 18) }
    ensures { IsJoined cores core result }
{
    cores | 1 << core
}

// The least of these cores, and the others.
fn parted(cores: u32) -> (u8, u32)
    requires { (0 < cores) × (cores < 2 ^ 18) }
    ensures { IsParted cores result.0 result.1 }
{
    let least = cores.trailing_zeros();
    (least as u8, cores & !(1 << least))
}

// The room of a chip with these free cores, of whose memory so many bytes are left.
fn room_left(cores: u32, left: u32) -> u64
    ensures { result ≡ room_left cores left }
{
    if cores == 0 { 0 } else { u64::from(left) + 1 }
}

impl Board {
    ghost use Rattle.std.specs.Prelude.{◌≡◌, ℕ, ◌<◌, ◌∷◌, [], Some, length, slice_get, slice_index, IfOk, IfSome, IfNone};
    ghost use Rattle.place_fit.specs.Boards.{AreFreeOn, AreGiven, AreSettled, HasNoPlace, HasNoRoomAt, HasNoSpot, IsFilled, IsFreePlace, IsFreed, IsMadeWhole, IsPlaceWithRoom, IsPut, IsPutOnCore, IsWholeBoard};

    // The board of the usable cores of a machine.
    pub(crate) fn whole(alloc: Global, machine: &Machine) -> Result<Board, Memory>
        ensures whole { IfOk result IsWholeBoard }
        ensures free { IfOk result (AreFreeOn machine.now) }
    {
        let level = level_of(machine);
        let chips = curve(alloc, level)?;
        let sdram = machine.sdram();
        let mut cores = Vec::new(alloc);
        let mut rooms = Rooms::new(alloc, 2 * level)?;
        for (place, chip) in chips.as_slice().iter().enumerate() {
            let free = usable_cores(machine, *chip);
            cores.push(free)?;
            rooms.set(place, room_left(free, sdram));
        }
        Ok(Board {
            level,
            sdram,
            chips,
            cores,
            rooms,
        })
    }

    // Puts a vertex on the board: a device at its link, and any other on the least free core of the chip that is found.
    pub(crate) fn put(&mut self, machine: &Machine, vertex: &Vertex) -> Option<Placed>
        ensures placed { IfSome result (IsPut machine.now self.old self.new vertex.now) }
        ensures none { IfNone result (HasNoSpot machine.now self.old vertex.now) }
    {
        match vertex.device {
            Some(device) => at_link(machine, device),
            None => self.put_on_core(vertex),
        }
    }

    // Puts a vertex on the least free core of the chip that is found for it.
    pub(crate) fn put_on_core(&mut self, vertex: &Vertex) -> Option<Placed>
        ensures placed { IfSome result (IsPutOnCore self.old self.new vertex.now) }
        ensures none { IfNone result (HasNoPlace self.old vertex.now) }
        ensures kept { IfNone result (self.new ≡ self.old) }
    {
        let place = self.find(vertex)?;
        Some(self.fill(place, vertex.sdram))
    }

    // The place of the chip on which a vertex stands: the first with room, or that of the chip that it names.
    fn find(&self, vertex: &Vertex) -> Option<usize>
        ensures found { IfSome result (IsPlaceWithRoom self.now vertex.now) }
        ensures none { IfNone result (HasNoPlace self.now vertex.now) }
    {
        match vertex.at {
            None => self.rooms.first_above(u64::from(vertex.sdram)),
            Some(chip) => self.named(chip, vertex.sdram),
        }
    }

    // The place of a chip, if it has room.
    fn named(&self, chip: Chip, sdram: u32) -> Option<usize>
        ensures within { IfSome result (λ place. place < length self.now.chips) }
        ensures enough { IfSome result (λ place. sdram < slice_index self.now.rooms place) }
        ensures there { IfSome result (λ place. slice_get self.now.chips place ≡ Some chip) }
        ensures none { IfNone result (HasNoRoomAt self.now sdram chip) }
    {
        let place = self.place_of(chip)?;
        if self.rooms.get(place) > u64::from(sdram) {
            Some(place)
        } else {
            None
        }
    }

    // The place of a chip, if the board has it.
    fn place_of(&self, chip: Chip) -> Option<usize>
        ensures within { IfSome result (λ place. place < length self.now.chips) }
        ensures there { IfSome result (λ place. slice_get self.now.chips place ≡ Some chip) }
        ensures none { IfNone result ((q : ℕ) → slice_get self.now.chips q ≡ Some chip → ⊥) }
    {
        let side = 1 << self.level;
        if chip.x < side && chip.y < side {
            let at = OnSquare {
                level: self.level,
                chip,
            };
            Some(place_on_curve(at))
        } else {
            None
        }
    }

    // Puts a vertex that needs so many bytes on the least free core of the chip at a place.
    fn fill(&mut self, place: usize, sdram: u32) -> Placed
        requires { IsFreePlace self.old place sdram }
        ensures { IsFilled place sdram self.old self.new result }
    {
        let total = self.sdram;
        let chip = *self.chips.get(place);
        let (core, others) = parted(self.cores[place]);
        let left = self.rooms.get(place) - 1;
        self.cores[place] = others;
        self.rooms
            .set(place, room_left(others, (left - u64::from(sdram)) as u32));
        Placed {
            spot: Spot { chip, core },
            memory: begin_of(sdram, u64::from(total) - left),
        }
    }

    // The chips of these spots have all their memory.
    pub(crate) fn settle(&mut self, spots: &[Spot])
        ensures settled { AreSettled spots.now self.old self.new }
        ensures same { self.new.cores.items ≡ self.old.cores.items }
    {
        for spot in spots {
            self.settle_one(*spot);
        }
    }

    // The chip of the spot has all its memory.
    fn settle_one(&mut self, spot: Spot)
        ensures settled { AreSettled (spot ∷ []) self.old self.new }
        ensures same { self.new.cores.items ≡ self.old.cores.items }
    {
        if let Some(place) = self.place_of(spot.chip) {
            self.make_whole(place);
        }
    }

    // These cores are free, and their chips have all their memory.
    pub(crate) fn give(&mut self, spots: &[Spot])
        ensures { AreGiven spots.now self.old self.new }
    {
        for spot in spots {
            self.give_one(*spot);
        }
    }

    // The core is free, and its chip has all its memory.
    fn give_one(&mut self, spot: Spot)
        ensures { AreGiven (spot ∷ []) self.old self.new }
    {
        if let Some(place) = self.place_of(spot.chip) {
            self.free_core(place, spot.core);
            self.make_whole(place);
        }
    }

    // The core of the chip at a place is free, if the chip has that core.
    fn free_core(&mut self, place: usize, core: u8)
        requires { place < length self.old.chips }
        ensures { IsFreed place core self.old self.new }
    {
        if core < CORES {
            self.cores[place] = joined(self.cores[place], core);
        }
    }

    // The chip at a place has all its memory.
    fn make_whole(&mut self, place: usize)
        requires { place < length self.old.chips }
        ensures { IsMadeWhole place self.old self.new }
    {
        self.rooms
            .set(place, room_left(self.cores[place], self.sdram));
    }
}

// Where a device stands, which has room where its chip is live and its link is not: its number there is 18 + d for link d.
fn at_link(machine: &Machine, device: Edge) -> Option<Placed>
    ensures room { IfSome result (λ _. HasDeviceRoom machine.now device) }
    ensures spot { IfSome result (λ r. r.spot ≡ device_spot device) }
    ensures memory { IfSome result (λ r. r.memory ≡ 0) }
    ensures none { IfNone result (¬ HasDeviceRoom machine.now device) }
{
    if !machine.live(device.chip) || machine.link_live(device.chip, device.dir) {
        return None;
    }
    let spot = Spot {
        chip: device.chip,
        core: CORES + device.dir.number(),
    };
    Some(Placed { spot, memory: 0 })
}

// Where the memory of a vertex begins: behind what earlier vertices need, and at 0 if it needs none.
fn begin_of(sdram: u32, used: u64) -> u64
    ensures { result ≡ (if sdram == 0 then 0 else used) }
{
    if sdram == 0 { 0 } else { used }
}
