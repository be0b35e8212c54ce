// What a generated job draws.
ghost use Rattle.std.specs.Prelude.{◌≡◌, ◌<◌, ◌/◌, ◌+◌, length, All, IfOk};
ghost use Rattle.job_gen.specs.Draws.{seeded, draw, draws, drawn_net, drawn_packet, drawn, NeedsKey};

use rand_core::SeedableRng;
use rand_core::utils::NextWord;
use rand_xoshiro::Xoshiro256PlusPlus;
use spin_base::{Memory, Seq};
use std::alloc::Global;

/// The number of vertices of a generated job.
pub const VERTICES: u32 = 200;

/// The number of its nets.
pub const NETS: usize = 300;

/// The number of its packets, four for each net.
pub const PACKETS: usize = 1200;

/// A net as it was drawn: its source, its targets, and how many keys it needs.
#[derive(Drop)]
pub struct DrawnNet {
    pub source: u32,
    pub targets: Seq<u32>,
    pub keys: u32,
}

// All nets as they were drawn.
#[derive(Clone, Copy)]
struct AllNets<'a> {
    nets: &'a [DrawnNet],
    ghost many: { length nets.now ≡ 300 },
    ghost keys: { All NeedsKey nets.now },
}

/// A packet as it was drawn: its net, its index in the net's keys, and its payload.
#[derive(Clone, Copy)]
pub struct DrawnPacket {
    pub net: u32,
    pub index: u32,
    pub payload: u32,
}

/// All that was drawn: the memory of each vertex, the nets, and the packets.
#[derive(Drop)]
pub struct Drawn {
    pub sdrams: Seq<u32>,
    pub nets: Seq<DrawnNet>,
    pub packets: Seq<DrawnPacket>,
}

/// What the generator that a number seeds gives for a job.
///
/// # Errors
///
/// `Memory` where memory runs out.
pub fn draw_job(alloc: Global, n: u64) -> Result<Drawn, Memory>
    ensures { IfOk result (λ job. job ≡ drawn n) }
{
    let mut generator = Xoshiro256PlusPlus::seed_from_u64(n);
    let sdrams = draw_numbers(alloc, &mut generator, VERTICES, 1_048_576)?;
    let nets = draw_nets(alloc, &mut generator)?;
    let all = AllNets {
        nets: nets.as_slice(),
    };
    let packets = draw_packets(alloc, &mut generator, all)?;
    Ok(Drawn {
        sdrams,
        nets,
        packets,
    })
}

// The next word modulo m.
fn draw(generator: &mut Xoshiro256PlusPlus, m: u64) -> u64
    requires { 0 < m }
    ensures drawn { (result, generator.new) ≡ draw m generator.old }
    ensures below { result < m }
{
    generator.next_word() % m
}

// So many numbers, each this one at most.
fn draw_numbers(
    alloc: Global,
    generator: &mut Xoshiro256PlusPlus,
    count: u32,
    most: u32,
) -> Result<Seq<u32>, Memory>
    ensures { IfOk result (λ numbers. (numbers, generator.new)
        ≡ draws (λ i. draw (most + 1)) count generator.old) }
{
    let mut numbers = Vec::new(alloc);
    for i in 0..count {
        let number = draw(generator, u64::from(most) + 1) as u32;
        numbers.push(number)?;
    }
    Ok(Seq::from_vec(numbers))
}

// The nets.
fn draw_nets(alloc: Global, generator: &mut Xoshiro256PlusPlus) -> Result<Seq<DrawnNet>, Memory>
    ensures { IfOk result (λ nets. (nets, generator.new) ≡ draws drawn_net 300 generator.old) }
{
    let mut nets = Vec::new(alloc);
    for i in 0..NETS {
        let net = draw_net(alloc, generator)?;
        nets.push(net)?;
    }
    Ok(Seq::from_vec(nets))
}

// One net.
fn draw_net(alloc: Global, generator: &mut Xoshiro256PlusPlus) -> Result<DrawnNet, Memory>
    ensures { IfOk result (λ net. (net, generator.new) ≡ drawn_net 0 generator.old) }
{
    let source = draw(generator, 200) as u32;
    let count = 1 + draw(generator, 8) as u32;
    let targets = draw_numbers(alloc, generator, count, 199)?;
    let keys = 1 + draw(generator, 16) as u32;
    Ok(DrawnNet {
        source,
        targets,
        keys,
    })
}

// The packets of these nets.
fn draw_packets(
    alloc: Global,
    generator: &mut Xoshiro256PlusPlus,
    all: AllNets,
) -> Result<Seq<DrawnPacket>, Memory>
    ensures { IfOk result (λ packets. (packets, generator.new)
        ≡ draws (drawn_packet all.entry.nets.now) 1200 generator.old) }
{
    let mut packets = Vec::new(alloc);
    for i in 0..PACKETS {
        let packet = draw_packet(generator, all, i);
        packets.push(packet)?;
    }
    Ok(Seq::from_vec(packets))
}

// The packet of a number.
fn draw_packet(generator: &mut Xoshiro256PlusPlus, all: AllNets, i: usize) -> DrawnPacket
    requires { i < 1200 }
    ensures { (result, generator.new) ≡ drawn_packet all.entry.nets.now i generator.old }
{
    let net = i / 4;
    let index = draw(generator, u64::from(all.nets[net].keys)) as u32;
    let payload = draw(generator, 4_294_967_296) as u32;
    DrawnPacket {
        net: net as u32,
        index,
        payload,
    }
}
