// What leaves a mesh with an application: its deliveries and dump records, once none of its packets is under way.
ghost use Rattle.std.specs.Prelude.{◌≡◌, not, filter, fold, IfOk, IfSome, IfNone, None};
ghost use Rattle.mesh_core.specs.State.{IsMesh};
ghost use Rattle.app_loads.specs.Running.{AreKnownIn};
ghost use Rattle.app_loads.specs.Leaving.{is_packet_of, is_delivery_of, is_record_of, IsPartedBy, IsLeastUnderWay, NoneUnderWay, lesser_of, own_packet, least_own_packet, packet_numbers_of, held_packets, unsent_numbers};

use crate::loaded::LoadedApp;
use mesh_core::{Hand, MeshParts};
use spin_base::{Delivery, DumpRec, Fifo, McCopy, Memory, Seq};
use std::alloc::Global;

/// What an application leaves: deliveries and dump records.
#[derive(Drop)]
pub struct Left {
    pub delivered: Seq<Delivery>,
    pub dumped: Seq<DumpRec>,
}

/// What an application leaves, and the deliveries and dump records of all others, which stay with the mesh.
#[derive(Drop)]
pub struct Parted {
    pub left: Left,
    pub delivered: Seq<Delivery>,
    pub dumped: Fifo<DumpRec>,
}

// The deliveries and dump records of the application's packets, and those of all others.
pub(crate) fn part(alloc: Global, parts: &MeshParts, app: &LoadedApp) -> Result<Parted, Memory>
    ensures { IfOk result (IsPartedBy app.now parts.now) }
{
    let (delivered, others_delivered) = part_deliveries(alloc, parts.delivered.as_slice(), app)?;
    let (dumped, others_dumped) = part_records(alloc, parts.dumped.as_slice(), app)?;
    Ok(Parted {
        left: Left { delivered, dumped },
        delivered: others_delivered,
        dumped: Fifo::from_seq(others_dumped),
    })
}

// The deliveries of the application's packets, and all others.
fn part_deliveries(
    alloc: Global,
    deliveries: &[Delivery],
    app: &LoadedApp,
) -> Result<(Seq<Delivery>, Seq<Delivery>), Memory>
    ensures { IfOk result (λ lists.
        (lists.0 ≡ filter (is_delivery_of app.now) deliveries.now)
        × (lists.1 ≡ filter (λ d. not (is_delivery_of app.now d)) deliveries.now)) }
{
    let all = deliveries.iter().copied();
    let own = all
        .filter(|d| is_packet_of(app, d.copy.packet))
        .collect(alloc)?;
    let all = deliveries.iter().copied();
    let others = all
        .filter(|d| !is_packet_of(app, d.copy.packet))
        .collect(alloc)?;
    Ok((Seq::from_vec(own), Seq::from_vec(others)))
}

// The dump records of the application's packets, and all others.
fn part_records(
    alloc: Global,
    records: &[DumpRec],
    app: &LoadedApp,
) -> Result<(Seq<DumpRec>, Seq<DumpRec>), Memory>
    ensures { IfOk result (λ lists.
        (lists.0 ≡ filter (is_record_of app.now) records.now)
        × (lists.1 ≡ filter (λ r. not (is_record_of app.now r)) records.now)) }
{
    let all = records.iter().copied();
    let own = all
        .filter(|r| is_packet_of(app, r.copy.packet))
        .collect(alloc)?;
    let all = records.iter().copied();
    let others = all
        .filter(|r| !is_packet_of(app, r.copy.packet))
        .collect(alloc)?;
    Ok((Seq::from_vec(own), Seq::from_vec(others)))
}

// Whether a packet number is one of the application's.
pub(crate) fn is_packet_of(app: &LoadedApp, packet: u32) -> bool
    ensures { result ≡ is_packet_of app.now packet }
{
    packet >= app.first && ((packet - app.first) as usize) < app.plan.packets.len()
}

// The least number of a packet of the application of which a copy is unsent or waits, if there is one. Where it is known that no
// copy waits, only the vertices that may have packets unsent are looked at.
pub(crate) fn least_waiting<'x>(
    parts: &'x MeshParts,
    senders: &'x Option<Seq<usize>>,
    app: &LoadedApp,
) -> Option<u32>
    requires { AreKnownIn parts.now senders.now }
    ensures some { IfSome result (IsLeastUnderWay parts.now app.now) }
    ensures none { IfNone result (NoneUnderWay parts.now app.now) }
{
    match senders {
        Some(known) => least_unsent(parts.unsent.as_slice(), known.as_slice(), app),
        None => least_of_all(parts, app),
    }
}

// The least of the application's packets that these vertices have not sent.
fn least_unsent(unsent: &[Fifo<McCopy>], vertices: &[usize], app: &LoadedApp) -> Option<u32>
    ensures { result ≡ fold (λ least vertex. lesser_of least
        (least_own_packet app.now (unsent_numbers unsent.now vertex))) None vertices.now }
{
    vertices.iter().fold(None, |least, vertex| {
        least_of_vertex(unsent, *vertex, app, least)
    })
}

// The lesser of the least so far and the least of the application's packets that a vertex has not sent.
fn least_of_vertex(
    unsent: &[Fifo<McCopy>],
    vertex: usize,
    app: &LoadedApp,
    so_far: Option<u32>,
) -> Option<u32>
    ensures { result
        ≡ lesser_of so_far (least_own_packet app.now (unsent_numbers unsent.now vertex)) }
{
    match unsent.get(vertex) {
        Some(queue) => least_in(queue.as_slice(), app, so_far),
        None => so_far,
    }
}

// The least of all packets of the application that are unsent or wait anywhere.
fn least_of_all(parts: &MeshParts, app: &LoadedApp) -> Option<u32>
    ensures some { IsMesh parts.now → IfSome result (IsLeastUnderWay parts.now app.now) }
    ensures none { IfNone result (NoneUnderWay parts.now app.now) }
{
    let least = least_in_queues(parts.unsent.as_slice(), app, None);
    let least = least_in_queues(parts.inputs.as_slice(), app, least);
    let least = least_in_hands(parts.hands.as_slice(), app, least);
    least_in_queues(parts.cores.as_slice(), app, least)
}

// The lesser of the least so far and the least of the application's packets in some queues.
fn least_in_queues(queues: &[Fifo<McCopy>], app: &LoadedApp, so_far: Option<u32>) -> Option<u32>
    ensures { result ≡ fold (λ least queue. lesser_of least
        (least_own_packet app.now (packet_numbers_of queue))) so_far queues.now }
{
    queues.iter().fold(
        so_far,
        |least, queue| least_in(queue.as_slice(), app, least),
    )
}

// The lesser of the least so far and the least of the application's packets in a queue.
fn least_in(copies: &[McCopy], app: &LoadedApp, so_far: Option<u32>) -> Option<u32>
    ensures { result ≡ lesser_of so_far (least_own_packet app.now (packet_numbers_of copies.now)) }
{
    copies
        .iter()
        .fold(so_far, |least, copy| lesser(copy.packet, app, least))
}

// The same of what routers hold in hand.
fn least_in_hands(hands: &[Option<Hand>], app: &LoadedApp, so_far: Option<u32>) -> Option<u32>
    ensures { result ≡ fold (λ least hand. lesser_of least
        (least_own_packet app.now (held_packets hand))) so_far hands.now }
{
    hands
        .iter()
        .fold(so_far, |least, hand| lesser_held(hand, app, least))
}

// The same of what one router holds in hand.
fn lesser_held(hand: &Option<Hand>, app: &LoadedApp, so_far: Option<u32>) -> Option<u32>
    ensures { result ≡ lesser_of so_far (least_own_packet app.now (held_packets hand.now)) }
{
    match hand {
        Some(hand) => lesser(hand.copy.packet, app, so_far),
        None => so_far,
    }
}

// The lesser of the least so far and the packet, where this is one of the application's.
fn lesser(packet: u32, app: &LoadedApp, so_far: Option<u32>) -> Option<u32>
    ensures { result ≡ lesser_of so_far (own_packet app.now packet) }
{
    if !is_packet_of(app, packet) {
        return so_far;
    }
    match so_far {
        Some(least) => Some(least.min(packet)),
        None => Some(packet),
    }
}
