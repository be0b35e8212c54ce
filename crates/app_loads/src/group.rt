// Deliveries of packets that came to the same vertices.
ghost use Rattle.std.specs.Prelude.{◌≡◌, ◌-◌, ◌≤◌, ◌++◌, ◌∷◌, [], All, List, IfOk, IfSome, OnOk, OnErr, length, map, slice_get, true, false};
ghost use Rattle.spin_base.specs.declared.copies.Delivery.{Delivery as ADelivery};
ghost use Rattle.app_loads.specs.Grouping.{HasPut, is_others_group, is_own_group};
ghost use Rattle.app_loads.specs.declared.group.Sent.{Sent as SentOnce};
ghost use Rattle.app_loads.specs.Groups.{EndsWith, arrival_of, deliveries_at, deliveries_in, delivery_of, sent_of};
ghost use Rattle.app_loads.specs.Leaving.{is_delivery_of};

use crate::arrivals::{Arrival, Arrivals};
use crate::leaving::is_packet_of;
use crate::loaded::LoadedApp;
use spin_base::{Delivery, McCopy, Memory, Seq};
use std::alloc::Global;
use std::marker::Model;

// What all copies of a packet have in common.
#[derive(Clone, Copy)]
pub struct Sent {
    pub packet: u32,
    pub key: u32,
    pub payload: Option<u32>,
}

// Packets, each of which came to the same vertices by as many routers, with the least and the greatest of their numbers.
#[derive(Drop)]
pub struct Group {
    sent: Seq<Sent>,
    arrivals: Arrivals,
    count: usize,
    least: u32,
    greatest: u32,
}

impl Model for Group {
    ghost use Rattle.app_loads.specs.Grouping.{Grouped};

    ghost Value = { Grouped };

    ghost use Rattle.app_loads.specs.Groups.{grouped_of, IsGroup};

    ghost view = { grouped_of };

    ghost invariant = { IsGroup };
}

impl Group {
    // The group of one delivery.
    pub(crate) fn of(alloc: Global, delivery: Delivery) -> Result<Group, Memory>
        ensures { IfOk result (λ group. group.deliveries ≡ delivery ∷ []) }
    {
        let mut sent = Seq::new(alloc);
        sent.push(sent_of(delivery.copy))?;
        Ok(Group {
            sent,
            arrivals: Arrivals::of(alloc, arrival_of(delivery))?,
            count: 1,
            least: delivery.copy.packet,
            greatest: delivery.copy.packet,
        })
    }

    // The group of a copy's packet, which came there.
    pub(crate) fn at(alloc: Global, copy: McCopy, arrivals: &Arrivals) -> Result<Group, Memory>
        ensures all { IfOk result (λ group.
            group.deliveries ≡ deliveries_at arrivals.now (sent_of copy)) }
        ensures arrivals { IfOk result (λ group. group.arrivals ≡ arrivals.now) }
    {
        let mut sent = Seq::new(alloc);
        sent.push(sent_of(copy))?;
        Ok(Group {
            sent,
            arrivals: arrivals.share()?,
            count: arrivals.len(),
            least: copy.packet,
            greatest: copy.packet,
        })
    }

    // How many deliveries it has.
    pub(crate) fn len(&self) -> usize
        ensures { result ≡ length self.now.deliveries }
    {
        self.count
    }

    // Puts a delivery at the back, where it is one of the only packet.
    pub(crate) fn extend(&mut self, delivery: Delivery) -> Result<bool, Memory>
        ensures put { IfOk result (λ put.
            HasPut put self.old.deliveries (delivery ∷ []) self.new.deliveries) }
        ensures refused { OnErr result (self.new.deliveries ≡ self.old.deliveries) }
    {
        if !is_only(self.sent.as_slice(), delivery.copy) {
            return Ok(false);
        }
        let Some(count) = self.count.checked_add(1) else {
            return Err(Memory);
        };
        if !self.arrivals.push(arrival_of(delivery))? {
            return Ok(false);
        }
        self.count = count;
        Ok(true)
    }

    // Where its packets came.
    pub(crate) fn arrivals(&self) -> &Arrivals
        ensures { result.now ≡ self.now.arrivals }
    {
        &self.arrivals
    }

    // Holds a list in place of its own, where both are the same. Answers whether it does.
    pub(crate) fn share(&mut self, arrivals: &Arrivals) -> bool
        ensures { self.new ≡ self.old }
    {
        if !self.arrivals.are_same(arrivals) {
            return false;
        }
        let Ok(shared) = arrivals.share() else {
            return false;
        };
        self.arrivals = shared;
        true
    }

    // Puts another group's deliveries at the back, where it has one packet, which came to the same vertices.
    pub(crate) fn join(&mut self, other: &Group) -> bool
        ensures { HasPut result self.old.deliveries other.now.deliveries self.new.deliveries }
    {
        let Some(sent) = only(other.sent.as_slice()) else {
            return false;
        };
        if !self.arrivals.are_same(&other.arrivals) {
            return false;
        }
        let Some(count) = self.count.checked_add(other.count) else {
            return false;
        };
        if self.sent.push(sent).is_err() {
            return false;
        }
        self.count = count;
        self.least = lesser(self.least, sent.packet);
        self.greatest = greater(self.greatest, sent.packet);
        true
    }

    // Whether its last deliveries, so many, are those of the copy's packet.
    #[tactic(auto, using(crate::proofs::GroupLaws::ends_with))]
    pub(crate) fn ends_with(&self, copy: McCopy, count: usize) -> bool
        ensures { result ≡ true → EndsWith self.now.deliveries self.now.arrivals (sent_of copy) count }
    {
        let width = self.arrivals.len();
        if width != count {
            return false;
        }
        is_last(self.sent.as_slice(), copy)
    }

    // Puts the copy's packet at the back, which came to the same vertices.
    pub(crate) fn repeat(&mut self, copy: McCopy) -> Result<(), Memory>
        ensures put { OnOk result (self.new.deliveries
            ≡ self.old.deliveries ++ deliveries_at self.old.arrivals (sent_of copy)) }
        ensures refused { OnErr result (self.new.deliveries ≡ self.old.deliveries) }
        ensures arrivals { self.new.arrivals ≡ self.old.arrivals }
    {
        let Some(count) = self.count.checked_add(self.arrivals.len()) else {
            return Err(Memory);
        };
        self.sent.push(sent_of(copy))?;
        self.count = count;
        self.least = lesser(self.least, copy.packet);
        self.greatest = greater(self.greatest, copy.packet);
        Ok(())
    }

    // Whether the least and the greatest packet are the application's: so all are.
    #[tactic(auto, using(crate::proofs::GroupLaws::own_all, std::proofs::lemmas::Bool::and_from))]
    pub(crate) fn is_own(&self, app: &LoadedApp) -> bool
        ensures own { result ≡ is_own_group app.now self.now }
        ensures all { result ≡ true
            → All (λ d. is_delivery_of app.now d ≡ true) self.now.deliveries }
    {
        is_packet_of(app, self.least) && is_packet_of(app, self.greatest)
    }

    // Whether both come before the application's packets, or both behind them: so none is the application's.
    #[tactic(auto, using(crate::proofs::GroupLaws::others_all, std::proofs::lemmas::Bool::Decides::nat_tests, std::proofs::lemmas::Bool::and_from))]
    pub(crate) fn is_others(&self, app: &LoadedApp) -> bool
        ensures others { result ≡ is_others_group app.now self.now }
        ensures none { result ≡ true
            → All (λ d. is_delivery_of app.now d ≡ false) self.now.deliveries }
    {
        self.greatest < app.first || (app.first <= self.least && !is_packet_of(app, self.least))
    }

    // Puts the deliveries at the back of a list.
    pub(crate) fn push_to(&self, list: &mut Seq<Delivery>) -> Result<(), Memory>
        ensures { OnOk result (list.new ≡ list.old ++ self.now.deliveries) }
    {
        push_packets(self.sent.as_slice(), self.arrivals.as_slice(), list)
    }
}

// Puts the deliveries of packets at the back of a list.
fn push_packets(sent: &[Sent], arrivals: &[Arrival], list: &mut Seq<Delivery>) -> Result<(), Memory>
    ensures { OnOk result (list.new ≡ list.old ++ deliveries_in sent.now arrivals.now) }
{
    for packet in sent {
        push_packet(*packet, arrivals, list)?;
    }
    Ok(())
}

// Puts a packet's deliveries at the back of a list.
fn push_packet(sent: Sent, arrivals: &[Arrival], list: &mut Seq<Delivery>) -> Result<(), Memory>
    ensures { OnOk result (list.new ≡ list.old ++ deliveries_at arrivals.now sent) }
{
    for arrival in arrivals {
        list.push(delivery_of(sent, *arrival))?;
    }
    Ok(())
}

fn lesser(a: u32, b: u32) -> u32
    ensures first { result ≤ a }
    ensures second { result ≤ b }
{
    if a < b { a } else { b }
}

fn greater(a: u32, b: u32) -> u32
    ensures first { a ≤ result }
    ensures second { b ≤ result }
{
    if a < b { b } else { a }
}

// The packet, where there is one alone.
fn only(sent: &[Sent]) -> Option<Sent>
    ensures { IfSome result (λ p. sent.now ≡ p ∷ []) }
{
    if sent.len() == 1 { Some(sent[0]) } else { None }
}

// Whether there is one packet alone, of which the copy is.
fn is_only(sent: &[Sent], copy: McCopy) -> bool
    ensures { result ≡ true → sent.now ≡ sent_of copy ∷ [] }
{
    match only(sent) {
        Some(sent) => is_of(sent, copy),
        None => false,
    }
}

// Whether the copy is of the last packet.
fn is_last(sent: &[Sent], copy: McCopy) -> bool
    ensures { result ≡ true → (before : List SentOnce) × (sent.now ≡ before ++ sent_of copy ∷ []) }
{
    match last(sent) {
        Some(last) => is_of(last, copy),
        None => false,
    }
}

fn last(sent: &[Sent]) -> Option<Sent>
    ensures { result ≡ slice_get sent.now (length sent.now - 1) }
{
    sent.last().copied()
}

fn sent_of(copy: McCopy) -> Sent
    ensures { result ≡ sent_of copy }
{
    Sent {
        packet: copy.packet,
        key: copy.key,
        payload: copy.payload,
    }
}

fn arrival_of(delivery: Delivery) -> Arrival
    ensures { result ≡ arrival_of delivery }
{
    Arrival {
        vertex: delivery.vertex,
        hop: delivery.copy.hop,
    }
}

fn delivery_of(sent: Sent, arrival: Arrival) -> Delivery
    ensures { result ≡ delivery_of sent arrival }
{
    Delivery {
        vertex: arrival.vertex,
        copy: McCopy {
            packet: sent.packet,
            key: sent.key,
            payload: sent.payload,
            hop: arrival.hop,
        },
    }
}

fn is_of(sent: Sent, copy: McCopy) -> bool
    ensures { result ≡ true → sent ≡ sent_of copy }
{
    sent.packet == copy.packet && sent.key == copy.key && sent.payload == copy.payload
}
