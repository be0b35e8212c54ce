// Groups of deliveries, one after the other.
ghost use Rattle.std.specs.Prelude.{◌≡◌, ◌≤◌, ◌+◌, ◌^◌, ◌++◌, ◌∷◌, [], IfNone, IfOk, IfSome, OnOk, OnErr, filter, length, not, vec_capacity, vec_len, true, false};
ghost use Rattle.std.specs.List.{list_any};
ghost use Rattle.spin_base.specs.declared.copies.Delivery.{Delivery as ADelivery};
ghost use Rattle.app_loads.specs.Grouping.{CanPutOne, HasPut, all_grouped, is_mixed_group};
ghost use Rattle.app_loads.specs.Groups.{EndsWith, deliveries_at, last_arrivals, sent_of};
ghost use Rattle.app_loads.specs.Leaving.{is_delivery_of};
ghost use Rattle.app_loads.specs.Parting.{HasRoomFor};

use crate::arrivals::Arrivals;
use crate::group::Group;
use crate::loaded::LoadedApp;
use spin_base::{Delivery, McCopy, Memory, Seq};
use std::alloc::Global;
use std::marker::Model;

// Two lists with room for groups: those of an application, and those of all others.
#[derive(Drop)]
pub struct Room {
    pub own: Vec<Group>,
    pub others: Vec<Group>,
}

// Deliveries, in the order in which they came.
#[derive(Drop)]
pub struct Groups {
    pub groups: Vec<Group>,
}

impl Model for Groups {
    ghost use Rattle.std.specs.Prelude.{List};
    ghost use Rattle.app_loads.specs.Grouping.{Grouped};

    ghost Value = { List Grouped };

    ghost view = { λ g. g.groups.items };
}

impl Groups {
    // No delivery.
    pub(crate) fn new(alloc: Global) -> Groups
        ensures { result ≡ [] }
    {
        Groups {
            groups: Vec::new(alloc),
        }
    }

    // How many deliveries there are, if they can be counted. It takes time as the groups.
    pub(crate) fn count(&self) -> Option<usize>
        ensures some { IfSome result (λ count. count ≡ length (all_grouped self.now)) }
        ensures none { IfNone result (2 ^ 64 ≤ length (all_grouped self.now)) }
    {
        count_groups(&self.groups)
    }

    // Puts a delivery at the back. After a refusal the same were delivered as before.
    pub(crate) fn push(&mut self, alloc: Global, delivery: Delivery) -> Result<(), Memory>
        ensures put { OnOk result (all_grouped self.new ≡ all_grouped self.old ++ delivery ∷ []) }
        ensures refused { OnErr result (all_grouped self.new ≡ all_grouped self.old) }
    {
        push_last(alloc, &mut self.groups, delivery)
    }

    // Joins the last group to the one before, where its only packet came to the same vertices.
    pub(crate) fn join(&mut self)
        ensures { all_grouped self.new ≡ all_grouped self.old }
    {
        join_last(&mut self.groups);
    }

    // Whether the last deliveries, so many, are those of the copy's packet, which came to the vertices of the last group.
    #[tactic(auto, using(crate::proofs::GroupLaws::all_end))]
    pub(crate) fn ends_with(&self, copy: McCopy, last: usize) -> bool
        ensures { result ≡ true → EndsWith (all_grouped self.now) (last_arrivals self.now)
            (sent_of copy) last }
    {
        let count = self.groups.len();
        if count == 0 {
            return false;
        }
        self.groups[count - 1].ends_with(copy, last)
    }

    // Puts the copy's packet at the back, which came to the vertices of the last group.
    pub(crate) fn repeat(&mut self, copy: McCopy) -> Result<(), Memory>
        ensures put { OnOk result (all_grouped self.new ≡ all_grouped self.old
            ++ deliveries_at (last_arrivals self.old) (sent_of copy)) }
        ensures refused { OnErr result (all_grouped self.new ≡ all_grouped self.old) }
        ensures arrivals { last_arrivals self.new ≡ last_arrivals self.old }
    {
        repeat_last(&mut self.groups, copy)
    }

    // Puts the copy's packet at the back, which came there.
    #[tactic(auto, using(crate::proofs::GroupLaws::put_back, crate::proofs::GroupLaws::put_last_arrivals))]
    pub(crate) fn put(
        &mut self,
        alloc: Global,
        copy: McCopy,
        arrivals: &Arrivals,
    ) -> Result<(), Memory>
        ensures put { OnOk result (all_grouped self.new ≡ all_grouped self.old
            ++ deliveries_at arrivals.now (sent_of copy)) }
        ensures refused { OnErr result (all_grouped self.new ≡ all_grouped self.old) }
        ensures arrivals { OnOk result (last_arrivals self.new ≡ arrivals.now) }
    {
        self.groups.push(Group::at(alloc, copy, arrivals)?)?;
        Ok(())
    }

    // Where the packets of the last group came.
    #[tactic(auto, using(crate::proofs::GroupLaws::last_arrivals_are))]
    pub(crate) fn last_arrivals(&self) -> Option<&Arrivals>
        ensures { IfSome result (λ arrivals. arrivals.now ≡ last_arrivals self.now) }
    {
        let count = self.groups.len();
        if count == 0 {
            return None;
        }
        Some(self.groups[count - 1].arrivals())
    }

    // The last group holds a list in place of its own, where both are the same. Answers whether it does.
    #[tactic(auto, using(crate::proofs::GroupLaws::same_groups))]
    pub(crate) fn share(&mut self, arrivals: &Arrivals) -> bool
        ensures { self.new ≡ self.old }
    {
        let count = self.groups.len();
        if count == 0 {
            return false;
        }
        self.groups[count - 1].share(arrivals)
    }

    // Puts all deliveries at the back of a list.
    pub(crate) fn push_to(&self, list: &mut Seq<Delivery>) -> Result<(), Memory>
        ensures { OnOk result (list.new ≡ list.old ++ all_grouped self.now) }
    {
        push_groups(&self.groups, list)
    }

    // Whether it is not known of some group that it has the application's packets alone, or none of them.
    pub(crate) fn mixes(&self, app: &LoadedApp) -> bool
        ensures { result ≡ list_any (is_mixed_group app.now) self.now }
    {
        self.groups.iter().any(|group| is_mixed(group, app))
    }

    // Room for all groups in each of two lists.
    pub(crate) fn room(&self, alloc: Global) -> Result<Room, Memory>
        ensures { IfOk result (HasRoomFor self.now) }
    {
        let count = self.groups.len();
        Ok(Room {
            own: Vec::with_capacity(alloc, count)?,
            others: Vec::with_capacity(alloc, count)?,
        })
    }

    // The deliveries of the application's packets, and those of all others.
    #[tactic(auto, using(std::proofs::lemmas::Bool::or_parts))]
    pub(crate) fn part(self, app: &LoadedApp, room: Room) -> (Groups, Groups)
        requires unmixed { list_any (is_mixed_group app.now) self ≡ false }
        requires holds { HasRoomFor self room }
        ensures own { all_grouped result.0 ≡ filter (is_delivery_of app.now) (all_grouped self) }
        ensures others { all_grouped result.1
            ≡ filter (λ d. not (is_delivery_of app.now d)) (all_grouped self) }
    {
        let Groups { groups } = self;
        let Room {
            mut own,
            mut others,
        } = room;
        for group in groups {
            put_by(group, app, &mut own, &mut others);
        }
        (Groups { groups: own }, Groups { groups: others })
    }
}

// How many deliveries groups have, if they can be counted.
fn count_groups(groups: &[Group]) -> Option<usize>
    ensures some { IfSome result (λ count. count ≡ length (all_grouped groups.now)) }
    ensures none { IfNone result (2 ^ 64 ≤ length (all_grouped groups.now)) }
{
    let mut count = 0usize;
    for group in groups {
        count = count.checked_add(group.len())?;
    }
    Some(count)
}

// Puts the deliveries of groups at the back of a list.
fn push_groups(groups: &[Group], list: &mut Seq<Delivery>) -> Result<(), Memory>
    ensures { OnOk result (list.new ≡ list.old ++ all_grouped groups.now) }
{
    for group in groups {
        group.push_to(list)?;
    }
    Ok(())
}

// Whether neither is known of a group: that it has the application's packets alone, or none of them.
fn is_mixed(group: &Group, app: &LoadedApp) -> bool
    ensures { result ≡ is_mixed_group app.now group.now }
{
    !group.is_own(app) && !group.is_others(app)
}

// Puts a group into one of two lists: that of the application's, or that of all others.
fn put_by(group: Group, app: &LoadedApp, own: &mut Vec<Group>, others: &mut Vec<Group>)
    requires { CanPutOne app.now group (vec_len own.old) (vec_capacity own.old) (vec_len others.old)
        (vec_capacity others.old) }
    ensures own { all_grouped own.new.items
        ≡ all_grouped own.old.items ++ filter (is_delivery_of app.now) group.deliveries }
    ensures others { all_grouped others.new.items ≡ all_grouped others.old.items
        ++ filter (λ d. not (is_delivery_of app.now d)) group.deliveries }
    ensures own_length { vec_len own.new ≤ vec_len own.old + 1 }
    ensures others_length { vec_len others.new ≤ vec_len others.old + 1 }
    ensures own_room { vec_capacity own.new ≡ vec_capacity own.old }
    ensures others_room { vec_capacity others.new ≡ vec_capacity others.old }
{
    if group.is_own(app) {
        own.push_reserved(group);
        return;
    }
    // It is of others then.
    let is_others = group.is_others(app);
    prove!(is_others);
    others.push_reserved(group);
}

// Puts the copy's packet at the back of the last group.
#[tactic(auto, using(crate::proofs::GroupLaws::last_same_if, crate::proofs::GroupLaws::last_arrivals_stay, crate::proofs::GroupLaws::repeated, std::proofs::lemmas::Result::on_ok_weaker))]
fn repeat_last(groups: &mut Vec<Group>, copy: McCopy) -> Result<(), Memory>
    ensures put { OnOk result (all_grouped groups.new.items ≡ all_grouped groups.old.items
        ++ deliveries_at (last_arrivals groups.old.items) (sent_of copy)) }
    ensures refused { OnErr result (all_grouped groups.new.items ≡ all_grouped groups.old.items) }
    ensures arrivals { last_arrivals groups.new.items ≡ last_arrivals groups.old.items }
{
    let count = groups.len();
    if count == 0 {
        return Ok(());
    }
    groups[count - 1].repeat(copy)
}

// Puts a delivery at the back: into the last group, where it is of the same packet.
fn push_last(alloc: Global, groups: &mut Vec<Group>, delivery: Delivery) -> Result<(), Memory>
    ensures put { OnOk result (all_grouped groups.new.items
        ≡ all_grouped groups.old.items ++ delivery ∷ []) }
    ensures refused { OnErr result (all_grouped groups.new.items ≡ all_grouped groups.old.items) }
{
    if extend_last(groups, delivery)? {
        return Ok(());
    }
    join_last(groups);
    groups.push(Group::of(alloc, delivery)?)?;
    Ok(())
}

// Puts a delivery into the last group, where it is of its only packet.
#[tactic(auto, using(crate::proofs::GroupLaws::last_same_if))]
fn extend_last(groups: &mut Vec<Group>, delivery: Delivery) -> Result<bool, Memory>
    ensures put { IfOk result (λ put. HasPut put (all_grouped groups.old.items) (delivery ∷ [])
        (all_grouped groups.new.items)) }
    ensures refused { OnErr result (all_grouped groups.new.items ≡ all_grouped groups.old.items) }
{
    let count = groups.len();
    if count == 0 {
        return Ok(false);
    }
    groups[count - 1].extend(delivery)
}

// Makes one group of the last two, where the last has one packet, which came to the same vertices.
fn join_last(groups: &mut Vec<Group>)
    ensures { all_grouped groups.new.items ≡ all_grouped groups.old.items }
{
    let Some(last) = groups.pop() else {
        return;
    };
    if !joins_last(groups, &last) {
        groups.push_reserved(last);
    }
}

// Puts a group's deliveries into the last group of a list, where that is the same for its packet.
#[tactic(auto, using(crate::proofs::GroupLaws::last_put))]
fn joins_last(groups: &mut Vec<Group>, more: &Group) -> bool
    ensures joined { HasPut result (all_grouped groups.old.items) more.now.deliveries
        (all_grouped groups.new.items) }
    ensures length { vec_len groups.new ≡ vec_len groups.old }
    ensures room { vec_capacity groups.new ≡ vec_capacity groups.old }
{
    let count = groups.len();
    if count == 0 {
        return false;
    }
    groups[count - 1].join(more)
}
