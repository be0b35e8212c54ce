// The original blocks that do not go straight on, gathered some nets at a time.
ghost use Rattle.std.specs.Prelude.{◌≡◌, ◌<◌, ◌≤◌, ◌++◌, ◌∷◌, List, All, IfOk, OnOk, length, filter, slice_index_or, [], ℕ};
ghost use Rattle.spin_base.specs.Lookup.{straight_on};
ghost use Rattle.net_tables.specs.PlainTable.{AreRoutedApart};
ghost use Rattle.net_tables.specs.Marks.{AreApart, AreTurningBlocksOf, goes_straight, turns};
ghost use Rattle.net_tables.specs.declared.marks.Mark.{Mark};

use crate::gather::{RoutedPlans, empty_lists, marks_of};
use crate::marks::Mark;
use machine_desc::{Machine, NetPlan};
use spin_base::{Dir, Memory, Port, Route, Seq};
use std::alloc::Global;

// So many nets are gathered at a time.
const NETS_AT_A_TIME: usize = 64;

/// Of the original blocks of each chip, by the chip's index, those that do not go straight on, in the order of the nets. No
/// more are held at a time than these and the original blocks of a few nets.
#[tactic(auto, using(crate::proofs::Whole::few_turning))]
pub fn turning_blocks<'x>(
    alloc: Global,
    machine: &'x Machine,
    nets: &'x Seq<NetPlan>,
) -> Result<Seq<Seq<Mark>>, Memory>
    requires { AreRoutedApart machine.now nets.now }
    ensures blocks { IfOk result (AreTurningBlocksOf machine.now nets.now) }
    ensures few { IfOk result (All (λ (marks : List Mark). length marks ≤ length nets.now)) }
    ensures apart { IfOk result (All AreApart) }
{
    let lists = turning_lists(alloc, machine, nets)?;
    Ok(Seq::from_vec(lists))
}

// The same, some nets at a time.
fn turning_lists<'x>(
    alloc: Global,
    machine: &'x Machine,
    nets: &'x Seq<NetPlan>,
) -> Result<Vec<Seq<Mark>>, Memory>
    requires { AreRoutedApart machine.now nets.now }
    ensures { IfOk result (λ v. AreTurningBlocksOf machine.now nets.now v.items) }
{
    let plans = nets.as_slice();
    let mut kept = empty_lists(alloc, machine.chips())?;
    let mut done = 0;
    while done < plans.len() {
        let end = plans.len().min(done + NETS_AT_A_TIME);
        let some = RoutedPlans {
            machine,
            nets: &plans[done..end],
        };
        let lists = marks_of(alloc, some)?;
        add_turning(&lists, &mut kept)?;
        done = end;
    }
    Ok(kept)
}

// Puts the original blocks of each list that do not go straight on at the back of the list at the same place.
fn add_turning(lists: &[Seq<Mark>], kept: &mut Vec<Seq<Mark>>) -> Result<(), Memory>
    requires { length lists.now ≡ length kept.old.items }
    ensures long { OnOk result (length kept.new.items ≡ length kept.old.items) }
    ensures each { OnOk result ((i : ℕ) → i < length kept.old.items
        → slice_index_or kept.new.items i [] ≡ slice_index_or kept.old.items i [] ++ filter turns (slice_index_or lists.now i [])) }
{
    for i in 0..lists.len() {
        add_turns(lists[i].as_slice(), &mut kept[i])?;
    }
    Ok(())
}

// The same of one list.
fn add_turns(list: &[Mark], kept: &mut Seq<Mark>) -> Result<(), Memory>
    ensures { OnOk result (kept.new ≡ kept.old ++ filter turns list.now) }
{
    for mark in list {
        add_turn(*mark, kept)?;
    }
    Ok(())
}

// The same of one original block.
fn add_turn(mark: Mark, kept: &mut Seq<Mark>) -> Result<(), Memory>
    ensures { OnOk result (kept.new ≡ kept.old ++ filter turns (mark ∷ [])) }
{
    if goes_straight(mark.port, mark.route) {
        return Ok(());
    }
    kept.push(mark)
}

/// Whether what comes in at the port leaves by the route also where no entry matches.
pub fn goes_straight(port: Port, route: Route) -> bool
    ensures { result ≡ goes_straight port route }
{
    match port {
        Port::Link(arrival) => route.bits == straight_on(arrival).bits,
        Port::Local => false,
    }
}

// The route that has the link opposite an arrival link, and no other output.
fn straight_on(arrival: Dir) -> Route
    ensures { result ≡ straight_on arrival }
{
    match arrival {
        Dir::East => Route { bits: 8 },
        Dir::NorthEast => Route { bits: 16 },
        Dir::North => Route { bits: 32 },
        Dir::West => Route { bits: 1 },
        Dir::SouthWest => Route { bits: 2 },
        Dir::South => Route { bits: 4 },
    }
}
