// The rows of one route, one after another.
ghost use Rattle.std.specs.Prelude.{◌≡◌, ◌<◌, ◌≤◌, ◌^◌, ℕ, suc, List, IfOk, OnOk, length};
ghost use Rattle.cover_merge.specs.Merge.{after};
ghost use Rattle.cover_merge.specs.Links.{place_of_route, AreRoutes, IsRouteAdded, IsEachOnce, AreNexts, AreNumbers, AreLinks};
ghost use Rattle.cover_merge.specs.Tried.{AreChangesFrom};

use crate::applying::replace_all;
use crate::merging::LegalMerge;
use crate::rivaled::RivaledRows;
use crate::times::Times;
use spin_base::Memory;
use std::alloc::Global;
use tern_word::Row;

/// For each row the place of the next row of its route, and for each route that of the first.
#[derive(Drop)]
pub(crate) struct Links {
    pub(crate) next: Vec<u32>,
    pub(crate) heads: Vec<u32>,
}

/// The rows of a table with their rivals, and the next row of the route of each.
#[derive(Clone, Copy)]
pub(crate) struct LinkedRows<'a> {
    pub(crate) table: RivaledRows<'a>,
    pub(crate) links: &'a Links,
    pub ghost nexts: { AreNexts table.rows.now links.now.next.items },
}

/// Row `k`, and for each row of its route behind it the next one that changed later.
#[derive(Clone, Copy)]
pub(crate) struct ChangesBehind<'a> {
    pub(crate) linked: LinkedRows<'a>,
    pub(crate) times: &'a [Times],
    pub(crate) newer: &'a [u32],
    pub(crate) k: u32,
    pub ghost behind: { AreChangesFrom k (suc k) linked.table.rows.now times.now linked.links.now.next.items newer.now },
}

/// The routes of the rows, each once.
pub(crate) fn routes_of(alloc: Global, rows: &[Row]) -> Result<Vec<u32>, Memory>
    ensures routes { IfOk result (λ v. AreRoutes rows.now v.items) }
    ensures once { IfOk result (λ v. IsEachOnce v.items) }
{
    let mut routes = Vec::new(alloc);
    for s in 0..rows.len() {
        add_route(&mut routes, rows[s].route.bits)?;
    }
    Ok(routes)
}

// Adds the route of these bits where it is not there yet.
#[tactic(auto, using(crate::proofs::LinkLemmas::added_last))]
fn add_route(routes: &mut Vec<u32>, bits: u32) -> Result<(), Memory>
    ensures { OnOk result (IsRouteAdded bits routes.old.items routes.new.items) }
{
    if number_of(routes, bits) == routes.len() {
        routes.push(bits)?;
    }
    Ok(())
}

/// The number of each row's route: its place among the routes.
#[tactic(auto, using(crate::proofs::LinkLemmas::numbers_made))]
pub(crate) fn numbers_of(alloc: Global, rows: &[Row], routes: &[u32]) -> Result<Vec<u32>, Memory>
    requires { length routes.now < 2 ^ 32 }
    ensures { IfOk result (λ v. AreRoutes rows.now routes.now → AreNumbers routes.now rows.now v.items) }
{
    let numbers = rows
        .iter()
        .map(|row| number_of(routes, row.route.bits) as u32);
    Ok(numbers.collect(alloc)?)
}

// The place of the route of these bits among the routes, and their number where it is not there.
#[tactic(auto, unfolding(crate::specs::Links::place_of_route))]
fn number_of(routes: &[u32], bits: u32) -> usize
    ensures value { result ≡ place_of_route routes.now bits }
    ensures bound { result ≤ length routes.now }
{
    routes.iter().take_while(|route| **route != bits).count()
}

/// The numbers of the rows of the table after the merge.
pub(crate) fn carry_numbers(merge: LegalMerge, numbers: &mut Vec<u32>)
    requires { length numbers.old.items ≡ length merge.rows.now }
    ensures { (routes : List ℕ) → AreNumbers routes merge.entry.rows.now numbers.old.items
        → AreNumbers routes (after merge.entry.rows.now merge.entry.gaps.places.now) numbers.new.items }
{
    let places = merge.gaps.places;
    let number = numbers[places[0] as usize];
    replace_all(numbers, merge.gaps, number);
}

/// The next row of the route of each row, and the first row of each route: the last row is linked first.
pub(crate) fn links_of(
    alloc: Global,
    rows: &[Row],
    numbers: &[u32],
    routes: &[u32],
) -> Result<Links, Memory>
    requires few { length rows.now < 2 ^ 32 }
    requires once { IsEachOnce routes.now }
    requires numbers { AreNumbers routes.now rows.now numbers.now }
    ensures { IfOk result (λ links. AreLinks routes.now rows.now links.next.items
        links.heads.items) }
{
    let none = rows.len() as u32;
    let mut heads = vec![in alloc; none; routes.len()]?;
    let mut next = vec![in alloc; none; numbers.len()]?;
    let mut k = numbers.len();
    while k > 0 {
        k -= 1;
        let number = numbers[k] as usize;
        next[k] = heads[number];
        heads[number] = k as u32;
    }
    Ok(Links { next, heads })
}
