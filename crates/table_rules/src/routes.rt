// The routes of pieces, by their weights.
ghost use Rattle.std.specs.Prelude.{◌≡◌, ◌<◌, ◌%◌, ◌^◌, ◌↔◌, ℕ, AllPairs, Contains, IfOk, map};
ghost use Rattle.spin_base.specs.declared.routes.Route.{Route};
ghost use Rattle.table_rules.specs.Pairs.{AreRoutesOf, weight_of};
ghost use Rattle.table_rules.specs.declared.rows.RoutedBlock.{RoutedBlock};

use crate::pieces::goes_by;
use crate::rows::RoutedBlock;
use spin_base::{Memory, Route};
use std::alloc::Global;

/// How many routes there are.
pub(crate) const ROUTES: u32 = 16777216;

// The routes of the pieces, each once: first those of few pieces, and of as many those of small bits.
pub(crate) fn routes_of(alloc: Global, pieces: &[RoutedBlock]) -> Result<Vec<Route>, Memory>
    ensures { IfOk result (λ routes. AreRoutesOf pieces.now routes.items) }
{
    let mut weights = weights_of(alloc, pieces)?;
    each_weight_once(&mut weights);
    routes_at(alloc, weights.as_slice())
}

// What the route of each piece weighs.
fn weights_of(alloc: Global, pieces: &[RoutedBlock]) -> Result<Vec<u128>, Memory>
    ensures { IfOk result (λ weights. weights.items
        ≡ map (λ (p : RoutedBlock). weight_of pieces.now p.route) pieces.now) }
{
    let weights = pieces.iter().map(|piece| weight_of(pieces, piece.route));
    Ok(weights.collect(alloc)?)
}

// What a route weighs: how many pieces it has, and then its bits.
fn weight_of(pieces: &[RoutedBlock], route: Route) -> u128
    ensures { result ≡ weight_of pieces.now route }
{
    let count = pieces.iter().filter(|piece| goes_by(route, piece)).count() as u128;
    count * u128::from(ROUTES) + u128::from(route.bits)
}

// Puts weights in ascending order, each once.
fn each_weight_once(weights: &mut Vec<u128>)
    ensures rising { AllPairs (λ a b. a < b) weights.new.items }
    ensures same { (w : ℕ) → Contains weights.new.items w ↔ Contains weights.old.items w }
{
    weights.sort_unstable();
    weights.dedup();
}

// The routes that have the weights.
fn routes_at(alloc: Global, weights: &[u128]) -> Result<Vec<Route>, Memory>
    ensures { IfOk result (λ routes. map (λ (r : Route). r.bits) routes.items
        ≡ map (λ w. w % 2 ^ 24) weights.now) }
{
    let mut routes = Vec::new(alloc);
    for weight in weights {
        let bits = (*weight % u128::from(ROUTES)) as u32;
        routes.push(Route { bits })?;
    }
    Ok(routes)
}
