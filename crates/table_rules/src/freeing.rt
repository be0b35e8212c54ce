// A route that no row has.
ghost use Rattle.std.specs.Prelude.{◌≡◌, ◌<◌, ◌≤◌, ◌-◌, ◌^◌, ℕ, All, Contains, IfOk, MatchOption, map};
ghost use Rattle.std.specs.List.Sorted.{IsNonDecreasing, IsPermutation};
ghost use Rattle.table_rules.specs.Exact.{HasAllRoutes, IsFree};
ghost use Rattle.table_rules.specs.declared.rows.RoutedBlock.{RoutedBlock};

use crate::rows::RoutedBlock;
use spin_base::{Memory, Route};
use std::alloc::Global;

// The greatest route of bits below the number that no row has, if there is one.
pub(crate) fn free_route(
    alloc: Global,
    given: &[RoutedBlock],
    routes: u32,
) -> Result<Option<Route>, Memory>
    requires { routes ≤ 2 ^ 24 }
    ensures { IfOk result (λ free. MatchOption free (HasAllRoutes routes given.now)
        (λ route. IsFree given.now route.bits)) }
{
    let mut bits = bits_of(alloc, given)?;
    bits.sort_unstable();
    let full = full_from(bits.as_slice(), routes);
    if full == 0 {
        return Ok(None);
    }
    Ok(Some(Route { bits: full - 1 }))
}

// The bits of the rows' routes.
fn bits_of(alloc: Global, given: &[RoutedBlock]) -> Result<Vec<u32>, Memory>
    ensures { IfOk result (λ bits. bits.items ≡ map (λ (r : RoutedBlock). r.route.bits) given.now) }
{
    Ok(given.iter().map(|row| row.route.bits).collect(alloc)?)
}

// From which number on each below `routes` is one of these, which are in ascending order.
fn full_from(bits: &[u32], routes: u32) -> u32
    requires { IsNonDecreasing bits.now }
    ensures below { result ≤ routes }
    ensures full { (b : ℕ) → result ≤ b → b < routes → Contains bits.now b }
    ensures free { 0 < result → All (λ b. b ≡ result - 1 → ⊥) bits.now }
{
    let mut full = routes;
    for k in 0..bits.len() {
        let at = bits[bits.len() - 1 - k];
        if full.saturating_sub(at) > 1 {
            return full;
        }
        full = full.min(at);
    }
    full
}
