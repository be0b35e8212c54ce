// Spans of aliases. A row that was merged may stand for thousands of them, and most lie far from a block. So each thirty-two of
// them in a row have a block around them, and are looked at only where it is met.
ghost use Rattle.std.specs.Prelude.{◌+◌, ◌<◌, ◌≤◌, ℕ, All, IfOk, MatchOption, length, slice_index_or};
ghost use Rattle.tern_word.specs.declared.tables.Alias.{Alias as AnAlias};
ghost use Rattle.tern_word.specs.Ternary.{Intersects, LiesIn};
ghost use Rattle.cover_merge.specs.Spans.{AreSpansOf, AreSpansOfAll, IsFirstAt, IsFreeUpTo};

use spin_base::{Block, Memory, Seq};
use std::alloc::Global;
use tern_word::{Alias, Row, intersects, merge_two};

// How many aliases have a span together.
const TOGETHER: usize = 32;

/// Aliases with their spans.
#[derive(Clone, Copy)]
pub(crate) struct SpannedAliases<'a> {
    pub(crate) aliases: &'a [Alias],
    pub(crate) spans: &'a [Block],
    pub ghost are: { AreSpansOf aliases.now spans.now },
}

/// The spans of the aliases of each row.
pub(crate) fn spans_of_all(alloc: Global, rows: &[Row]) -> Result<Vec<Seq<Block>>, Memory>
    ensures { IfOk result (λ v. AreSpansOfAll rows.now v.items) }
{
    let mut spans = Vec::with_capacity(alloc, rows.len())?;
    for s in 0..rows.len() {
        let own = spans_of(alloc, rows[s].aliases.as_slice())?;
        spans.push(own)?;
    }
    Ok(spans)
}

/// The spans of the aliases. Those behind the last span are fewer than have one together.
pub(crate) fn spans_of(alloc: Global, aliases: &[Alias]) -> Result<Seq<Block>, Memory>
    ensures { IfOk result (AreSpansOf aliases.now) }
{
    let mut spans = Seq::new(alloc);
    for k in 0..aliases.len() / TOGETHER {
        spans.push(span_from(aliases, k * TOGETHER))?;
    }
    Ok(spans)
}

// The least block that has all keys of those that have a span together from this one on.
#[tactic(auto, using(crate::proofs::SpanLemmas::span_more))]
fn span_from(aliases: &[Alias], from: usize) -> Block
    requires { from + 32 ≤ length aliases.now }
    ensures { (i : ℕ) (d : AnAlias) → from ≤ i → i < from + 32
        → LiesIn (slice_index_or aliases.now i d).block result }
{
    let mut span = aliases[from].block;
    for i in from + 1..from + TOGETHER {
        span = merge_two(span, aliases[i].block);
    }
    span
}

/// The number of the first of the aliases that the block meets.
pub(crate) fn first_met(spanned: SpannedAliases, block: Block) -> Option<usize>
    ensures { MatchOption result (All (λ a. ¬ (Intersects block a.block)) spanned.entry.aliases.now)
        (IsFirstAt block spanned.entry.aliases.now 0 (length spanned.entry.aliases.now)) }
{
    let aliases = spanned.aliases;
    let spans = spanned.spans;
    for k in 0..spans.len() {
        if !intersects(block, spans[k]) {
            continue;
        }
        let from = k * TOGETHER;
        if let Some(met) = first_between(aliases, from, from + TOGETHER, block) {
            return Some(met);
        }
    }
    first_between(aliases, spans.len() * TOGETHER, aliases.len(), block)
}

// The number of the first of the aliases from `from` up to `to` that the block meets.
fn first_between(aliases: &[Alias], from: usize, to: usize, block: Block) -> Option<usize>
    requires { to ≤ length aliases.now }
    ensures { MatchOption result (IsFreeUpTo block aliases.now from to) (IsFirstAt block aliases.now from to) }
{
    for i in from..to {
        if intersects(block, aliases[i].block) {
            return Some(i);
        }
    }
    None
}
