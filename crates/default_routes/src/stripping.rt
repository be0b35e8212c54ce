// Leaving out the rows that default routing replaces.
ghost use Rattle.std.specs.Prelude.{◌≡◌, ◌<◌, ◌^◌, IfOk, All, AllPairs, MatchOption, MatchBool, length, map, true};
ghost use Rattle.tern_word.specs.Entries.{entry_of};
ghost use Rattle.tern_word.specs.SoundTable.{IsSound, Misses, served};
ghost use Rattle.cover_merge.specs.Merge.{rows_at};
ghost use Rattle.spin_base.specs.Lookup.{straight_on};
ghost use Rattle.spin_base.specs.declared.chips.Dir.{Dir};
ghost use Rattle.spin_base.specs.declared.chips.Port.TheVariants.{Link};
ghost use Rattle.default_routes.specs.KeptRows.{IsStrippable, AreKept, ArePlaces, RoutesAll, Routes};

use spin_base::{Dir, Entry, Memory, Port, Seq, Shared};
use std::alloc::Global;
use tern_word::{Alias, Row, misses};

/// The entries that are loaded of a table, in its order.
#[derive(Drop)]
pub struct Final {
    pub entries: Seq<Entry>,
}

impl Shared for Final {}

/// The rows of a sound table, fewer than 2^32.
#[derive(Clone, Copy)]
pub struct RowsToStrip<'a> {
    pub rows: &'a [Row],
    pub ghost few: { length rows.now < 2 ^ 32 },
    pub ghost sound: { IsSound rows.now },
}

/// Some places of rows.
#[derive(Clone, Copy)]
pub struct RowsAt<'a> {
    pub rows: &'a [Row],
    pub places: &'a [u32],
    pub ghost in_range: { All (λ s. s < length rows.now) places.now },
}

/// The places of the rows that default routing does not replace, ascending. From the last row to the first, a row goes where its
/// route is one link, each alias arrives at the opposite link, and no later kept row meets an alias of it.
pub fn strip(alloc: Global, sound: RowsToStrip) -> Result<Seq<u32>, Memory>
    ensures kept { IfOk result (AreKept sound.entry.rows.now) }
    ensures places { IfOk result (ArePlaces sound.entry.rows.now) }
    ensures routes { IfOk result (RoutesAll sound.entry.rows.now) }
    ensures serves { IfOk result (λ kept. All (λ o. Routes (rows_at sound.entry.rows.now kept) o)
        (served sound.entry.rows.now)) }
{
    let kept = kept_places(alloc, sound)?;
    Ok(kept)
}

// The final table of the entries of the rows at these places.
pub(crate) fn final_at(alloc: Global, at: RowsAt) -> Result<Final, Memory>
    ensures { IfOk result (λ f.
        f.entries ≡ map entry_of (rows_at at.entry.rows.now at.entry.places.now)) }
{
    let mut entries = Seq::new(alloc);
    for place in at.places {
        entries.push(at.rows[*place as usize].entry())?;
    }
    Ok(Final { entries })
}

// The places of the kept rows, ascending: found from the last row to the first, and then turned round.
fn kept_places(alloc: Global, sound: RowsToStrip) -> Result<Seq<u32>, Memory>
    ensures { IfOk result (AreKept sound.entry.rows.now) }
{
    let apart = are_apart(sound);
    let mut kept = Vec::new(alloc);
    let mut i = sound.rows.len();
    while i > 0 {
        i -= 1;
        let later = RowsAt {
            rows: sound.rows,
            places: &kept,
        };
        if !can_go(&sound.rows[i], later, apart) {
            kept.push(i as u32)?;
        }
    }
    kept.reverse();
    Ok(Seq::from_vec(kept))
}

// Whether all rows have one mask, and their keys ascend: then no row meets an alias of another.
fn are_apart(sound: RowsToStrip) -> bool
    ensures { result ≡ true → AllPairs (λ (r s : Row). Misses s.block r) sound.entry.rows.now }
{
    let rows = sound.rows;
    !rows.is_empty() && keys_ascend(rows, rows[0].block.mask)
}

// Whether all rows have this mask, and their keys ascend.
fn keys_ascend(rows: &[Row], mask: u32) -> bool
    ensures { result ≡ true → AllPairs (λ (r s : Row). r.block.key < s.block.key) rows.now
        × All (λ (r : Row). r.block.mask ≡ mask) rows.now }
{
    let mut least = 0;
    for row in rows {
        if row.block.mask != mask {
            return false;
        }
        let key = u64::from(row.block.key);
        if key < least {
            return false;
        }
        least = key + 1;
    }
    true
}

// Whether the row can go, where these later rows are kept. Where rows are apart, none of them meets it.
fn can_go(row: &Row, kept: RowsAt, apart: bool) -> bool
    ensures { (apart ≡ true → All (λ r. Misses r.block row.now)
        (rows_at kept.entry.rows.now kept.entry.places.now))
        → MatchBool result
        (IsStrippable row.now (rows_at kept.entry.rows.now kept.entry.places.now))
        (IsStrippable row.now (rows_at kept.entry.rows.now kept.entry.places.now) → ⊥) }
{
    match arrival_of(row.route.bits) {
        Some(arrival) => {
            all_arrive(row.aliases.as_slice(), arrival) && is_clear(row, kept, apart)
        }
        None => false,
    }
}

// The arrival link whose packets go on by the one link of the route of these bits, where the route is one link.
fn arrival_of(bits: u32) -> Option<Dir>
    ensures { MatchOption result ((d : Dir) → (straight_on d).bits ≡ bits
        → ⊥) (λ d. (straight_on d).bits ≡ bits) }
{
    match bits {
        1 => Some(Dir::West),
        2 => Some(Dir::SouthWest),
        4 => Some(Dir::South),
        8 => Some(Dir::East),
        16 => Some(Dir::NorthEast),
        32 => Some(Dir::North),
        _ => None,
    }
}

// Whether all aliases arrive by the link.
fn all_arrive(aliases: &[Alias], arrival: Dir) -> bool
    ensures { MatchBool result (All (λ a. a.port ≡ Link arrival) aliases.now) (All (λ a. a.port
        ≡ Link arrival) aliases.now → ⊥) }
{
    for alias in aliases {
        if !is_link(alias.port, arrival) {
            return false;
        }
    }
    true
}

// Whether the port is that link.
fn is_link(port: Port, link: Dir) -> bool
    ensures { MatchBool result (port ≡ Link link) (port ≡ Link link → ⊥) }
{
    match port {
        Port::Link(other) => other.number() == link.number(),
        Port::Local => false,
    }
}

// The same as `all_clear`, which need not be asked where rows are apart.
fn is_clear(row: &Row, kept: RowsAt, apart: bool) -> bool
    ensures { (apart ≡ true → All (λ r. Misses r.block row.now)
        (rows_at kept.entry.rows.now kept.entry.places.now))
        → MatchBool result (All (λ r. Misses r.block row.now)
        (rows_at kept.entry.rows.now kept.entry.places.now))
        (All (λ r. Misses r.block row.now)
        (rows_at kept.entry.rows.now kept.entry.places.now) → ⊥) }
{
    apart || all_clear(row, kept)
}

// Whether no row at the places meets an alias of the row.
fn all_clear(row: &Row, at: RowsAt) -> bool
    ensures { MatchBool result (All (λ r. Misses r.block row.now)
        (rows_at at.entry.rows.now at.entry.places.now))
        (All (λ r. Misses r.block row.now)
        (rows_at at.entry.rows.now at.entry.places.now) → ⊥) }
{
    for s in at.places {
        if !misses(at.rows[*s as usize].block, row) {
            return false;
        }
    }
    true
}
