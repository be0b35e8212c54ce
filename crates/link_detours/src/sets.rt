// Sets of chips as bits: one word a column of chips, and bit y of it is of the chip at y.
ghost use Rattle.std.specs.Prelude.{◌≡◌, ◌<◌, ◌≤◌, ◌+◌, ◌*◌, ◌-◌, ◌^◌, ◌↔◌, ℕ, length, All, IfOk, IsTrue, Some, Bool, true, false, slice_index};
ghost use Rattle.std.specs.Int.{bit_at};
ghost use Rattle.spin_base.specs.declared.chips.Chip.{Chip};
ghost use Rattle.spin_base.specs.declared.chips.Dir.{Dir};
ghost use Rattle.spin_base.specs.Links.{dir_number};
ghost use Rattle.machine_desc.specs.declared.steps.Step.{Step};
ghost use Rattle.machine_desc.specs.Live.{IsInside, IsLiveLink, far_of, x_step, y_step, stepped};
ghost use Rattle.machine_desc.specs.RoutingTree.{IsTreeChip};
ghost use Rattle.link_detours.specs.Waves.{IsIn, HasBitOf, IsEmptySet, LeadsInto, IsSpread, IsSpreadBut, IsSpreadAt};

use crate::grounds::{Column, Front, GroundedTree, Ring};
use machine_desc::Machine;
use spin_base::{Chip, Dir, Memory};
use std::alloc::Global;

// Whether the set has the chip.
pub(crate) fn has(set: &[u64], c: Chip) -> bool
    requires { HasBitOf set.now c }
    ensures { IsTrue result ↔ IsIn set.now c }
{
    (set[usize::from(c.x)] >> c.y) & 1 == 1
}

// Puts the chip into the set.
pub(crate) fn put(set: &mut [u64], c: Chip)
    requires { HasBitOf set.old c }
    ensures here { IsIn set.new c }
    ensures others { (e : Chip) → (e ≡ c → ⊥)
        → bit_at (slice_index set.new e.x) e.y ≡ bit_at (slice_index set.old e.x) e.y }
{
    set[usize::from(c.x)] |= 1 << c.y;
}

// A set without chips.
pub(crate) fn empty_set(alloc: Global, machine: &Machine) -> Result<Vec<u64>, Memory>
    ensures { IfOk result (λ v. IsEmptySet machine.now v.items) }
{
    let words = vec![in alloc; 0; usize::from(machine.width())]?;
    Ok(words)
}

// Puts the chips of the tree that these edges make into an empty set.
pub(crate) fn put_tree(edges: GroundedTree, set: &mut [u64])
    requires { IsEmptySet edges.ground.machine.now set.old }
    ensures { (c : Chip) → IsIn set.new c
        ↔ IsTreeChip edges.entry.ground.machine.now edges.entry.root edges.entry.list.now c }
{
    put(set, edges.root);
    for edge in edges.list {
        if let Some(far) = edges.ground.machine.far(edge.chip, edge.dir) {
            put(set, far);
        }
    }
}

// The word turned by one: bit y is what bit y + 1 was, and the last what the first was.
fn up(ring: Ring, word: u64) -> u64
    ensures inside { (y : ℕ) → y + 1 < ring.size → bit_at result y ≡ bit_at word (y + 1) }
    ensures round { (y : ℕ) → y + 1 ≡ ring.size → bit_at result y ≡ bit_at word 0 }
{
    let top: u64 = 1 << (ring.size - 1);
    ((word >> 1) & (top - 1)) | ((word & 1) << (ring.size - 1))
}

// The word turned by one the other way.
fn down(ring: Ring, word: u64) -> u64
    ensures inside { (y : ℕ) → 0 < y → y < ring.size → bit_at result y ≡ bit_at word (y - 1) }
    ensures round { bit_at result 0 ≡ bit_at word (ring.size - 1) }
{
    (word << 1) | ((word >> (ring.size - 1)) & 1)
}

// The word turned so that bit y is of the coordinate to which the link leads from y.
#[inline(always)]
fn turned(ring: Ring, word: u64, d: Dir) -> u64
    ensures { (wrap : Bool) (y k : ℕ) → y < ring.size → stepped wrap ring.size (y_step d) y ≡ Some k
        → bit_at result y ≡ bit_at word k }
{
    match d {
        Dir::NorthEast | Dir::North => up(ring, word),
        Dir::East | Dir::West => word,
        Dir::SouthWest | Dir::South => down(ring, word),
    }
}

// A column of so many.
#[derive(Clone, Copy)]
struct ColumnPlace {
    width: usize,
    x: usize,
    ghost within: { x < width },
}

// The column to which the link leads.
#[inline(always)]
fn column_beyond(at: ColumnPlace, d: Dir) -> usize
    ensures below { result < at.width }
    ensures column { (wrap : Bool) (k : ℕ)
        → stepped wrap at.width (x_step d) at.x ≡ Some k → result ≡ k }
{
    let ColumnPlace { width, x } = at;
    match d {
        Dir::East | Dir::NorthEast => if x + 1 < width { x + 1 } else { 0 },
        Dir::North | Dir::South => x,
        Dir::West | Dir::SouthWest => if x > 0 { x - 1 } else { width - 1 },
    }
}

// Of a column's chips those whose link leads, live, to a chip of the set.
#[inline(always)]
fn leading(column: Column, d: Dir) -> u64
    ensures { (y : ℕ) → y < column.entry.front.ground.machine.now.height
        → (bit_at result y ≡ 1) ↔ LeadsInto column.entry.front.ground.machine.now
        column.entry.front.set.now (record { x = column.entry.x; y = y }) d }
{
    let front = column.front;
    let set = front.set;
    let x = column.x as usize;
    let rows = Ring {
        size: front.ground.machine.height(),
    };
    let at = ColumnPlace {
        width: set.len(),
        x,
    };
    turned(rows, set[column_beyond(at, d)], d) & front.ground.roads.word(x, d)
}

// Of a column's chips those of the set, and those from which a live link leads to one of the set.
fn spread_word(column: Column) -> u64
    ensures rises { slice_index column.entry.front.set.now column.entry.x ≤ result }
    ensures old { (y : ℕ) → bit_at (slice_index column.entry.front.set.now column.entry.x) y ≡ 1
        → bit_at result y ≡ 1 }
    ensures new { (y : ℕ) (d : Dir) → y < column.entry.front.ground.machine.now.height
        → LeadsInto column.entry.front.ground.machine.now column.entry.front.set.now
        (record { x = column.entry.x; y = y }) d
        → bit_at result y ≡ 1 }
    ensures only { (y : ℕ) → y < column.entry.front.ground.machine.now.height
        → bit_at result y ≡ 1 → IsSpread column.entry.front.ground.machine.now
        column.entry.front.set.now (record { x = column.entry.x; y = y }) }
{
    let mut word = column.front.set[column.x as usize];
    for d in Dir::ALL {
        word |= leading(column, d);
    }
    word
}

// The word with the column named, where it is to be.
fn with_column(columns: u64, column: Column, named: bool) -> u64
    ensures same { (k : ℕ) → bit_at columns k ≡ 1 → bit_at result k ≡ 1 }
    ensures named { named ≡ true → bit_at result column.entry.x ≡ 1 }
    ensures unnamed { named ≡ false → result ≡ columns }
{
    if named {
        columns | 1 << column.x
    } else {
        columns
    }
}

// Puts a column of a set into `next` as it is when it has spread. Answers the columns that have grown, with it if it has.
fn spread_column(column: Column, grown: u64, next: &mut [u64]) -> u64
    requires { length next.old ≡ column.front.ground.machine.now.width }
    ensures { IsSpreadAt column.entry.front.ground.machine.now column.entry.front.set.now
        column.entry.x next.old grown next.new result }
{
    let place = column.x as usize;
    let word = spread_word(column);
    let named = word != column.front.set[place];
    next[place] = word;
    with_column(grown, column, named)
}

// Puts the chips from which a live link leads to one of a set into `next`, which has those of the set. Answers a word that
// names the columns in which it has more then. Only columns that `near` names are looked at.
pub(crate) fn spread(front: Front, near: u64, next: &mut [u64]) -> u64
    requires same { next.old ≡ front.set.now }
    requires others { IsSpreadBut front.ground.machine.now next.old near }
    ensures fits { All (λ w. w < 2 ^ 64) next.new }
    ensures rises { (x : ℕ) → slice_index next.old x ≤ slice_index next.new x }
    ensures spread { (c : Chip) → IsInside front.entry.ground.machine.now c
        → IsIn next.new c ↔ IsSpread front.entry.ground.machine.now next.old c }
    ensures grown { (x : ℕ) → (bit_at result x ≡ 1 → ⊥)
        → slice_index next.old x ≡ slice_index next.new x }
    ensures grew { next.old ≡ next.new → result ≡ 0 }
{
    let width = u32::from(front.ground.machine.width());
    let mut grown = 0;
    let mut left = near;
    while left != 0 {
        let x = left.trailing_zeros();
        left &= !(1 << x);
        if x < width {
            grown = spread_column(Column { front, x }, grown, next);
        }
    }
    grown
}

// The columns that a word names, and those beside them on a ring of so many.
pub(crate) fn near_columns(ring: Ring, columns: u64) -> u64
    ensures { (wrap : Bool) (step : Step) (x k : ℕ) → x < ring.size
        → stepped wrap ring.size step x ≡ Some k
        → bit_at columns k ≡ 1 → bit_at result x ≡ 1 }
{
    columns | up(ring, columns) | down(ring, columns)
}
