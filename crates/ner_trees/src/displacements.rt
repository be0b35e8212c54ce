// How far chips are from each other.
ghost use Rattle.std.specs.Prelude.{◌≡◌, ◌+◌, ◌-◌, ◌%◌, ◌<◌, ◌≤◌, unsigned_abs, pos, ◌-ℤ◌, max, int_lt};
ghost use Rattle.machine_desc.specs.Live.{IsInside};
ghost use Rattle.ner_trees.specs.Geometry.{IsSmall, length_of, first_differs, is_before_signed, is_before, lesser_disp, ahead_by, displacement_of, distance_of, forth, back, on_torus};

use machine_desc::Machine;
use spin_base::Chip;

/// A displacement: so many chips along x, and so many along y. Negative numbers lead to lower coordinates.
#[derive(Clone, Copy, PartialEq, Eq)]
pub struct Disp {
    pub a: i32,
    pub b: i32,
}

// How much a number is above 0.
pub(crate) fn forth(n: i32) -> u32
    ensures { result ≡ forth n }
{
    if n > 0 { n.unsigned_abs() } else { 0 }
}

// How much a number is below 0.
pub(crate) fn back(n: i32) -> u32
    ensures { result ≡ back n }
{
    if n < 0 { n.unsigned_abs() } else { 0 }
}

// The difference of two numbers.
fn difference(more: u8, less: u8) -> i32
    ensures { result ≡ pos more -ℤ pos less }
{
    i32::from(more) - i32::from(less)
}

// Whether a number is below another.
fn is_below(m: i32, n: i32) -> bool
    ensures { result ≡ int_lt m n }
{
    m < n
}

// Whether a number is below another, or what is so where they are equal.
fn is_below_or(m: i32, n: i32, if_equal: bool) -> bool
    ensures { result ≡ is_before_signed m n if_equal }
{
    is_below(m, n) || !is_below(n, m) && if_equal
}

// Whether a size is less than another, or what is so where they are equal.
fn is_less_or(m: u32, n: u32, if_equal: bool) -> bool
    ensures { result ≡ first_differs m n if_equal }
{
    if m == n { if_equal } else { m < n }
}

impl Disp {
    // The number of links that it takes: the greatest of a, b and 0 less the least of them.
    pub(crate) fn length(self) -> u32
        ensures value { result ≡ length_of self }
        ensures few { IsSmall self → result ≤ 128 }
    {
        forth(self.a).max(forth(self.b)) + back(self.a).max(back(self.b))
    }

    // Whether it comes before the other one in the order of (length, |a|, |b|, a, b).
    fn is_before(self, other: Disp) -> bool
        ensures { result ≡ is_before self other }
    {
        let rest = is_below_or(self.a, other.a, is_below(self.b, other.b));
        let rest = is_less_or(self.b.unsigned_abs(), other.b.unsigned_abs(), rest);
        let rest = is_less_or(self.a.unsigned_abs(), other.a.unsigned_abs(), rest);
        is_less_or(self.length(), other.length(), rest)
    }

    // The one that comes before the other, and this one where neither does.
    fn or_before(self, other: Disp) -> Disp
        ensures value { result ≡ lesser_disp self other }
        ensures small { IsSmall self → IsSmall other → IsSmall result }
    {
        if other.is_before(self) { other } else { self }
    }
}

// A place on an axis of so many places.
#[derive(Clone, Copy)]
pub struct OnAxis {
    pub places: u8,
    pub place: u8,
    ghost few: { places ≤ 64 },
    ghost inside: { place < places },
}

// How many places `to` is ahead of `from`, on an axis that is closed to a ring.
#[inline(always)]
fn ahead_by(from: OnAxis, to: u8) -> OnAxis
    requires { to < from.places }
    ensures places { result.places ≡ from.places }
    ensures value { result.place ≡ ahead_by from.places from.place to }
{
    let places = from.places;
    let place = if to < from.place {
        to + (places - from.place)
    } else {
        to - from.place
    };
    OnAxis { places, place }
}

// Of displacements that lead ahead along each axis, or back by what is then left of it, the first in order.
fn on_torus(across: OnAxis, up: OnAxis) -> Disp
    ensures value { result ≡ on_torus across.places up.places across.place up.place }
    ensures small { IsSmall result }
{
    let (a, behind) = (
        difference(across.place, 0),
        difference(across.place, across.places),
    );
    let (b, below) = (difference(up.place, 0), difference(up.place, up.places));
    Disp { a, b }
        .or_before(Disp { a: behind, b })
        .or_before(Disp { a, b: below })
        .or_before(Disp {
            a: behind,
            b: below,
        })
}

// The length of that displacement: the least of the lengths of the four.
#[inline(always)]
fn length_on_torus(across: OnAxis, up: OnAxis) -> u32
    ensures value { result ≡
        length_of (on_torus across.places up.places across.place up.place) }
    ensures few { result ≤ 64 }
{
    let (a, b) = (u32::from(across.place), u32::from(up.place));
    let (behind, below) = (u32::from(across.places) - a, u32::from(up.places) - b);
    a.max(b)
        .min(behind + b)
        .min(a + below)
        .min(behind.max(below))
}

/// From one chip of a machine to another.
#[derive(Clone, Copy)]
pub struct ChipPair<'a> {
    pub machine: &'a Machine,
    pub from: Chip,
    pub to: Chip,
    pub ghost from_inside: { IsInside machine.now from },
    pub ghost to_inside: { IsInside machine.now to },
}

/// The displacement from the first chip to the second. On an open grid it is the difference of their coordinates. On a torus it is, of
/// the differences modulo width and height and those that are less by width or height, the first in the order of
/// (length, |a|, |b|, a, b), where the length is the greatest of a, b and 0 less the least of them.
pub fn displacement(pair: ChipPair<'_>) -> Disp
    ensures value { result
        ≡ displacement_of pair.entry.machine.now pair.entry.from pair.entry.to }
    ensures small { IsSmall result }
{
    let (machine, p, q) = (pair.machine, pair.from, pair.to);
    let x = OnAxis {
        places: machine.width(),
        place: p.x,
    };
    let y = OnAxis {
        places: machine.height(),
        place: p.y,
    };
    if machine.wrap() {
        on_torus(ahead_by(x, q.x), ahead_by(y, q.y))
    } else {
        Disp {
            a: difference(q.x, p.x),
            b: difference(q.y, p.y),
        }
    }
}

/// The number of links from the first chip to the second where none is dead: the length of the displacement, 0 to 128.
#[inline(always)]
pub fn distance(pair: ChipPair<'_>) -> u32
    ensures value { result
        ≡ distance_of pair.entry.machine.now pair.entry.from pair.entry.to }
    ensures few { result ≤ 128 }
{
    let (machine, p, q) = (pair.machine, pair.from, pair.to);
    if machine.wrap() {
        let x = OnAxis {
            places: machine.width(),
            place: p.x,
        };
        let y = OnAxis {
            places: machine.height(),
            place: p.y,
        };
        length_on_torus(ahead_by(x, q.x), ahead_by(y, q.y))
    } else {
        displacement(pair).length()
    }
}
