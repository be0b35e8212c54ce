// The chip of a tree that is nearest to a target.
ghost use Rattle.std.specs.Prelude.{◌≡◌, ◌+◌, ◌-◌, ◌*◌, ◌%◌, ◌<◌, ◌≤◌, ◌⊎◌, true, Some, IfSome, IfNone};
ghost use Rattle.machine_desc.specs.Live.{IsInside, chip_at};
ghost use Rattle.ner_trees.specs.Geometry.{distance_of};
ghost use Rattle.ner_trees.specs.Growth.{IsNotFarther, IsNear};
ghost use Rattle.ner_trees.specs.Search.{place_at, AreSixPlaces, AtStep, IsOnWithin, IsNearestOn, IsNoneNearer, IsBetter, IsLeastNearness, CanSearch, is_on, is_there, nearness};
ghost use Rattle.spin_base.specs.declared.chips.Chip.{Chip};

use crate::displacements::{ChipPair, OnAxis, distance};
use crate::marks::Marks;
use crate::partial_trees::{GrowingTree, Radius};
use spin_base::Chip;

// A place in a window: so many places past the one that lies `radius` places before the centre.
#[derive(Clone, Copy)]
struct Offset {
    radius: Radius,
    places: u8,
    ghost inside: { places ≤ 2 * radius.chips },
}

// The place on a ring at this offset, by a division.
#[inline(never)]
fn divided(centre: OnAxis, offset: Offset) -> u8
    ensures value { result
        ≡ (centre.place + centre.places * 20 + offset.places - offset.radius.chips) % centre.places }
    ensures inside { result < centre.places }
{
    let ahead = u16::from(centre.place + offset.places) + u16::from(centre.places) * 20;
    ((ahead - u16::from(offset.radius.chips)) % u16::from(centre.places)) as u8
}

// The same. Only on a short ring has it to be divided.
#[inline(always)]
fn wrapped(centre: OnAxis, offset: Offset) -> u8
    ensures value { result
        ≡ (centre.place + centre.places * 20 + offset.places - offset.radius.chips) % centre.places }
    ensures inside { result < centre.places }
{
    let (places, chips) = (centre.places, offset.radius.chips);
    let place = centre.place + offset.places;
    if chips <= place {
        let ahead = place - chips;
        if ahead < places {
            return ahead;
        }
        if ahead - places < places {
            return ahead - places;
        }
    } else if chips - place <= places {
        return places - (chips - place);
    }
    divided(centre, offset)
}

// The place on an axis at an offset. `None` exactly where the axis is open and has no such place.
#[inline(always)]
fn place_at(wrap: bool, centre: OnAxis, offset: Offset) -> Option<u8>
    ensures value { result
        ≡ place_at wrap centre.places centre.place offset.radius.chips offset.places }
    ensures inside { IfSome result (λ n. n < centre.places) }
{
    if wrap {
        return Some(wrapped(centre, offset));
    }
    let (places, radius) = (centre.places, offset.radius.chips);
    let place = centre.place + offset.places;
    if place < radius {
        return None;
    }
    if place - radius < places {
        Some(place - radius)
    } else {
        None
    }
}

// The chip of two coordinates, where there are both.
#[inline(always)]
fn chip_at(x: Option<u8>, y: Option<u8>) -> Option<Chip>
    ensures { result ≡ chip_at x y }
{
    match x {
        None => None,
        Some(x) => match y {
            None => None,
            Some(y) => Some(Chip { x, y }),
        },
    }
}

// What is looked for: the chip of a tree that is nearest to a target.
#[derive(Clone, Copy)]
struct Search<'t, 'm> {
    on: &'t Marks<'m>,
    target: Chip,
    ghost inside: { IsInside on.now.machine.now target },
}

// A ring of chips round the target of a search: no chip of the tree is nearer.
#[derive(Clone, Copy)]
struct Ring<'t, 'm> {
    search: Search<'t, 'm>,
    radius: Radius,
    ghost none_nearer: { IsNoneNearer search.on.now.machine.now search.on.now.items.items
        search.target radius.chips },
}

// Six chips of a ring, one on each of its sides, that are `step` chips along it.
#[derive(Clone, Copy)]
struct RingStep<'t, 'm> {
    ring: Ring<'t, 'm>,
    step: u8,
    ghost within: { step ≤ ring.radius.chips },
}

// Where these six stand along an axis: at the first place of the ring, at the step, as far past the middle, or at the last place.
#[derive(Clone, Copy)]
struct SixPlaces {
    first: Option<u8>,
    step: Option<u8>,
    middle: Option<u8>,
    last: Option<u8>,
}

// Where they stand along an axis with this place of the target.
#[inline(always)]
fn six_places(wrap: bool, centre: OnAxis, six: RingStep<'_, '_>) -> SixPlaces
    ensures { AreSixPlaces wrap centre.places centre.place six.entry.ring.radius.chips six.entry.step
        result }
{
    let (radius, step) = (six.ring.radius, six.step);
    let side = Offset {
        radius,
        places: radius.chips + step,
    };
    let end = Offset {
        radius,
        places: 2 * radius.chips,
    };
    let first = place_at(wrap, centre, Offset { radius, places: 0 });
    let at_step = place_at(
        wrap,
        centre,
        Offset {
            radius,
            places: step,
        },
    );
    let middle = place_at(wrap, centre, side);
    let last = place_at(wrap, centre, end);
    SixPlaces {
        first,
        step: at_step,
        middle,
        last,
    }
}

// Their columns.
#[inline(always)]
fn columns(six: RingStep<'_, '_>) -> SixPlaces
    ensures { AreSixPlaces six.entry.ring.search.on.now.machine.now.wrap
        six.entry.ring.search.on.now.machine.now.width six.entry.ring.search.target.x
        six.entry.ring.radius.chips six.entry.step result }
{
    let machine = six.ring.search.on.machine();
    let (places, place) = (machine.width(), six.ring.search.target.x);
    six_places(machine.wrap(), OnAxis { places, place }, six)
}

// Their rows.
#[inline(always)]
fn rows(six: RingStep<'_, '_>) -> SixPlaces
    ensures { AreSixPlaces six.entry.ring.search.on.now.machine.now.wrap
        six.entry.ring.search.on.now.machine.now.height six.entry.ring.search.target.y
        six.entry.ring.radius.chips six.entry.step result }
{
    let machine = six.ring.search.on.machine();
    let (places, place) = (machine.height(), six.ring.search.target.y);
    six_places(machine.wrap(), OnAxis { places, place }, six)
}

// The nearest of the best so far and a chip of the tree, where this one is on the ring. All that are on the ring are as far from the
// target, and the first of them is that of least x, then y.
#[inline(never)]
fn better_with(ring: Ring<'_, '_>, best: Option<Chip>, chip: Chip) -> Option<Chip>
    requires inside { IsInside ring.search.on.now.machine.now chip }
    requires on_it { is_on ring.search.on.now.machine.now ring.search.on.now.items.items chip
        ≡ true }
    requires best { IfSome best (IsOnWithin ring.search.on.now.machine.now
        ring.search.on.now.items.items ring.search.target ring.radius.chips) }
    ensures found { IfSome result (IsOnWithin ring.entry.search.on.now.machine.now
        ring.entry.search.on.now.items.items ring.entry.search.target ring.entry.radius.chips) }
    ensures better { IsBetter ring.entry.search.on.now.machine.now
        ring.entry.search.on.now.items.items ring.entry.search.target ring.entry.radius.chips
        (λ e. e ≡ chip) best result }
{
    let machine = ring.search.on.machine();
    let pair = ChipPair {
        machine,
        from: chip,
        to: ring.search.target,
    };
    if u32::from(ring.radius.chips) < distance(pair) {
        return best;
    }
    match best {
        Some(other) if machine.index(other) <= machine.index(chip) => best,
        _ => Some(chip),
    }
}

// The nearest of the best so far and the chip of these coordinates.
#[inline(always)]
fn better(ring: Ring<'_, '_>, x: Option<u8>, y: Option<u8>, best: Option<Chip>) -> Option<Chip>
    requires x_inside { IfSome x (λ n. n < ring.search.on.now.machine.now.width) }
    requires y_inside { IfSome y (λ n. n < ring.search.on.now.machine.now.height) }
    requires best { IfSome best (IsOnWithin ring.search.on.now.machine.now
        ring.search.on.now.items.items ring.search.target ring.radius.chips) }
    ensures found { IfSome result (IsOnWithin ring.entry.search.on.now.machine.now
        ring.entry.search.on.now.items.items ring.entry.search.target ring.entry.radius.chips) }
    ensures better { IsBetter ring.entry.search.on.now.machine.now
        ring.entry.search.on.now.items.items ring.entry.search.target ring.entry.radius.chips
        (λ e. chip_at x y ≡ Some e) best result }
{
    match chip_at(x, y) {
        None => best,
        Some(chip) => if ring.search.on.at(chip) {
            better_with(ring, best, chip)
        } else {
            best
        },
    }
}

// The nearest of the best so far and six chips of the ring.
fn better_at_step(six: RingStep<'_, '_>, best: Option<Chip>) -> Option<Chip>
    requires { IfSome best (IsOnWithin six.ring.search.on.now.machine.now
        six.ring.search.on.now.items.items six.ring.search.target six.ring.radius.chips) }
    ensures found { IfSome result (IsOnWithin six.entry.ring.search.on.now.machine.now
        six.entry.ring.search.on.now.items.items six.entry.ring.search.target
        six.entry.ring.radius.chips) }
    ensures better { IsBetter six.entry.ring.search.on.now.machine.now
        six.entry.ring.search.on.now.items.items six.entry.ring.search.target
        six.entry.ring.radius.chips
        (AtStep six.entry.ring.search.on.now.machine.now six.entry.ring.search.target
        six.entry.ring.radius.chips six.entry.step)
        best result }
{
    let ring = six.ring;
    let x = columns(six);
    let y = rows(six);
    let one = better(ring, x.first, y.step, best);
    let two = better(ring, x.step, y.first, one);
    let three = better(ring, x.step, y.middle, two);
    let four = better(ring, x.middle, y.step, three);
    let five = better(ring, x.middle, y.last, four);
    better(ring, x.last, y.middle, five)
}

// Whether the tree has the chip of these coordinates.
#[inline(always)]
fn is_there(search: Search<'_, '_>, x: Option<u8>, y: Option<u8>) -> bool
    requires x_inside { IfSome x (λ n. n < search.on.now.machine.now.width) }
    requires y_inside { IfSome y (λ n. n < search.on.now.machine.now.height) }
    ensures { result ≡ is_there search.entry.on.now.machine.now search.entry.on.now.items.items
        (chip_at x y) }
{
    match chip_at(x, y) {
        None => false,
        Some(chip) => search.on.at(chip),
    }
}

// Whether the tree has one of six chips of the ring. Few steps have any, so there is no way out at the first.
fn is_any_at_step(six: RingStep<'_, '_>) -> bool
    ensures { (c : Chip)
        → AtStep six.entry.ring.search.on.now.machine.now six.entry.ring.search.target
        six.entry.ring.radius.chips six.entry.step c
        → is_on six.entry.ring.search.on.now.machine.now six.entry.ring.search.on.now.items.items c
        ≡ true
        → result ≡ true }
{
    let search = six.ring.search;
    let x = columns(six);
    let y = rows(six);
    let one = is_there(search, x.first, y.step);
    let two = is_there(search, x.step, y.first);
    let three = is_there(search, x.step, y.middle);
    let four = is_there(search, x.middle, y.step);
    let five = is_there(search, x.middle, y.last);
    let sixth = is_there(search, x.last, y.middle);
    one | two | three | four | five | sixth
}

// The nearest chip of the tree, where it is on the ring.
fn nearest_on_ring(ring: Ring<'_, '_>) -> Option<Chip>
    ensures found { IfSome result (IsNearestOn ring.entry.search.on.now.machine.now
        ring.entry.search.on.now.items.items ring.entry.search.target 20) }
    ensures none { IfNone result (IsNoneNearer ring.entry.search.on.now.machine.now
        ring.entry.search.on.now.items.items ring.entry.search.target
        (ring.entry.radius.chips + 1)) }
{
    let mut best = None;
    for step in 0..ring.radius.chips + 1 {
        let at = RingStep { ring, step };
        if is_any_at_step(at) {
            best = better_at_step(at, best);
        }
    }
    best
}

// A number that orders chips by how near they are to a target: the links from there to the target, then the index.
#[inline(always)]
fn nearness(pair: ChipPair<'_>) -> u32
    ensures { result ≡ nearness pair.entry.machine.now pair.entry.to pair.entry.from }
{
    distance(pair) * 4096 + pair.machine.index(pair.from)
}

// The least of these numbers, of the chips of a tree.
fn least_nearness(tree: &GrowingTree, target: Chip) -> u32
    requires { CanSearch tree.now.on.machine.now tree.now.root tree.now.on.items.items
        tree.now.edges.items target }
    ensures { IsLeastNearness tree.now.on.machine.now tree.now.root tree.now.edges.items target
        result }
{
    let machine = tree.on.machine();
    let chips = tree.on.chips();
    let root = ChipPair {
        machine,
        from: tree.root,
        to: target,
    };
    let mut least = nearness(root);
    for chip in chips {
        let pair = ChipPair {
            machine,
            from: *chip,
            to: target,
        };
        least = least.min(nearness(pair));
    }
    least
}

// The nearest chip of the tree within 20 links of the target, and the root where there is none.
fn nearest_of_all(tree: &GrowingTree, target: Chip) -> Chip
    requires { CanSearch tree.now.on.machine.now tree.now.root tree.now.on.items.items
        tree.now.edges.items target }
    ensures { IsNear tree.now.on.machine.now tree.now.root tree.now.edges.items target result }
{
    let least = least_nearness(tree, target);
    if least < 21 * 4096 {
        tree.on.machine().chip_at(least % 4096)
    } else {
        tree.root
    }
}

// The chip of the tree to which a target is joined: the nearest within 20 links, and the root where there is none. Rings
// round the target are looked through from the target outwards. Once these are longer than the tree, and where a tree has so
// few of the machine's chips that none near the target is to be expected, all its chips are compared.
pub(crate) fn near_chip(tree: &GrowingTree, target: Chip) -> Chip
    requires { CanSearch tree.now.on.machine.now tree.now.root tree.now.on.items.items
        tree.now.edges.items target }
    ensures { IsNear tree.now.on.machine.now tree.now.root tree.now.edges.items target result }
{
    let search = Search {
        on: &tree.on,
        target,
    };
    let edges = tree.edges.len();
    let few = tree.on.machine().chips() / 64;
    for chips in 0..21 {
        let far = usize::from(chips);
        if edges <= few + 3 * far * far {
            return nearest_of_all(tree, target);
        }
        let radius = Radius { chips };
        let ring = Ring { search, radius };
        if let Some(chip) = nearest_on_ring(ring) {
            return chip;
        }
    }
    tree.root
}
