// The curve through the chips of a square.
ghost use Rattle.std.specs.Prelude.{◌≡◌, ◌+◌, ◌-◌, ◌*◌, ◌^◌, ◌<◌, ◌≤◌, All, IfOk};
ghost use Rattle.place_fit.specs.Curve.{hilbert, four_quarters};
ghost use Rattle.place_fit.specs.Quarters.{in_quarter, curve_place};

use spin_base::{Chip, Memory, Seq};
use std::alloc::Global;

/// The chips of a square of side 2^k in the order of Hilbert's curve, which begins at (0, 0) and ends at (2^k - 1, 0).
pub fn curve(alloc: Global, k: u32) -> Result<Seq<Chip>, Memory>
    requires { k ≤ 6 }
    ensures { IfOk result (λ chips. chips ≡ hilbert k) }
{
    let mut chips = Vec::new(alloc);
    chips.push(Chip { x: 0, y: 0 })?;
    let mut side = 1;
    for level in 0..k {
        let square = Square {
            chips: &chips,
            side,
        };
        chips = next_level(alloc, square)?;
        side *= 2;
    }
    Ok(Seq::from_vec(chips))
}

// The chips of a square of this side, in the order in which the curve goes through them.
#[derive(Clone, Copy)]
struct Square<'a> {
    chips: &'a [Chip],
    side: u8,
    ghost small: { side ≤ 32 },
    ghost inside: { All (λ c. (c.x < side) × (c.y < side)) chips.now },
}

// The curve through a square of twice the side.
fn next_level(alloc: Global, square: Square) -> Result<Vec<Chip>, Memory>
    ensures { IfOk result (λ v. v.items ≡ four_quarters square.entry.side square.entry.chips.now) }
{
    let chips = square.chips;
    let lower_left = chips.iter().map(|c| Quarter::LowerLeft.chip(square, *c));
    let upper_left = chips.iter().map(|c| Quarter::UpperLeft.chip(square, *c));
    let upper_right = chips.iter().map(|c| Quarter::UpperRight.chip(square, *c));
    let lower_right = chips.iter().map(|c| Quarter::LowerRight.chip(square, *c));
    let right = upper_right.chain(lower_right);
    Ok(lower_left.chain(upper_left.chain(right)).collect(alloc)?)
}

// A quarter of a square, in the order in which the curve goes through them.
#[derive(Clone, Copy)]
enum Quarter {
    LowerLeft,
    UpperLeft,
    UpperRight,
    LowerRight,
}

impl Quarter {
    // A chip of the square, as it stands in this quarter of the square of twice the side.
    fn chip(self, square: Square, c: Chip) -> Chip
        requires { (c.x < square.side) × (c.y < square.side) }
        ensures { result ≡ in_quarter self square.entry.side c }
    {
        let side = square.side;
        match self {
            Quarter::LowerLeft => Chip { x: c.y, y: c.x },
            Quarter::UpperLeft => Chip {
                x: c.x,
                y: c.y + side,
            },
            Quarter::UpperRight => Chip {
                x: c.x + side,
                y: c.y + side,
            },
            Quarter::LowerRight => Chip {
                x: 2 * side - 1 - c.y,
                y: side - 1 - c.x,
            },
        }
    }
}

// A chip of the square of a level.
#[derive(Clone, Copy)]
pub struct OnSquare {
    pub level: u32,
    pub chip: Chip,
    pub ghost small: { level ≤ 6 },
    pub ghost inside: { (chip.x < 2 ^ level) × (chip.y < 2 ^ level) },
}

// The place of a chip on the curve.
pub(crate) fn place_on_curve(at: OnSquare) -> usize
    ensures place { result ≡ curve_place at.level at.chip }
    ensures below { result < 4096 }
{
    let OnSquare { level, chip: c } = at;
    if level == 0 {
        return 0;
    }
    let side = half_side(at);
    let run = usize::from(side) * usize::from(side);
    if c.x < side {
        if c.y < side {
            let lower_left = OnSquare {
                level: level - 1,
                chip: Chip { x: c.y, y: c.x },
            };
            place_on_curve(lower_left)
        } else {
            let upper_left = OnSquare {
                level: level - 1,
                chip: Chip {
                    x: c.x,
                    y: c.y - side,
                },
            };
            run + place_on_curve(upper_left)
        }
    } else if c.y < side {
        let lower_right = OnSquare {
            level: level - 1,
            chip: Chip {
                x: side - 1 - c.y,
                y: 2 * side - 1 - c.x,
            },
        };
        3 * run + place_on_curve(lower_right)
    } else {
        let upper_right = OnSquare {
            level: level - 1,
            chip: Chip {
                x: c.x - side,
                y: c.y - side,
            },
        };
        2 * run + place_on_curve(upper_right)
    }
}

// Half the side of the square of a level, and 0 for the square of one chip.
fn half_side(at: OnSquare) -> u8
    ensures half { 1 ≤ at.level → result ≡ 2 ^ (at.level - 1) }
    ensures whole { 1 ≤ at.level → 2 ^ at.level ≡ 2 * result }
    ensures small { result ≤ 32 }
{
    (1 << at.level) / 2
}
