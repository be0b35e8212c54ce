// Steps along the axes of the grid.
ghost use Rattle.std.specs.Prelude.{◌≡◌, ◌<◌, ◌≤◌};

use spin_base::Dir;

// A step along one axis: by one down, by none or by one up.
#[derive(Clone, Copy)]
pub enum Step {
    Back,
    Stay,
    Ahead,
}

impl Step {
    ghost use Rattle.machine_desc.specs.Live.{x_step, y_step, stepped};

    // How far the link leads along x.
    pub(crate) fn along_x(link: Dir) -> Step
        ensures { result ≡ x_step link }
    {
        match link {
            Dir::East | Dir::NorthEast => Step::Ahead,
            Dir::North | Dir::South => Step::Stay,
            Dir::West | Dir::SouthWest => Step::Back,
        }
    }

    // How far the link leads along y.
    pub(crate) fn along_y(link: Dir) -> Step
        ensures { result ≡ y_step link }
    {
        match link {
            Dir::NorthEast | Dir::North => Step::Ahead,
            Dir::East | Dir::West => Step::Stay,
            Dir::SouthWest | Dir::South => Step::Back,
        }
    }

    // The coordinate that the step leads to from `n`, on an axis of so many places.
    pub(crate) fn from(self, wrap: bool, places: u8, n: u8) -> Option<u8>
        requires inside { n < places }
        requires small { places ≤ 64 }
        ensures { result ≡ stepped wrap places self n }
    {
        match self {
            Step::Stay => Some(n),
            Step::Ahead if n + 1 < places => Some(n + 1),
            Step::Ahead => if wrap { Some(0) } else { None },
            Step::Back if n > 0 => Some(n - 1),
            Step::Back => if wrap { Some(places - 1) } else { None },
        }
    }
}
