// The outputs that lead to spots.
ghost use Rattle.std.specs.Prelude.{◌≡◌, ◌<◌};
ghost use Rattle.spin_base.specs.Outputs.{out_of};

use spin_base::{CORES, Dir, Out};

/// The output of a chip that leads to its spot of that number: the core's own for a core 0 to 17, and link d for the
/// device on link d, whose number is 18 + d.
pub fn out_of(core: u8) -> Out
    requires { core < 24 }
    ensures { result ≡ out_of core }
{
    if core < CORES {
        return Out::Core(core);
    }
    Out::Link(Dir::ALL[usize::from(core - CORES)])
}
