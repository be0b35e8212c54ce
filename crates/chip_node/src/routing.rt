// Where a router sends a copy.
ghost use Rattle.std.specs.Prelude.{◌≡◌, ◌≤◌, length};
ghost use Rattle.chip_node.specs.Routing.{outputs_at};
ghost use Rattle.chip_node.specs.Taking.{AreOuts};

use spin_base::{McCopy, Outs, Port};
use tcam_find::Tcam;

/// The outputs that a table gives a copy that came in at this port: none where it has the greatest hop number.
#[tactic(auto, using(crate::proofs::Outputs::outs_differ, crate::proofs::Outputs::outs_numbered))]
pub fn outputs_of(table: &Tcam, port: Port, copy: McCopy) -> Outs
    ensures given { result.items ≡ outputs_at table.now port copy }
    ensures outs { AreOuts result.items }
    ensures few { length result.items ≤ 24 }
{
    if copy.hop == u32::MAX {
        return Outs::new();
    }
    table.find(copy.key, port).outs()
}
