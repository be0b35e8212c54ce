// One event on the machine.
ghost use Rattle.std.specs.Prelude.{◌≡◌, IfOk, OnOk, OnErr};
ghost use Rattle.mesh_core.specs.Step.{after_event, answer};
ghost use Rattle.app_loads.specs.Applications.{AreApps};

use crate::apps::Apps;
use mesh_core::Did;
use spin_base::{Event, Memory};

impl Apps {
    /// One event of the mesh: `Moved` exactly where it is enabled, and `Idle` exactly where it isn't, and then nothing changes.
    /// Events name vertices by their place among the machine's usable cores. After a refusal all is as before.
    ///
    /// # Errors
    ///
    /// `Memory` where memory runs out.
    pub fn step(&mut self, e: Event) -> Result<Did, Memory>
        ensures answer { IfOk result (λ did. did ≡ answer self.old.mesh e) }
        ensures moves { OnOk result (
            self.new ≡ record self.old { mesh = after_event self.old.mesh e }) }
        ensures err { OnErr result (self.new ≡ self.old) }
        ensures apps { AreApps self.new }
    {
        self.senders = None;
        let Some(mesh) = &mut self.mesh else {
            return Ok(Did::Idle);
        };
        mesh.step(e)
    }
}
