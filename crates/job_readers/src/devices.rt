// Devices in the order of a list, looked up in a set.
ghost use Rattle.std.specs.Prelude.{◌≡◌, [], ◌∷◌, ◌++◌, IfOk, option_to_list};
ghost use Rattle.job_readers.specs.Hung.{is_among};
ghost use Rattle.job_readers.specs.Listed.{anchor_of};

use machine_desc::Edge;
use spin_base::{Chip, Memory};
use std::alloc::Global;
use std::collections::HashSet;
use std::marker::Model;

// Where a device hangs: a chip, and the number of one of its links.
#[derive(Clone, Copy, PartialEq, Eq, Hash)]
struct Anchor {
    chip: Chip,
    link: u8,
}

fn hook_of(device: Edge) -> Anchor
    ensures { result ≡ anchor_of device }
{
    Anchor {
        chip: device.chip,
        link: device.dir.number(),
    }
}

// The devices of a list, in its order. Contracts see the list; a set tells where they hang.
#[derive(Drop)]
pub(crate) struct Devices {
    listed: Vec<Edge>,
    known: HashSet<Anchor>,
}

impl Model for Devices {
    ghost use Rattle.std.specs.Prelude.{List};
    ghost use Rattle.machine_desc.specs.declared.trees.Edge.{Edge};
    ghost use Rattle.job_readers.specs.Listed.{listed_of, IsListed};

    ghost Value = { List Edge };

    ghost view = { listed_of };

    ghost invariant = { IsListed };
}

impl Devices {
    // No device.
    pub(crate) fn new(alloc: Global) -> Devices
        ensures { result ≡ [] }
    {
        Devices {
            listed: Vec::new(alloc),
            known: HashSet::new(alloc),
        }
    }

    // Whether the device is one of them.
    #[tactic(auto, unfolding(crate::specs::Hung::is_among))]
    pub(crate) fn has(&self, device: Edge) -> bool
        ensures { result ≡ is_among self.now device }
    {
        let anchor = hook_of(device);
        self.known.contains(&anchor)
    }

    // The devices, and one more at the end.
    fn with(self, device: Edge) -> Result<Devices, Memory>
        ensures { IfOk result (λ devices. devices ≡ self ++ device ∷ []) }
    {
        let Devices {
            mut listed,
            mut known,
        } = self;
        listed.push(device)?;
        known.insert(hook_of(device))?;
        Ok(Devices { listed, known })
    }

    // The devices, and one more at the end where there is one.
    pub(crate) fn and(self, device: Option<Edge>) -> Result<Devices, Memory>
        ensures { IfOk result (λ devices. devices ≡ self ++ option_to_list device) }
    {
        match device {
            Some(device) => self.with(device),
            None => Ok(self),
        }
    }
}
