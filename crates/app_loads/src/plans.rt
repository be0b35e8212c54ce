// What an application needs of the machine.
ghost use Rattle.std.specs.Prelude.{◌≡◌, IfOk};

use machine_desc::Tree;
use spin_base::{Block, Memory, Packet, Seq, Spot};
use std::alloc::Global;

/// A net of an application: the core that sends, the cores that receive, the tree between, and how many keys it needs. It may
/// have a block of keys of its own. Targets are different, and in order of x, then y, then core.
#[derive(Drop)]
pub struct AppNet {
    pub source: Spot,
    pub targets: Seq<Spot>,
    pub tree: Tree,
    pub keys: u64,
    pub fixed: Option<Block>,
}

/// An application: the cores of its vertices, the bytes of its chip's shared memory that each vertex needs, its nets, and the
/// packets that its nets send.
#[derive(Drop)]
pub struct AppPlan {
    pub spots: Seq<Spot>,
    pub sdram: Seq<u32>,
    pub nets: Seq<AppNet>,
    pub packets: Seq<Packet>,
}

impl AppPlan {
    /// The same plan once more.
    pub fn copy(&self, alloc: Global) -> Result<AppPlan, Memory>
        ensures { IfOk result (λ plan. plan ≡ self.now) }
    {
        let spots = copied(alloc, &self.spots)?;
        let sdram = copied(alloc, &self.sdram)?;
        let packets = copied(alloc, &self.packets)?;
        // The nets come last: no refusal after them has to drop them.
        let nets = copied_nets(alloc, self.nets.as_slice())?;
        Ok(AppPlan {
            spots,
            sdram,
            nets,
            packets,
        })
    }
}

impl AppNet {
    /// The same net once more.
    pub fn copy(&self, alloc: Global) -> Result<AppNet, Memory>
        ensures { IfOk result (λ net. net ≡ self.now) }
    {
        let targets = copied(alloc, &self.targets)?;
        let edges = copied(alloc, &self.tree.edges)?;
        Ok(AppNet {
            source: self.source,
            targets,
            tree: Tree {
                root: self.tree.root,
                edges,
            },
            keys: self.keys,
            fixed: self.fixed,
        })
    }
}

// The same nets once more.
fn copied_nets(alloc: Global, nets: &[AppNet]) -> Result<Seq<AppNet>, Memory>
    ensures { IfOk result (λ copy. copy ≡ nets.now) }
{
    Ok(Seq::from_vec(nets.iter().map(|net| net.copy(alloc)).try_collect(alloc)?))
}

// The same list once more.
fn copied<T: Copy>(alloc: Global, list: &Seq<T>) -> Result<Seq<T>, Memory>
    ensures { IfOk result (λ copy. copy ≡ list.now) }
{
    Ok(Seq::from_vec(Vec::from_slice(alloc, list.as_slice())?))
}
