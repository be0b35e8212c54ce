// An application's packets put to the vertices that send them.
ghost use Rattle.std.specs.Prelude.{◌≡◌, ◌+◌, ◌<◌, ◌++◌, List, All, IfOk, IfSome, OnOk, OnErr, length, map};
ghost use Rattle.std.specs.Option.{option_to_list};
ghost use Rattle.mesh_core.specs.State.{vertex_behind};
ghost use Rattle.spin_base.specs.declared.routes.Out.TheVariants.{Core};
ghost use Rattle.spin_base.specs.declared.chips.Spot.{Spot as ASpot};
ghost use Rattle.app_loads.specs.Joining.{AreSent};
ghost use Rattle.app_loads.specs.Sending.{AreCleared, AreSources, AreWithSources, CanAdd, CanSend, IsSameBeside, source_at};

use crate::loaded::LoadedApp;
use crate::meshes::KeptMesh;
use crate::plans::AppNet;
use mesh_core::{MeshSetup, Queue};
use spin_base::{Fifo, McCopy, Memory, Out, Seq, Spot};
use std::alloc::Global;

// Puts the application's packets to the vertices of their nets' sources. After a refusal these have sent none.
#[tactic(auto, using(crate::proofs::Resting::can_add, crate::proofs::Resting::sources_of))]
pub(crate) fn send(
    alloc: Global,
    setup: &MeshSetup,
    unsent: &mut [Fifo<McCopy>],
    app: &LoadedApp,
) -> Result<(), Memory>
    requires { CanSend setup.now app.now unsent.old }
    ensures sent { OnOk result (AreSent setup.now.spots app.now
        (length app.now.plan.packets) unsent.old unsent.new) }
    ensures refused { OnErr result (unsent.new ≡ unsent.old) }
{
    let sources = source_vertices(alloc, setup, app.plan.nets.as_slice())?;
    match add_packets(unsent, &sources, app) {
        Ok(()) => Ok(()),
        Err(refused) => {
            clear(alloc, unsent, &sources);
            Err(refused)
        }
    }
}

// The vertex of each net's source, and the first vertex for a source that has none.
fn source_vertices(alloc: Global, setup: &MeshSetup, nets: &[AppNet]) -> Result<Vec<usize>, Memory>
    ensures { IfOk result (λ sources. sources.items ≡ map (source_at setup.now.spots) nets.now) }
{
    Ok(
        nets.iter()
            .map(|net| setup.vertex_at(net.source).unwrap_or(0))
            .collect(alloc)?,
    )
}

// Puts each packet to its net's source.
fn add_packets(
    unsent: &mut [Fifo<McCopy>],
    sources: &[usize],
    app: &LoadedApp,
) -> Result<(), Memory>
    requires { CanAdd sources.now app.now unsent.old }
    ensures sent { OnOk result ((spots : List ASpot) →
        AreSources spots app.now.plan.nets sources.now
        → AreSent spots app.now (length app.now.plan.packets) unsent.old unsent.new) }
    ensures refused { OnErr result (IsSameBeside sources.now unsent.old unsent.new) }
{
    for (at, packet) in app.plan.packets.as_slice().iter().enumerate() {
        let net = packet.net as usize;
        let copy = McCopy {
            packet: app.first + at as u32,
            key: app.blocks.get(net).key + packet.index,
            payload: packet.payload,
            hop: 0,
        };
        unsent[sources[net]].push(copy)?;
    }
    Ok(())
}

// Empties the queues of these vertices.
#[tactic(auto, using(crate::proofs::Resting::all_cleared))]
fn clear(alloc: Global, unsent: &mut [Fifo<McCopy>], sources: &[usize])
    requires { All (λ v. v < length unsent.old) sources.now }
    ensures { AreCleared sources.now unsent.old unsent.new }
{
    for source in sources {
        unsent[*source] = Fifo::new(alloc);
    }
}

// The vertices that may have packets unsent, with those of the nets' sources, where they are known and there is memory to add these.
pub(crate) fn with_sources(
    senders: Option<Seq<usize>>,
    mesh: &KeptMesh,
    nets: &[AppNet],
) -> Option<Seq<usize>>
    ensures { IfSome result (AreWithSources mesh.now nets.now senders) }
{
    let mut vertices = senders?;
    for net in nets {
        push_source(&mut vertices, mesh, net.source).ok()?;
    }
    Some(vertices)
}

// The vertex on a spot at the back of the list, if there is one.
fn push_source(vertices: &mut Seq<usize>, mesh: &KeptMesh, source: Spot) -> Result<(), Memory>
    ensures { OnOk result (vertices.new ≡ vertices.old
        ++ option_to_list (vertex_behind mesh.now.setup.spots source.chip (Core source.core))) }
{
    match mesh.behind(source.chip, Out::Core(source.core)) {
        Queue::Core(vertex) => vertices.push(vertex),
        Queue::Input(_) | Queue::Nowhere => Ok(()),
    }
}
