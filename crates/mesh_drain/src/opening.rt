// The mesh of a job before its first event.
ghost use Rattle.std.specs.Prelude.{◌≡◌, ◌+◌, ◌<◌, ◌^◌, map, IfOk, OnOk, []};
ghost use Rattle.mesh_core.specs.State.{IsMesh};
ghost use Rattle.mesh_core.specs.Opened.{opened_mesh};
ghost use Rattle.mesh_drain.specs.Opening.{source_vertex_of, CanOpen, AreListed};

use machine_desc::NetPlan;
use mesh_core::laws::every_mesh_is_one;
use mesh_core::{Mesh, MeshSetup};
use spin_base::{McCopy, Memory, Packet};
use std::alloc::Global;

/// The mesh of a job before its first event. Packet number `i` of the list stands unsent at its net's source, with the key that it
/// has in the net's block. It takes time as vertices, chips, nets and packets.
///
/// # Errors
///
/// `Memory` where memory runs out.
pub fn open_mesh(
    alloc: Global,
    setup: MeshSetup,
    nets: &[NetPlan],
    packets: &[Packet],
) -> Result<Mesh, Memory>
    requires { CanOpen setup nets.now packets.now }
    ensures opened { IfOk result (λ mesh. mesh ≡ opened_mesh setup nets.now packets.now) }
    ensures mesh { IfOk result IsMesh }
{
    let sources = source_vertices(alloc, &setup, nets)?;
    let mut mesh = Mesh::new(alloc, setup)?;
    add_packets(&mut mesh, nets, sources.as_slice(), packets)?;
    every_mesh_is_one(&mesh);
    Ok(mesh)
}

// Puts each packet of a job to its net's source, which `sources` has for each net.
fn add_packets(
    mesh: &mut Mesh,
    nets: &[NetPlan],
    sources: &[usize],
    packets: &[Packet],
) -> Result<(), Memory>
    requires listed { AreListed mesh.old.setup nets.now packets.now sources.now }
    ensures { mesh.old ≡ opened_mesh mesh.old.setup nets.now []
        → OnOk result (mesh.new ≡ opened_mesh mesh.old.setup nets.now packets.now) }
{
    every_mesh_is_one(mesh);
    for (number, packet) in packets.iter().enumerate() {
        let net = packet.net as usize;
        let copy = McCopy {
            packet: number as u32,
            key: nets[net].block.key + packet.index,
            payload: packet.payload,
            hop: 0,
        };
        mesh.add(sources[net] as u32, copy)?;
    }
    Ok(())
}

// The vertex of each net's source.
fn source_vertices(alloc: Global, setup: &MeshSetup, nets: &[NetPlan]) -> Result<Vec<usize>, Memory>
    ensures { IfOk result (λ vertices. vertices.items
        ≡ map (source_vertex_of setup.now.spots) nets.now) }
{
    Ok(
        nets.iter()
            .map(|net| setup.vertex_at(net.source).unwrap_or(0))
            .collect(alloc)?,
    )
}
