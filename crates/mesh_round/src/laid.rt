// A mesh that may go on by rounds, with its layout.
use mesh_core::MeshParts;
use mesh_run::Layout;
use std::marker::Model;

// A mesh in its parts that may go on by rounds, and a layout of its setup.
#[derive(Drop)]
pub(crate) struct LaidMesh<'l> {
    pub(crate) parts: MeshParts,
    pub(crate) layout: &'l Layout,
}

impl<'l> Model for LaidMesh<'l> {
    ghost use Rattle.mesh_round.specs.OnThreads.{MeshOnLayout, IsReadyOn};

    ghost Value = { MeshOnLayout };

    ghost view = { λ l. record { mesh = l.parts; layout = l.layout.now } };

    ghost invariant = { λ l. IsReadyOn l.parts l.layout.now };
}
