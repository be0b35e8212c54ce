// Vertices with their names.
ghost use Rattle.std.specs.Prelude.{◌≡◌, ◌<◌, true, length, option_map, IfOk};
ghost use Rattle.std.specs.List.{list_all};
ghost use Rattle.std.proofs.Props.{props};
ghost use Rattle.serde_json.specs.View.{view};
ghost use Rattle.job_text.specs.Fields.{is_name};
ghost use Rattle.job_text.specs.Paths.{path_text};
ghost use Rattle.job_text.specs.Reading.{GivesOrFaults};
ghost use Rattle.job_readers.specs.Places.{reference_faults, reference_value};
ghost use Rattle.job_readers.specs.GraphPart.{vertex_names_of};

use crate::items::ItemReader;
use crate::names::{Names, said_text, unplaced};
use app_graph::Vertex;
use job_text::{Path, TextErr, shape};
use serde_json::Value;
use spin_base::Seq;
use std::alloc::Global;

// The vertices of a graph, and their names, by which nets name them. Each was read as a name.
#[derive(Clone, Copy)]
pub(crate) struct NamedVertices<'a, 'b> {
    pub(crate) vertices: &'a Seq<Vertex>,
    pub(crate) names: &'a Names<'b>,
    ghost named: { names.now ≡ vertex_names_of vertices.now } by { Prim.hlevel props },
    ghost known: { list_all is_name names.now ≡ true } by { Prim.hlevel props },
}

// A target of a net is read by the name of its vertex.
impl<'a, 'b> ItemReader for NamedVertices<'a, 'b> {
    ghost use Rattle.std.specs.Prelude.{◌<◌, length};
    ghost use Rattle.job_readers.specs.GraphPart.{target_faults, target_value};

    type Item = u32;

    ghost faults = { λ among. target_faults among.names.now };

    ghost value = { λ among. target_value among.names.now };

    ghost Holds = { λ among t. t < length among.names.now };

    #[tactic(auto, unfolding(crate::specs::GraphPart::target_faults, crate::specs::GraphPart::target_value))]
    fn read(&self, alloc: Global, item: &Value, path: &Path<'_>) -> Result<u32, TextErr> {
        known_reference(alloc, Some(item), path, self)
    }
}

// The place of the name that a text is, by the names of vertices, which all are names: what is found needs no test.
#[tactic(auto, unfolding(crate::specs::Places::reference_faults, crate::specs::Places::reference_value))]
fn known_reference(
    alloc: Global,
    v: Option<&Value>,
    path: &Path<'_>,
    among: &NamedVertices<'_, '_>,
) -> Result<u32, TextErr>
    ensures read { GivesOrFaults (λ i. i) result
        (reference_faults among.now.names.now (path_text path.now) (option_map (λ d. view d.now) v.entry))
        (reference_value among.now.names.now (option_map (λ d. view d.now) v.entry)) }
    ensures below { IfOk result (λ i. i < length among.now.names.now) }
{
    let Some(said) = said_text(v) else {
        return Err(shape(alloc, path));
    };
    match among.names.place(said) {
        Some(i) => Ok(i),
        None => Err(unplaced(alloc, said, path)),
    }
}
