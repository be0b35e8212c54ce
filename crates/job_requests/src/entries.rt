// Trees and bytes of a request.
use job_readers::{ItemReader, Links, each_item};
use job_text::{Path, TextErr, list, range, shape};
use machine_desc::Edge;
use serde_json::Value;
use spin_base::Seq;
use std::alloc::Global;

// A grid, whose trees are read: each is a list of links.
#[derive(Clone, Copy)]
pub(crate) struct Trees {
    pub(crate) width: u8,
    pub(crate) height: u8,
}

impl ItemReader for Trees {
    ghost use Rattle.std.specs.Prelude.{⊤};
    ghost use Rattle.job_requests.specs.Requests.{tree_faults, tree_value};

    type Item = Seq<Edge>;

    ghost faults = { λ grid. tree_faults grid.width grid.height };

    ghost value = { λ _. tree_value };

    ghost Holds = { λ _ _. ⊤ };

    #[tactic(auto, using(job_readers::proofs::Firsts::firsts), unfolding(crate::specs::Requests::tree_faults, crate::specs::Requests::tree_value))]
    fn read(&self, alloc: Global, item: &Value, path: &Path<'_>) -> Result<Seq<Edge>, TextErr> {
        let items = list(alloc, Some(item), path, true)?;
        let links = Links {
            width: self.width,
            height: self.height,
        };
        each_item(alloc, items, path, &links)
    }
}

// What reads the bytes of an image.
#[derive(Clone, Copy)]
pub(crate) struct Bytes;

impl ItemReader for Bytes {
    ghost use Rattle.std.specs.Prelude.{⊤};
    ghost use Rattle.job_requests.specs.Requests.{byte_faults, byte_value};

    type Item = u8;

    ghost faults = { λ _. byte_faults };

    ghost value = { λ _. byte_value };

    ghost Holds = { λ _ _. ⊤ };

    fn read(&self, alloc: Global, item: &Value, path: &Path<'_>) -> Result<u8, TextErr> {
        match item.as_u64() {
            Some(n) if n < 256 => Ok(n as u8),
            Some(_) => Err(range(alloc, path)),
            None => Err(shape(alloc, path)),
        }
    }
}
