// Tables as a kind of input.
use job_text::TextErr;
use serde_json::Value;
use spin_input::Input;
use std::alloc::Global;
use table_readers::{Asked, asked_of};

// The tables that a source's bytes ask for.
#[derive(Drop)]
pub(crate) struct TablesInput {
    pub(crate) asked: Asked,
}

impl Input for TablesInput {
    ghost use Rattle.std.specs.Prelude.{All};
    ghost use Rattle.table_readers.specs.Asking.{HasFewRows, asked_faults};
    ghost use Rattle.tables_top.specs.Asking.{input_value};

    ghost faults = { asked_faults };

    ghost value_of = { input_value };

    ghost IsSound = { λ input. All HasFewRows input.asked.tables };

    fn of_value(alloc: Global, value: &Value) -> Result<TablesInput, TextErr> {
        let asked = asked_of(alloc, value)?;
        Ok(TablesInput { asked })
    }
}
