// What is to be compiled, and what is to be covered.
ghost use Rattle.std.specs.Prelude.{◌<◌, ◌≤◌, ◌^◌, length};
ghost use Rattle.spin_base.specs.declared.sizes.TheConstants.{ROUTER_ENTRIES};
ghost use Rattle.net_tables.specs.Marks.{AreApart};

use app_graph::Graph;
use machine_desc::Machine;
use net_tables::marks::Mark;
use spin_base::Seq;

/// A graph that is to be compiled for a machine; how many rows a table may keep before its rows are merged, at most as many as
/// a router has entries; and by how many workers tables are covered, at least one.
#[derive(Clone, Copy)]
pub struct CompileRequest<'a> {
    pub machine: &'a Machine,
    pub graph: &'a Graph,
    pub target: u32,
    pub workers: u32,
    pub ghost few_rows: { target ≤ ROUTER_ENTRIES },
    pub ghost some_worker: { 1 ≤ workers },
}

/// Original blocks whose table can be covered: no key is in two of them.
#[derive(Drop)]
pub struct Coverable {
    pub marks: Seq<Mark>,
    pub ghost few: { length marks < 2 ^ 32 },
    pub ghost apart: { AreApart marks },
}
