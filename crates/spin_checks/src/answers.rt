// The line that is answered.
ghost use Rattle.std.specs.Prelude.{◌≡◌, ◌∷◌, ℕ, List, IfOk, IfErr, MatchResult, length, codes};
ghost use Rattle.app_graph.specs.ValidGraph.{IsValidGraph};
ghost use Rattle.net_plans.specs.Cause.{IsRefusedBy};
ghost use Rattle.run_report.specs.ReportText.{line};
ghost use Rattle.par_compile.specs.Compiled.{IsPlanOf};
ghost use Rattle.par_compile.specs.declared.compiling.Plan.{Plan};
ghost use Rattle.table_load.specs.Images.{Spells};
ghost use Rattle.table_load.specs.declared.tables.Image.{Image};
ghost use Rattle.run_report.specs.declared.causes.Refusal.{Refusal as Cause};
ghost use Rattle.run_report.specs.declared.causes.Refusal.TheVariants.{Memory as NoMemory};
ghost use Rattle.spin_checks.specs.Answers.{IsAnswer, IsJobRefusal, HasNoAnswer, RoutesRight, NamesMisrouted};
ghost use Rattle.spin_checks.specs.Findings.{right_line};
ghost use Rattle.spin_checks.specs.Plans.{HasKeptRows, trees_of};

use crate::findings::{StandingNets, finding_on};
use crate::lines::line_of;
use crate::nets::nets_with;
use app_graph::Graph;
use machine_desc::{Edge, Machine};
use plan_check::made_images_are_right;
use run_report::Refusal;
use spin_base::{Memory, Seq};
use std::alloc::Global;
use table_load::{a_fault_is_where_no_image_is_spelled, an_image_has_one_spelling};

/// The line that tells what is found of a graph on a machine, where `trees` has the edges of each net's tree, in any order, and
/// `image` the bytes of tables. Vertices are placed, nets have blocks and targets as compiling does it. The line is the first
/// that comes of: `bad tree NET`, exactly where that net is the first whose edges are no routing tree from the chip of its
/// source to its targets; `bad image AT`, exactly where the bytes are no image, with the place of the first fault; `other
/// machine`, exactly where the image is of a grid of another size, or one that wraps otherwise; `right`, where each key of each
/// net gets the route of the net's tree; `wrong NET X Y KEY`, where at that chip the net's keys, of which KEY is the first, get
/// another route; and `split NET X Y ROW`, where the row at place ROW of that chip's table is the first that meets the net's
/// keys, and does not match all of them. The last two tell of the first net, and of that net's first chip by its index, that is
/// not fine. Of a plan that the compiler makes for the graph, the image with the nets' trees is answered `right`.
///
/// # Errors
///
/// `NoRoom` has the name of the first vertex without room, `KeysOut` that of the first net without keys where all vertices have
/// room. Each comes exactly where there is such a vertex or net, unless memory runs out before, which `Memory` says.
#[tactic(auto, using(crate::proofs::Meaning::wrong_means))]
pub fn answer(
    alloc: Global,
    machine: &Machine,
    graph: &Graph,
    trees: &[Seq<Edge>],
    image: &[u8],
) -> Result<Seq<u8>, Refusal>
    requires graph { IsValidGraph graph.now }
    requires one_tree_each { length trees.now ≡ length graph.now.nets }
    ensures answer { IfOk result (IsAnswer machine.now graph.now trees.now image.now) }
    ensures only { IfOk result (λ text. (other : List ℕ)
        → IsAnswer machine.now graph.now trees.now image.now other → other ≡ text) }
    ensures right { IfOk result (λ text. text ≡ right_line
        → RoutesRight machine.now graph.now trees.now image.now) }
    ensures wrong { IfOk result (λ text. (words : List (List ℕ))
        → text ≡ line (codes "wrong" ∷ words)
        → NamesMisrouted machine.now graph.now trees.now image.now text) }
    ensures made { (target : ℕ) (plan : Plan) (v : Image)
        → IsPlanOf machine.now graph.now target plan → HasKeptRows machine.now plan.tables v
        → trees.now ≡ trees_of plan.nets → Spells v image.now
        → MatchResult result (λ text. text ≡ right_line) (λ r. r ≡ NoMemory) }
    ensures none { IfErr result (HasNoAnswer machine.now graph.now) }
    ensures refused { (r : Cause) → IsJobRefusal machine.now graph.now r
        → IsRefusedBy result r NoMemory }
{
    // Laws of images, which do nothing: the clauses `only` and `made` stand on them.
    a_fault_is_where_no_image_is_spelled();
    an_image_has_one_spelling();
    made_images_are_right();
    let nets = nets_with(alloc, machine, graph, trees)?;
    let standing = StandingNets {
        machine,
        nets: &nets,
    };
    let Ok(finding) = finding_on(alloc, standing, image) else {
        return Err(Refusal::Memory);
    };
    match line_of(alloc, &graph.nets, finding) {
        Ok(text) => Ok(text),
        Err(Memory) => Err(Refusal::Memory),
    }
}
