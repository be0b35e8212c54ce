// The plan by which a job is loaded.
ghost use Rattle.std.specs.Prelude.{◌≡◌, All, IfOk, IfErr, map};
ghost use Rattle.std.specs.List.{AllZip};
ghost use Rattle.machine_desc.specs.Live.{IsUsable};
ghost use Rattle.app_graph.specs.declared.graphs.Vertex.{Vertex as VertexOf};
ghost use Rattle.net_plans.specs.Cause.{IsNetCause, IsCauseOne};
ghost use Rattle.net_plans.specs.CutOffTargets.{HasNoneCutOff};
ghost use Rattle.job_requests.specs.Valid.{IsValidJob};
ghost use Rattle.app_loads.specs.Plans.{IsAppNet};
ghost use Rattle.app_loads.specs.Host.{Host};
ghost use Rattle.place_fit.specs.Boards.{AreFreeOn};
ghost use Rattle.spin_apps.specs.Free.{free_machine};
ghost use Rattle.spin_apps.specs.Making.{ArePlacedOn, CanPlan, CanRouteNet, CanRouteNets, HasFreeCores, IsNoPlanOn, IsPlanOn, unplaced, unrouted, unrouted_net};
ghost use Rattle.spin_apps.specs.Plans.{IsNetFor};

use app_graph::{Net, Vertex};
use app_loads::{AppNet, AppPlan};
use job_requests::AppJob;
use link_detours::{Ground, RepairErr, Roads};
use machine_desc::{Machine, NetPlan};
use net_plans::{NetErr, PlacedNet, net_plan};
use place_fit::{FreeCores, PlaceErr};
use spin_base::{Block, Chip, Memory, Packet, Seq, Spot};
use std::alloc::Global;

// A net is routed before it has keys.
const NO_KEYS: Block = Block { key: 0, mask: 0 };

// Why a job has no plan.
#[derive(Clone, Copy)]
pub(crate) enum PlanErr {
    // No chip on which this vertex may stand has room for it, the first such.
    NoRoom { vertex: u32 },
    // No walk of live links joins the source's chip and this target chip of the net, the first such net and target.
    CutOff { net: u32, target: Chip },
    Memory,
}

impl From<Memory> for PlanErr {
    ghost use Rattle.std.specs.Prelude.{◌≡◌};
    ghost use Rattle.spin_apps.specs.declared.plans.PlanErr.TheVariants.{Memory as NoMemory};

    ghost from_gives = { λ _ e. e ≡ NoMemory };

    fn from(_: Memory) -> Self {
        PlanErr::Memory
    }
}

// The plan of a job on the cores that are free, which are then its own. Where there is none, they are as before.
pub(crate) fn plan_of(
    alloc: Global,
    machine: &Machine,
    roads: &Roads,
    free: &mut FreeCores,
    job: &AppJob,
) -> Result<AppPlan, PlanErr>
    requires { CanPlan machine.now roads.now free.old job.now }
    ensures plan { (h : Host) → HasFreeCores h machine.now free.old → IfOk result
        (IsPlanOn h job.now free.new) }
    ensures none { (h : Host) → HasFreeCores h machine.now free.old → IfErr result
        (IsNoPlanOn h job.now free.new) }
{
    let sdram = bytes_of(alloc, &job.graph.vertices)?;
    let packets = copied(alloc, &job.run.packets)?;
    let spots = placed(alloc, free, job)?;
    match app_nets(alloc, machine, roads, &spots, &job.graph.nets) {
        Ok(nets) => Ok(AppPlan {
            spots,
            sdram,
            nets,
            packets,
        }),
        Err(e) => {
            free.give(spots.as_slice());
            Err(unrouted(e))
        }
    }
}

// The cores of a job's vertices, of those that are free, which are then its own.
fn placed(alloc: Global, free: &mut FreeCores, job: &AppJob) -> Result<Seq<Spot>, PlanErr>
    requires { IsValidJob job.now }
    ensures placed { (h : Host) → AreFreeOn (free_machine h) free.old → IfOk result
        (ArePlacedOn h job.now free.new) }
    ensures none { (h : Host) → AreFreeOn (free_machine h) free.old → IfErr result
        (IsNoPlanOn h job.now free.new) }
{
    match free.place(alloc, &job.graph) {
        Ok(placement) => Ok(placement.spots),
        Err(e) => Err(unplaced(e)),
    }
}

// Why there is no plan where vertices are not placed.
fn unplaced(e: PlaceErr) -> PlanErr
    ensures { result ≡ unplaced e }
{
    match e {
        PlaceErr::NoRoom { vertex } => PlanErr::NoRoom { vertex },
        PlaceErr::Memory => PlanErr::Memory,
    }
}

// Why there is no plan where nets are not routed.
fn unrouted(e: NetErr) -> PlanErr
    ensures { result ≡ unrouted e }
{
    match e {
        NetErr::CutOff { net, target } => PlanErr::CutOff { net, target },
        NetErr::Memory => PlanErr::Memory,
    }
}

// The same packets once more.
fn copied(alloc: Global, packets: &Seq<Packet>) -> Result<Seq<Packet>, Memory>
    ensures { IfOk result (λ copy. copy ≡ packets.now) }
{
    Ok(Seq::from_vec(Vec::from_slice(alloc, packets.as_slice())?))
}

// The bytes of shared memory that each vertex needs.
fn bytes_of(alloc: Global, vertices: &Seq<Vertex>) -> Result<Seq<u32>, Memory>
    ensures { IfOk result (λ bytes. bytes ≡ map (λ (v : VertexOf). v.sdram) vertices.now) }
{
    let bytes = vertices.as_slice().iter().map(|vertex| vertex.sdram);
    Ok(Seq::from_vec(bytes.collect(alloc)?))
}

// The nets of an application whose vertices have these cores, or the first net with a target that is cut off.
#[tactic(auto, using(std::proofs::lemmas::List::take_all, crate::proofs::Planning::why_net))]
fn app_nets(
    alloc: Global,
    machine: &Machine,
    roads: &Roads,
    spots: &Seq<Spot>,
    nets: &Seq<Net>,
) -> Result<Seq<AppNet>, NetErr>
    requires { CanRouteNets machine.now roads.now spots.now nets.now }
    ensures nets { IfOk result (λ apps. AllZip (IsNetFor machine.now spots.now) nets.now apps) }
    ensures valid { IfOk result (All (IsAppNet machine.now spots.now)) }
    ensures why { IfErr result (IsNetCause machine.now spots.now nets.now) }
{
    let mut routed = Seq::new(alloc);
    for i in 0..nets.len() {
        let net = nets.get(i);
        let app = match app_net(alloc, machine, roads, spots, net) {
            Ok(app) => app,
            Err(e) => return Err(unrouted_net(i as u32, e)),
        };
        routed.push(app)?;
    }
    Ok(routed)
}

// Why nets are not routed where this net is not.
fn unrouted_net(net: u32, e: RepairErr) -> NetErr
    ensures { result ≡ unrouted_net net e }
{
    match e {
        RepairErr::CutOff { target } => NetErr::CutOff { net, target },
        RepairErr::Memory => NetErr::Memory,
    }
}

// A net with its source, its targets and its tree.
#[tactic(auto, using(crate::proofs::Planning::net_for, crate::proofs::Planning::net_valid))]
fn app_net<'x>(
    alloc: Global,
    machine: &'x Machine,
    roads: &'x Roads,
    spots: &'x Seq<Spot>,
    net: &'x Net,
) -> Result<AppNet, RepairErr>
    requires { CanRouteNet machine.now roads.now spots.now net.now }
    ensures net { IfOk result (IsNetFor machine.now spots.now net.now) }
    ensures valid { IfOk result (IsAppNet machine.now spots.now) }
    ensures reached { IfOk result (λ _. HasNoneCutOff machine.now spots.now net.now) }
    ensures why { IfErr result (IsCauseOne machine.now spots.now net.now) }
{
    let ground = Ground { machine, roads };
    let placed = PlacedNet {
        ground,
        spots,
        net,
        block: NO_KEYS,
    };
    let plan = net_plan(alloc, placed)?;
    let NetPlan {
        block: _,
        source,
        targets,
        tree,
    } = plan;
    Ok(AppNet {
        source,
        targets,
        tree,
        keys: net.keys,
        fixed: net.fixed,
    })
}
