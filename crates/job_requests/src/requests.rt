// The whole request.
ghost use Rattle.std.specs.Prelude.{◌≡◌, IfOk, length, map};
ghost use Rattle.serde_json.specs.View.{view};
ghost use Rattle.app_graph.specs.ValidGraph.{IsValidGraph};
ghost use Rattle.job_text.specs.Reading.{GivesOrFaults};
ghost use Rattle.job_readers.specs.Named.{HasNamesApart};
ghost use Rattle.job_requests.specs.Requests.{request_own_faults, job_member, one_each_faults, trees_faults, trees_value, image_faults, image_value, request_faults, request_value};
ghost use Rattle.job_text.specs.Paths.{path_text};

use crate::entries::{Bytes, Trees};
use job_readers::{GREATEST_VERSION, Job, each_item, job_of};
use job_text::{Path, TextErr, list, member, range, shape};
use machine_desc::Edge;
use serde_json::Value;
use spin_base::Seq;
use std::alloc::Global;

/// What is to be checked: a job, the links of a tree for each of its nets, and the bytes of an image.
#[derive(Drop)]
pub struct Request {
    pub job: Job,
    pub trees: Seq<Seq<Edge>>,
    pub image: Seq<u8>,
}

/// The request that a value is.
///
/// # Errors
///
/// `Fault` with the first fault in the order of reading: that of the whole, at the path `in`, then those of the job, at the
/// path `job`, those of the trees and those of the image; `Memory`.
#[tactic(auto, using(job_readers::proofs::Firsts::firsts), unfolding(crate::specs::Requests::request_faults, crate::specs::Requests::request_value))]
pub fn request_of(alloc: Global, value: &Value) -> Result<Request, TextErr>
    ensures request { GivesOrFaults (λ r. r) result (request_faults (view value.now)) (request_value
        (view value.now)) }
    ensures graph { IfOk result (λ r. IsValidGraph r.job.graph) }
    ensures names { IfOk result (λ r. HasNamesApart r.job.graph) }
    ensures one_each { IfOk result (λ r. length r.trees ≡ length r.job.graph.nets) }
{
    let path = Path::Whole("in");
    let job_path = Path::Whole("job");
    let job = job_member_of(alloc, value, &path)?;
    let job = job_of(alloc, job, &job_path, GREATEST_VERSION)?;
    let trees = trees_of(alloc, value, &path, &job)?;
    let image = image_of(alloc, value, &path)?;
    Ok(Request { job, trees, image })
}

// The value that is the job of a request.
#[tactic(auto, unfolding(crate::specs::Requests::request_own_faults, crate::specs::Requests::job_member))]
fn job_member_of<'a>(alloc: Global, value: &'a Value, path: &Path<'_>) -> Result<&'a Value, TextErr>
    ensures { GivesOrFaults (λ d. view d.now) result
        (request_own_faults (path_text path.now) (view value.now))
        (job_member (view value.now)) }
{
    match member(value, "job") {
        Some(job) => Ok(job),
        None => Err(shape(alloc, path)),
    }
}

// Tests that there is one tree for each net.
fn one_each(alloc: Global, trees: &[Value], nets: u64, path: &Path<'_>) -> Result<(), TextErr>
    ensures faults { GivesOrFaults (λ u. u) result (one_each_faults nets (path_text path.now)
        (map view trees.now)) tt }
    ensures as_many { IfOk result (λ _. length trees.now ≡ nets) }
{
    if trees.len() as u64 != nets {
        return Err(range(alloc, path));
    }
    Ok(())
}

// The trees of a request, one for each net of its job.
#[tactic(auto, using(job_readers::proofs::Firsts::firsts), unfolding(crate::specs::Requests::trees_faults, crate::specs::Requests::trees_value))]
fn trees_of(
    alloc: Global,
    value: &Value,
    path: &Path<'_>,
    job: &Job,
) -> Result<Seq<Seq<Edge>>, TextErr>
    ensures read { GivesOrFaults (λ ts. ts) result (trees_faults
        (length job.now.graph.nets) job.now.machine.width job.now.machine.height
        (path_text path.now)
        (view value.now)) (trees_value (view value.now)) }
    ensures one_each { IfOk result (λ ts. length ts ≡ length job.now.graph.nets) }
{
    let path = Path::Member(path, "trees");
    let items = list(alloc, member(value, "trees"), &path, true)?;
    one_each(alloc, items, job.graph.nets.len() as u64, &path)?;
    let trees = Trees {
        width: job.machine.width(),
        height: job.machine.height(),
    };
    each_item(alloc, items, &path, &trees)
}

// The bytes of the image of a request.
#[tactic(auto, using(job_readers::proofs::Firsts::firsts), unfolding(crate::specs::Requests::image_faults, crate::specs::Requests::image_value))]
fn image_of(alloc: Global, value: &Value, path: &Path<'_>) -> Result<Seq<u8>, TextErr>
    ensures { GivesOrFaults (λ bs. bs) result (image_faults (path_text path.now) (view value.now))
        (image_value
        (view value.now)) }
{
    let path = Path::Member(path, "image");
    let items = list(alloc, member(value, "image"), &path, true)?;
    each_item(alloc, items, &path, &Bytes)
}
