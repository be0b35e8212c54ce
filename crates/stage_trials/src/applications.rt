// A machine on which nothing is loaded yet.
use app_loads::Apps;
use spin_input::job_of_text;
use std::alloc::Global;
use std::mem;

// A job on a machine of one chip.
const JOB: &str =
    "{\"version\":1,\"machine\":{\"width\":1,\"height\":1},\"graph\":{\"vertices\":[{\"name\":\"a\"}],\"nets\":[]}}";

// How many packets all loads on the job's machine had so far, where there was none. What is made on the way is forgotten, so that
// the test owes no proof of taking it apart.
fn packets(alloc: Global) -> Option<u32> {
    let job = match job_of_text(alloc, JOB.as_bytes()) {
        Ok(job) => job,
        Err(refusal) => {
            mem::forget(refusal);
            return None;
        }
    };
    let apps = Apps::new(alloc, &job.machine, 1);
    mem::forget(job);
    let Ok(apps) = apps else {
        return None;
    };
    let packets = apps.packets_so_far();
    mem::forget(apps);
    Some(packets)
}

#[test]
fn a_machine_without_an_application_has_had_no_packet(rt: HostRuntime) {
    assert!(rt; packets(rt.alloc()) == Some(0));
}
