// Texts beside what tools/gen_reference.py makes of the rule: how many bytes, and their FNV-1a hash of 64 bits.
use job_gen::gen_text;
use std::alloc::Global;

fn hashed(bytes: &[u8]) -> u64 {
    let mut hash: u64 = 0xcbf2_9ce4_8422_2325;
    for byte in bytes {
        hash = (hash ^ u64::from(*byte)).wrapping_mul(0x100_0000_01b3);
    }
    hash
}

fn is_text(alloc: Global, n: u64, count: usize, hash: u64) -> bool {
    match gen_text(alloc, n) {
        Ok(text) => text.len() == count && hashed(text.as_slice()) == hash,
        Err(_) => false,
    }
}

#[test]
fn the_text_of_0_is_that_of_the_rule(rt: HostRuntime) {
    assert!(rt; is_text(rt.alloc(), 0, 85571, 0xfc78_c4f4_432f_81df));
}

#[test]
fn the_text_of_1_is_that_of_the_rule(rt: HostRuntime) {
    assert!(rt; is_text(rt.alloc(), 1, 85475, 0xd4f8_7569_0002_63ed));
}

#[test]
fn the_text_of_the_last_number_is_that_of_the_rule(rt: HostRuntime) {
    assert!(rt; is_text(rt.alloc(), u64::MAX, 85004, 0x9412_a839_980e_57ae));
}
