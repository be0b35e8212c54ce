// Merges of blocks and changes of a list, worked out by hand.
use spin_base::{Memory, Seq};
use std::alloc::Global;
use tern_word::{block_of, matches, merge_of};

// The keys 0 and 3 agree on all bits but the lowest two: their merge has the keys 0 to 3 and no other.
fn is_merged() -> bool {
    let blocks = [block_of(0, 1), block_of(3, 1)];
    let merged = merge_of(&blocks);
    merged.key == 0 && merged.mask == 0xffff_fffc && matches(merged, 3) && !matches(merged, 4)
}

#[test]
fn a_merge_has_the_bits_on_which_its_blocks_agree(rt: HostRuntime) {
    assert!(rt; is_merged());
}

// Of 1, 2 and 3 the second is made 7, and the first leaves.
fn changed(alloc: Global) -> Result<(Option<u32>, Seq<u32>), Memory> {
    let numbers = vec![in alloc; 1u32, 2, 3]?;
    let mut list = Seq::from_vec(numbers);
    *list.get_mut(1) = 7;
    let first = list.pop_front();
    Ok((first, list))
}

#[test]
fn an_item_is_written_and_the_first_leaves(rt: HostRuntime) {
    let is_right = match changed(rt.alloc()) {
        Ok((first, list)) => first == Some(1) && list.as_slice() == [7, 3].as_slice(),
        Err(_) => false,
    };
    assert!(rt; is_right);
}
