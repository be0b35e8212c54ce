// An application that is loaded, and what it holds.
use crate::answers::LoadRefusal;
use crate::places::Region;
use crate::plans::AppPlan;
use spin_base::{Block, Seq};

/// So many places of a region, from a place on. The region is named by where it stands in the list of all regions
/// (`Region::place`).
#[derive(Clone, Copy)]
pub struct Range {
    pub region: usize,
    pub place: u64,
    pub size: u64,
}

/// What a plan asks a region for: so many places from a multiple of `align` on, or from the fixed place on; and the refusal where
/// the region has none.
#[derive(Clone, Copy)]
pub struct Claim {
    pub region: Region,
    pub size: u64,
    pub align: u64,
    pub fixed: Option<u64>,
    pub refusal: LoadRefusal,
}

/// An application that is loaded: its number and plan, the number of its first packet, the range that each claim of its plan got,
/// and the block of keys that each net got.
#[derive(Drop)]
pub struct LoadedApp {
    pub number: u32,
    pub plan: AppPlan,
    pub first: u32,
    pub ranges: Seq<Range>,
    pub blocks: Seq<Block>,
}
