// How much a chip has.

/// How many entries a chip's router has (SpiNNaker datasheet).
pub const ROUTER_ENTRIES: usize = 1024;

/// How many bytes of shared memory a chip has (SpiNNaker datasheet).
pub const CHIP_MEMORY: u64 = 134_217_728;
