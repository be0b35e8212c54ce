// How rounds go.
ghost use Rattle.std.specs.Prelude.{◌≤◌};

/// How rounds go: how often a router offers a copy, how many workers there are, and how many turns each of their actors takes
/// at most. Each is at least 1.
#[derive(Clone, Copy)]
pub struct Pace {
    pub patience: u32,
    pub workers: u32,
    pub turns: u32,
    ghost patient: { 1 ≤ patience },
    ghost staffed: { 1 ≤ workers },
    ghost some_turns: { 1 ≤ turns },
}

/// A round: its number, the gate that its workers enter, and whether each actor is asked to look at all its queues in its first turn.
#[derive(Drop)]
pub struct Round<'a, G> {
    pub number: u32,
    pub gate: &'a G,
    pub thorough: bool,
}
