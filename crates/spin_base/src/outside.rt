// Where bytes come from and where they go, and the gate that workers enter.
ghost use Rattle.std.specs.Prelude.{◌≡◌, ◌<◌, ◌≤◌, ℕ, List, Option, length, take, IfOk, OnOk, OnErr};
ghost use Rattle.spin_base.specs.Outside.{FaultsRose, Reads, Takes};

use crate::wants::Failed;

/// Where bytes come from.
pub trait Source {
    /// The bytes still to come, where the source tells them.
    ghost left: { Self → Option (List ℕ) };

    /// How often reading has failed, and nothing else. The counter stops at its last value, 2^64 - 1.
    ghost faults: { Self → ℕ };

    /// Reads up to as many bytes as the buffer has. 0 is the end of input. After `Failed` no byte is lost.
    fn read(&mut self, buffer: &mut [u8]) -> Result<usize, Failed>
        requires { 0 < length buffer.old }
        ensures count { IfOk result (λ n. n ≤ length buffer.old) }
        ensures reads { IfOk result (λ n. Reads (left self.old) n buffer.new (left self.new)) }
        ensures failed { OnErr result (FaultsRose (faults self.old) (faults self.new)) }
        ensures kept { OnErr result (left self.new ≡ left self.old) }
        ensures no_fault { OnOk result (faults self.new ≡ faults self.old) }
        ensures counted { faults self.old ≤ faults self.new };
}

/// Where bytes go.
pub trait Sink {
    /// The bytes taken so far, where the sink tells them.
    ghost written: { Self → Option (List ℕ) };

    /// How often writing has failed. The counter stops at its last value, 2^64 - 1.
    ghost faults: { Self → ℕ };

    /// Takes at least one byte of the piece, from its front. After `Failed` none was taken.
    fn write(&mut self, piece: &[u8]) -> Result<usize, Failed>
        requires { 0 < length piece.now }
        ensures some { IfOk result (λ n. 0 < n) }
        ensures count { IfOk result (λ n. n ≤ length piece.now) }
        ensures takes { IfOk result (λ n. Takes (written self.old) (take n piece.now)
            (written self.new)) }
        ensures failed { OnErr result (FaultsRose (faults self.old) (faults self.new)) }
        ensures kept { OnErr result (written self.new ≡ written self.old) }
        ensures counted { faults self.old ≤ faults self.new };
}

/// What workers enter before they cover tables, and before each of their turns. A gate may hold them. No clause says when it is entered,
/// or by whom: what follows is what the program does.
///
/// Workers are numbered from 0. What is to be done is cut in runs of equal length, the last shorter, a run for each worker: so
/// there may be fewer than were asked for, as three for five chips and four workers. Phase 0 is covering: each worker enters it
/// once, with step 0. Phase r from 1 is the r-th round, counted anew where copies were put back: each worker enters it with step s
/// before it gives its actors their turn s + 1, and once more after its last turn.
pub trait Gate: Sync {
    fn enter(&self, phase: u32, worker: u32, step: u32);
}

/// A gate that stops nobody.
#[derive(Clone, Copy)]
pub struct FreeGate;

impl Gate for FreeGate {
    fn enter(&self, _phase: u32, _worker: u32, _step: u32) {}
}
