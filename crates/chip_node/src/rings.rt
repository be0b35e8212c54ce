// Going round a ring of places, from a start that goes round with the turns.
ghost use Rattle.std.specs.Prelude.{◌≡◌, ◌⊎◌, ◌+◌, ◌%◌, ◌<◌, ◌≤◌};

/// So many places in a ring, and where going round begins.
#[derive(Clone, Copy)]
pub struct Ring {
    start: usize,
    count: usize,
    ghost inside: { start ≤ count },
}

impl Ring {
    /// The ring of `count` places, begun as the turn of this number begins it: one place further in each turn.
    pub fn of_turn(number: u32, count: usize) -> Ring
        ensures count { result.count ≡ count }
        ensures start { 0 < count → result.start ≡ number % count }
    {
        let start = if count == 0 {
            0
        } else {
            number as usize % count
        };
        Ring { start, count }
    }

    /// The place that is so many steps behind the start.
    pub fn place_after(self, step: usize) -> usize
        ensures inside { step < self.count → result < self.count }
        ensures place { step < self.count
            → (result ≡ self.start + step) ⊎ (result + self.count ≡ self.start + step) }
    {
        if step < self.count - self.start {
            self.start + step
        } else {
            step - (self.count - self.start)
        }
    }
}
