// When a row was tried with later ones of its route, and when it changed.
ghost use Rattle.cover_merge.specs.Tried.{IsFresh, IsTriedNow};

/// When a row was last tried with all later ones of its route, 0 where it was not, and when it last changed, both counted in
/// merges.
#[derive(Clone, Copy)]
pub(crate) struct Times {
    pub(crate) tried: usize,
    pub(crate) changed: usize,
}

/// Those of a row that changed now.
pub(crate) fn changed(now: usize) -> Times
    ensures { IsFresh now result }
{
    Times {
        tried: 0,
        changed: now,
    }
}

/// Those of a row that was tried now with all later ones of its route, and is no legal pair with any.
pub(crate) fn marked(times: Times, now: usize) -> Times
    ensures { IsTriedNow now times result }
{
    Times {
        tried: now,
        changed: times.changed,
    }
}
