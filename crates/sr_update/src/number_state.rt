ghost use Rattle.std.specs.Prelude.{◌≡◌};
ghost use Rattle.sr_update.specs.Numbers.{is_free, is_current, is_draining};

/// What a version number of a virtual address stands for. (SilkRoad, SIGCOMM 2017: an update gives the new pool a
/// version number of its own, and a number is used again once no connection has it.)
#[derive(Clone, Copy, Debug, PartialEq, Eq)]
pub enum NumberState {
    /// For no pool: it was never given, or was released.
    Free,
    /// For a pool that new connections may get. In an update the number that is replaced is Current as well, up to its end.
    Current,
    /// For a pool that no new connection gets, and that registered ones may still have.
    Draining,
}

// Whether a number is Free.
pub(crate) fn is_free(state: NumberState) -> bool
    ensures { result ≡ is_free state }
{
    matches!(state, NumberState::Free)
}

// Whether a number is Current.
pub(crate) fn is_current(state: NumberState) -> bool
    ensures { result ≡ is_current state }
{
    matches!(state, NumberState::Current)
}

// Whether a number is Draining.
pub(crate) fn is_draining(state: NumberState) -> bool
    ensures { result ≡ is_draining state }
{
    matches!(state, NumberState::Draining)
}
