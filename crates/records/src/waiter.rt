//! The lifecycle of a waiter, and who takes its result.
ghost use Rattle.std.specs.Prelude.{◌≡◌};
ghost use Rattle.records.specs.States.{cancel_granted};

/// Lifecycle of a pending waiter.
// Two states with names of their own; an `Option` of an `Option` would be no plainer.
#[derive(Clone, Copy)]
pub enum WaiterState {
    Active { tick: Option<u64> },
    CancelRequested,
}

impl WaiterState {
    /// Whether a cancel was granted.
    pub fn is_cancelled(self) -> bool
        ensures { result ≡ cancel_granted self }
    {
        match self {
            WaiterState::Active { .. } => false,
            WaiterState::CancelRequested => true,
        }
    }
}

/// Who takes a waiter's result.
#[derive(Clone, Copy)]
pub enum Observer {
    /// The result stays in the slot; the waker is absent until one is set.
    Local { waker: Option<u32> },
    Forwarded { sender: u32 },
    DetachedSync { sender: u32 },
    Orphaned,
}
