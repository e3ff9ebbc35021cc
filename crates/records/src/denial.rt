//! Why a call is refused.
ghost use Rattle.std.specs.Prelude.{◌≡◌, Some};
ghost use Rattle.records.specs.Answers.{denial_number, denial_value};
ghost use Rattle.records.specs.Words.{denial_text};

use std::fmt;

/// The cause of a refusal. Where several hold, the smallest number counts.
#[derive(Clone, Copy)]
pub enum Denial {
    FileNotLive,
    LimitBroken,
    UnfitForDirect,
    WrongObserver,
    NoFreeSlot,
    NoSuchWaiter,
    InFlight,
    CancelGranted,
    SettledOtherwise,
    PermitConflict,
    UnknownToken,
    /// The largest result that fits the submission.
    CompletionMisfit { largest: u32 },
    FileInUse,
    /// The places that the list must have.
    ListTooShort { needed: u32 },
}

// Each call says one thing of a refusal and loses the rest, which `From` could not say.
impl Denial {
    pub fn number(self) -> u32
        ensures { result ≡ denial_number self }
    {
        match self {
            Denial::FileNotLive => 1,
            Denial::LimitBroken => 2,
            Denial::UnfitForDirect => 3,
            Denial::WrongObserver => 4,
            Denial::NoFreeSlot => 5,
            Denial::NoSuchWaiter => 6,
            Denial::InFlight => 7,
            Denial::CancelGranted => 8,
            Denial::SettledOtherwise => 9,
            Denial::PermitConflict => 10,
            Denial::UnknownToken => 11,
            Denial::CompletionMisfit { .. } => 12,
            Denial::FileInUse => 13,
            Denial::ListTooShort { .. } => 14,
        }
    }

    /// The number told beside the cause, if any.
    pub fn value(self) -> Option<u32>
        ensures { result ≡ denial_value self }
    {
        match self {
            Denial::CompletionMisfit { largest } => Some(largest),
            Denial::ListTooShort { needed } => Some(needed),
            _ => None,
        }
    }
}

impl fmt::Display for Denial {
    ghost output = { λ denial. Some (denial_text denial) };

    fn fmt<W: fmt::Write>(&self, f: &mut fmt::Formatter<W>) -> fmt::Result {
        match self {
            Denial::FileNotLive => f.write_str("file not live"),
            Denial::LimitBroken => f.write_str("limit broken"),
            Denial::UnfitForDirect => f.write_str("unfit for direct reading"),
            Denial::WrongObserver => f.write_str("wrong observer"),
            Denial::NoFreeSlot => f.write_str("no free slot"),
            Denial::NoSuchWaiter => f.write_str("no such waiter"),
            Denial::InFlight => f.write_str("in flight"),
            Denial::CancelGranted => f.write_str("cancel granted"),
            Denial::SettledOtherwise => f.write_str("settled otherwise"),
            Denial::PermitConflict => f.write_str("permit conflict"),
            Denial::UnknownToken => f.write_str("unknown token"),
            Denial::CompletionMisfit { largest } => write!(f, "at most {largest}"),
            Denial::FileInUse => f.write_str("file in use"),
            Denial::ListTooShort { needed } => write!(f, "list too short, {needed} places needed"),
        }
    }
}
