//! The kernel's signed result, sorted into what a request looks at.
ghost use Rattle.std.specs.Prelude.{◌≡◌, Some};
ghost use Rattle.cqe.specs.Classes.{classified};
ghost use Rattle.cqe.specs.Words.{class_text};

use std::fmt;

const EINTR: u32 = 4;

const EAGAIN: u32 = 11;

pub(crate) const EOPNOTSUPP: u32 = 95;

pub(crate) const ECANCELED: u32 = 125;

/// The largest error code.
const MAX_ERRNO: i32 = 4095;

/// A completion's result as a request looks at it.
#[derive(Clone, Copy)]
pub enum CqeResult {
    /// Nothing happened, and the same may be tried again.
    Retry,
    /// Ended by the cancel that was granted.
    Cancelled,
    Error { code: u32 },
    /// No bytes, though some were asked for.
    Zero,
    Count { bytes: u32 },
}

/// Sorts a result; none where it is below every error code. The only place that sees its sign.
pub fn classify(res: i32, cancelled: bool, empty: bool) -> Option<CqeResult>
    ensures { result ≡ classified res cancelled empty }
{
    if res < -MAX_ERRNO {
        return None;
    }
    if res >= 0 {
        let bytes = res as u32;
        if bytes == 0 && !empty {
            return Some(CqeResult::Zero);
        }
        return Some(CqeResult::Count { bytes });
    }
    match (-res) as u32 {
        EAGAIN | EINTR => Some(CqeResult::Retry),
        ECANCELED if cancelled => Some(CqeResult::Cancelled),
        code => Some(CqeResult::Error { code }),
    }
}

impl fmt::Display for CqeResult {
    ghost output = { λ class. Some (class_text class) };

    fn fmt<W: fmt::Write>(&self, f: &mut fmt::Formatter<W>) -> fmt::Result {
        match self {
            CqeResult::Retry => f.write_str("retry"),
            CqeResult::Cancelled => f.write_str("cancelled"),
            CqeResult::Error { code } => write!(f, "error {code}"),
            CqeResult::Zero => f.write_str("zero"),
            CqeResult::Count { bytes } => write!(f, "count {bytes}"),
        }
    }
}
