//! What a completion makes of a request.
ghost use Rattle.std.specs.Prelude.{◌≡◌, Some};
ghost use Rattle.cqe.specs.Steps.{goes_on, ends, unhinted, settled};
ghost use Rattle.cqe.specs.Words.{step_text};

use records::Outcome;
use request::Request;
use std::fmt;

/// A request after a completion.
#[derive(Clone, Copy)]
pub struct Step {
    pub request: Request,
    /// The result it ended with; none while it wants another submission.
    pub outcome: Option<Outcome>,
    /// The word to the file that hints are not supported.
    pub unsupported: bool,
}

impl Step {
    pub(crate) fn goes_on(request: Request) -> Step
        ensures { result ≡ goes_on request }
    {
        Step {
            request,
            outcome: None,
            unsupported: false,
        }
    }

    pub(crate) fn ends(request: Request, outcome: Outcome) -> Step
        ensures { result ≡ ends request outcome }
    {
        Step {
            outcome: Some(outcome),
            ..Step::goes_on(request)
        }
    }

    // The request goes on without its hint, and the file is told.
    pub(crate) fn unhinted(request: Request) -> Step
        ensures { result ≡ unhinted request }
    {
        Step {
            unsupported: true,
            ..Step::goes_on(request)
        }
    }

    // After a granted cancel nothing goes on.
    pub(crate) fn settled(self, cancelled: bool) -> Step
        ensures { result ≡ settled cancelled self }
    {
        match (self.outcome, cancelled) {
            (None, true) => Step {
                outcome: Some(Outcome::Timeout),
                ..self
            },
            _ => self,
        }
    }
}

impl fmt::Display for Step {
    ghost output = { λ step. Some (step_text step) };

    fn fmt<W: fmt::Write>(&self, f: &mut fmt::Formatter<W>) -> fmt::Result {
        match self.outcome {
            None if self.unsupported => f.write_str("goes on without hints"),
            None => f.write_str("goes on"),
            Some(outcome) => write!(f, "ends {outcome}"),
        }
    }
}
