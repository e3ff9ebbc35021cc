//! The lines of a transcript.
ghost use Rattle.std.specs.Prelude.{◌≡◌};
ghost use Rattle.transfer.specs.Direct.{reads_direct, gives_up};

use cqe::{CqeResult, Step};
use records::{Denial, Iovec, Opcode, Outcome, Submission};
use request::Request;
use std::{fmt, io};

/// A longer list is shown by its ends.
const MOST_SHOWN: usize = 8;

const FIRST_SHOWN: usize = 3;

/// Bytes as a submission's line shows them.
#[derive(Clone, Copy)]
struct Hex([u8; 64]);

impl fmt::Display for Hex {
    fn fmt<W: fmt::Write>(&self, f: &mut fmt::Formatter<W>) -> fmt::Result {
        for byte in self.0 {
            write!(f, "{byte:02x}")?;
        }
        Ok(())
    }
}

pub(crate) fn show_refusal(rt: &HostRuntime, denial: Denial) -> io::Result<()> {
    println!(rt; "refused {}: {denial}", denial.number())
}

/// The submission in flight stays as it was.
pub(crate) fn show_misfit(rt: &HostRuntime, res: i32, denial: Denial) -> io::Result<()> {
    println!(rt; "completion {res}: refused {}, {denial}", denial.number())
}

fn is_direct(request: Request) -> bool
    ensures { result ≡ reads_direct request }
{
    match request {
        Request::ReadAt(q) => q.direct.is_some(),
        _ => false,
    }
}

fn gives_up_direct(before: Request, step: Step) -> bool
    ensures { result ≡ gives_up before step.request step.outcome }
{
    match step.outcome {
        None => is_direct(before) && !is_direct(step.request),
        Some(_) => false,
    }
}

pub(crate) fn show_completion(
    rt: &HostRuntime,
    res: i32,
    class: Option<CqeResult>,
    before: Request,
    step: Step,
) -> io::Result<()> {
    print!(rt; "completion {res}: ")?;
    if let Some(class) = class {
        print!(rt; "{class}, ")?;
    }
    if gives_up_direct(before, step) {
        print!(rt; "gives up direct reading, ")?;
    }
    rt.println(step)
}

pub(crate) fn show_end(rt: &HostRuntime, request: Request, outcome: Outcome) -> io::Result<()> {
    let (output, resources) = request.complete(outcome);
    println!(rt; "result: {output}")?;
    println!(rt; "held: {resources}")
}

fn show_iovecs(rt: &HostRuntime, iovecs: &[Iovec]) -> io::Result<()> {
    for iovec in iovecs {
        println!(rt; "  iovec {iovec}")?;
    }
    Ok(())
}

fn show_list(rt: &HostRuntime, iovecs: &[Iovec]) -> io::Result<()> {
    if iovecs.len() <= MOST_SHOWN {
        return show_iovecs(rt, iovecs);
    }
    show_iovecs(rt, &iovecs[0..FIRST_SHOWN])?;
    rt.println("  ...")?;
    show_iovecs(rt, &iovecs[iovecs.len() - 1..])
}

/// The submission is spent before an error may leave: it cannot be let go.
pub(crate) fn show_submission(
    rt: &HostRuntime,
    submission: Submission,
    iovecs: &[Iovec],
) -> io::Result<()> {
    let opcode = submission.opcode;
    let length = submission.length;
    let mut bytes = [0; 64];
    let shown = println!(rt; "submission: {submission}");
    submission.write(&mut bytes);
    shown?;
    println!(rt; "  {}", Hex(bytes))?;
    match iovecs.get(0..length as usize) {
        Some(carried) if opcode == u8::from(Opcode::Writev) => show_list(rt, carried),
        _ => Ok(()),
    }
}
