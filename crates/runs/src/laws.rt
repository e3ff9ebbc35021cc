//! What holds of every run of one transfer. A law is the clause of a function of its own, whose number says nothing.
ghost use Rattle.runs.specs.Laws.{EveryRunIsLawful};
ghost use Rattle.runs.specs.Situations.{Situations};

/// From its admission on, whatever the kernel answers, a transfer keeps its laws.
pub fn every_run_is_lawful() -> u8
    ensures { EveryRunIsLawful }
{
    0
}

/// Worked situations, each with the answer that the rules give.
pub fn situations_come_out() -> u8
    ensures { Situations }
{
    0
}
