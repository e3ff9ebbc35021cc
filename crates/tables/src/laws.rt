//! What holds of every list. A law is the clause of a function of its own, whose number says nothing.
ghost use Rattle.tables.specs.ListLaws.{ListLaws};

/// A list over lent places holds what was appended or written, and its first place of an element is the first.
pub fn lists_hold_what_was_put<X: Copy>() -> u8
    ensures { ListLaws X }
{
    0
}
