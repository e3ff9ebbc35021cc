//! What a cursor keeps. A law is the clause of a function of its own, whose number says nothing.
ghost use Rattle.rows.specs.Laws.{CursorLaws};

/// A cursor stands where its bytes say, and a submission's iovecs are what is left behind it.
pub fn cursors_keep_their_bytes() -> u8
    ensures { CursorLaws }
{
    0
}
