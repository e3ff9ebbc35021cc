//! What the encodings keep. A law is the clause of a function of its own, whose number says nothing.
ghost use Rattle.records.specs.Encodings.{Encodings};

/// Different submissions have different bytes, and a token gives back what it was made from.
pub fn encodings_lose_nothing() -> u8
    ensures { Encodings }
{
    0
}
