//! Identities of slots, and the token that a submission carries.
ghost use Rattle.std.specs.Prelude.{◌≡◌, Some};
ghost use Rattle.records.specs.Tokens.{token, token_index, token_generation};
ghost use Rattle.records.specs.Words.{id_text, file_text};

use std::fmt;

/// Handle to a slot: it stops resolving once its slot is removed.
#[derive(Clone, Copy, PartialEq, Eq)]
pub struct Id {
    pub index: u32,
    pub generation: u64,
}

// Two types of one shape, so that neither can be given for the other.

/// A waiter's slot.
#[derive(Clone, Copy, PartialEq, Eq)]
pub struct WaiterId(pub Id);

/// An open file's slot.
#[derive(Clone, Copy, PartialEq, Eq)]
pub struct FileId(pub Id);

// Not `From`: the token loses the high half of the generation, and gives back a pair.
impl WaiterId {
    /// The token of this waiter's submissions: the generation wraps at 2^32 there.
    pub fn user_data(self) -> u64
        ensures { result ≡ token self }
    {
        (self.0.generation % 4294967296) * 4294967296 + u64::from(self.0.index)
    }

    /// The slot index and the low half of the generation that a token names.
    pub fn from_user_data(user_data: u64) -> (u32, u32)
        ensures index { result.0 ≡ token_index user_data }
        ensures generation { result.1 ≡ token_generation user_data }
    {
        (
            (user_data % 4294967296) as u32,
            (user_data / 4294967296) as u32,
        )
    }
}

impl fmt::Display for Id {
    ghost output = { λ id. Some (id_text id) };

    fn fmt<W: fmt::Write>(&self, f: &mut fmt::Formatter<W>) -> fmt::Result {
        write!(f, "{} {}", self.index, self.generation)
    }
}

impl fmt::Display for FileId {
    ghost output = { λ file. Some (file_text file) };

    fn fmt<W: fmt::Write>(&self, f: &mut fmt::Formatter<W>) -> fmt::Result {
        write!(f, "file {}", self.0)
    }
}
