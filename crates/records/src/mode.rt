//! How a read or a write treats the page cache, and how a write becomes durable.
ghost use Rattle.std.specs.Prelude.{◌≡◌, Some};
ghost use Rattle.records.specs.Modes.{hinting, started};
ghost use Rattle.records.specs.Words.{state_text};

use std::fmt;

/// Page-cache policy of a positioned read or write.
#[derive(Clone, Copy)]
pub enum Cache {
    Enabled,
    /// Hints that the bytes need not stay in the page cache.
    Disabled,
}

impl Cache {
    /// Whether the hint goes along.
    pub fn hints(self) -> bool
        ensures { result ≡ hinting self }
    {
        match self {
            Cache::Enabled => false,
            Cache::Disabled => true,
        }
    }
}

/// How a write is asked to be made.
#[derive(Clone, Copy)]
pub enum WriteMode {
    /// Not durable by itself.
    Writing,
    /// Each submission is durable.
    WritingSync,
    /// Plain submissions, then one trailing data sync.
    WritingBeforeSync,
}

/// Where a write stands.
#[derive(Clone, Copy)]
pub enum WriteAtState {
    Writing,
    WritingSync,
    WritingBeforeSync,
    /// All bytes are reported, and the trailing data sync is owed.
    Syncing,
}

/// Where a write made so begins.
impl From<WriteMode> for WriteAtState {
    ghost from_gives = { λ mode state. state ≡ started mode };

    fn from(mode: WriteMode) -> WriteAtState {
        match mode {
            WriteMode::Writing => WriteAtState::Writing,
            WriteMode::WritingSync => WriteAtState::WritingSync,
            WriteMode::WritingBeforeSync => WriteAtState::WritingBeforeSync,
        }
    }
}

impl fmt::Display for WriteAtState {
    ghost output = { λ state. Some (state_text state) };

    fn fmt<W: fmt::Write>(&self, f: &mut fmt::Formatter<W>) -> fmt::Result {
        f.write_str(match self {
            WriteAtState::Writing => "writing",
            WriteAtState::WritingSync => "writing-sync",
            WriteAtState::WritingBeforeSync => "writing-before-sync",
            WriteAtState::Syncing => "syncing",
        })
    }
}
