//! Why a list takes no more.
ghost use Rattle.std.specs.Prelude.{Some};
ghost use Rattle.tables.specs.Words.{full_text};

use std::error::Error;
use std::fmt;

/// No place is left: nothing changed.
#[derive(Debug, Clone, Copy, PartialEq, Eq)]
pub struct Full;

impl fmt::Display for Full {
    ghost output = { λ _. Some full_text };

    fn fmt<W: fmt::Write>(&self, f: &mut fmt::Formatter<W>) -> fmt::Result {
        f.write_str("no place is left")
    }
}

impl Error for Full {}
