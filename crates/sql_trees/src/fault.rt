//! Why a block of SQL text was not read.

ghost use Rattle.std.specs.Prelude.{◌≡◌, ◌+◌, ◌<◌, ◌^◌, Some};
ghost use Rattle.sql_trees.specs.declared.fault.SqlFault.TheVariants.{Memory};
ghost use Rattle.sql_trees.specs.Faults.{fault_place, moved};
ghost use Rattle.sql_trees.specs.FaultText.{sql_fault_text};

use iso_lexer::Fault;
use std::alloc::{AllocError, AllocFailed};
use std::error::Error;
use std::fmt;

/// The first fault of a block, with the byte at which it stands.
#[derive(Clone, Copy, Debug)]
pub enum SqlFault {
    Memory,
    /// The text has no tokens.
    Lex(Fault),
    /// No rule allows the token there, or the text's end.
    Syntax(usize),
    /// A part of SQL that is left out begins there.
    LeftOut(usize),
    /// The token there makes an expression deeper than `MAX_DEPTH`, or is one open parenthesis more than that.
    TooDeep(usize),
    /// A statement more than `MAX_STMTS` begins there.
    TooMany(usize),
    /// A CREATE or DROP in a session's block.
    DdlInSession(usize),
    /// A column or key that stands there twice, or that the table lacks.
    BadColumns(usize),
}

impl fmt::Display for SqlFault {
    ghost output = { λ fault. Some (sql_fault_text fault) };

    fn fmt<W: fmt::Write>(&self, f: &mut fmt::Formatter<W>) -> fmt::Result {
        let (name, at) = match self {
            SqlFault::Memory => return f.write_str("Memory"),
            SqlFault::Lex(fault) => return fault.fmt(f),
            SqlFault::Syntax(at) => ("Q1 Syntax", at),
            SqlFault::LeftOut(at) => ("Q2 LeftOut", at),
            SqlFault::TooDeep(at) => ("Q3 TooDeep", at),
            SqlFault::TooMany(at) => ("Q4 TooMany", at),
            SqlFault::DdlInSession(at) => ("Q5 DdlInSession", at),
            SqlFault::BadColumns(at) => ("Q6 BadColumns", at),
        };
        write!(f, "{name} at byte {at}")
    }
}

impl Error for SqlFault {}

impl From<AllocError> for SqlFault {
    ghost from_gives = { λ _ e. e ≡ Memory };

    fn from(_e: AllocError) -> SqlFault {
        SqlFault::Memory
    }
}

impl<T: Drop> From<AllocFailed<T>> for SqlFault {
    ghost from_gives = { λ _ e. e ≡ Memory };

    fn from(_e: AllocFailed<T>) -> SqlFault {
        SqlFault::Memory
    }
}

impl SqlFault {
    /// The same fault in a text in front of which so many bytes stand.
    pub fn moved(self, by: usize) -> SqlFault
        requires { fault_place self + by < 2 ^ 64 }
        ensures { result ≡ moved by self }
    {
        match self {
            SqlFault::Memory => SqlFault::Memory,
            SqlFault::Lex(Fault { kind, at }) => SqlFault::Lex(Fault { kind, at: at + by }),
            SqlFault::Syntax(at) => SqlFault::Syntax(at + by),
            SqlFault::LeftOut(at) => SqlFault::LeftOut(at + by),
            SqlFault::TooDeep(at) => SqlFault::TooDeep(at + by),
            SqlFault::TooMany(at) => SqlFault::TooMany(at + by),
            SqlFault::DdlInSession(at) => SqlFault::DdlInSession(at + by),
            SqlFault::BadColumns(at) => SqlFault::BadColumns(at + by),
        }
    }
}
