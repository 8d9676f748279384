//! What a terminal shows of a fault besides its line of the file: what is wrong, in words, and what cures it.

ghost use Rattle.std.specs.Prelude.{◌≡◌};
ghost use Rattle.program_words.specs.Cures.{session_words, spec_words, sql_words, stands_at, words_for};

use spec_files::RunFault;
use spec_parser::{SpecFault, What};
use sql_trees::SqlFault;

/// A byte order mark, in UTF-8.
const MARK: &[u8] = b"\xef\xbb\xbf";

fn stands_at(file: &[u8], at: usize, text: &[u8]) -> bool
    ensures { result ≡ stands_at file.now at text.now }
{
    let (_, behind) = file.split_at(at.min(file.len()));
    behind.starts_with(text)
}

fn session_words(file: &[u8], at: usize) -> &'static str
    ensures { result.now ≡ session_words file.now at }
{
    if stands_at(file, at, MARK) {
        "HINT:  A byte order mark stands here, and counts as letters. Save the file without it.\n"
    } else if stands_at(file, at, b"teardown") {
        "HINT:  A file has one main teardown, before its sessions. Put all statements into that one, or into a session's teardown.\n"
    } else {
        ""
    }
}

fn spec_words(file: &[u8], fault: &SpecFault) -> &'static str
    ensures { result.now ≡ spec_words file.now fault.now }
{
    match fault {
        SpecFault::Expected {
            what: What::Session,
            at,
        } => session_words(file, *at),
        SpecFault::NoticesLeftOut { .. } =>
            "HINT:  The marker that counts notices is not in this tool. Leave it out.\n",
        _ => "",
    }
}

fn sql_words(fault: SqlFault) -> &'static str
    ensures { result.now ≡ sql_words fault }
{
    match fault {
        SqlFault::LeftOut(_) => {
            "HINT:  PostgreSQL has this, and this tool's SQL has not. \"What runs\" in README.md says what there is.\n"
        }
        SqlFault::DdlInSession(_) => {
            "HINT:  Tables are made and dropped in main setups and the main teardown alone. Move this statement there.\n"
        }
        _ => "",
    }
}

/// What is said of a fault of the file that has a known cure.
pub(crate) fn words_for(file: &[u8], fault: &RunFault) -> &'static str
    ensures { result.now ≡ words_for file.now fault.now }
{
    match fault {
        RunFault::Spec(fault) => spec_words(file, fault),
        RunFault::Sql(told) => sql_words(told.fault),
        RunFault::SetupFailed { .. } => {
            "HINT:  It is a main setup, or that of a session. Make a step of each in turn to see which.\n"
        }
        RunFault::SetupWaits => {
            "HINT:  A setup would wait for what an earlier setup holds. End the transaction of that one, or begin it in a step.\n"
        }
        RunFault::TooManyPermutations => {
            "HINT:  Let more of them run by --limit N, or write permutation lines for those that are wanted.\n"
        }
        RunFault::NotUtf8 { .. } => {
            "HINT:  Convert the file, from Latin 1 for example: iconv -f latin1 -t utf8 FILE > NEW\n"
        }
        _ => "",
    }
}
