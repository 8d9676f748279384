//! The options of the program.

ghost use Rattle.std.specs.Prelude.{◌≡◌, map, IfOk, string_bytes, unwrap_or};
ghost use Rattle.clap.specs.Words.{FailsBy, app_of, fault_of, kind_of};
ghost use Rattle.program_words.specs.Options.{program, GivesOptions, option_status};

use clap::error::ErrorKind;
use clap::{Arg, ArgAction, Command, Error, value_parser};
use std::alloc::{AllocError, Global};

/// So many permutations run at most, unless the command line says otherwise.
pub const DEFAULT_LIMIT: u64 = 1_000_000;

/// How the program is called, as help and mistakes say it.
const USAGE: &str = "isolationtester [OPTIONS] < FILE";

/// What stands at the end of the help.
const EXAMPLE: &str =
    "A spec file has setups, sessions with steps of SQL, and the orders in which the steps are started:

    setup { CREATE TABLE t (x int); INSERT INTO t VALUES (1); }
    session a
    step begin { BEGIN; UPDATE t SET x = x + 1; }
    step commit { COMMIT; }
    session b
    step add { UPDATE t SET x = x + 1; }
    permutation begin add commit

Without a permutation line all orders are tried. The text goes to standard output, faults go to standard error.

Exit status:
  0  all ran
  1  the file is refused, or its run ends early
  2  the command line is refused
  3  memory, a thread, a read or a write failed";

/// What the command line asks for.
#[derive(Clone, Copy)]
pub struct Options {
    /// The permutations are listed, and none runs.
    pub list: bool,
    /// Each session runs in a thread of its own, with no order between them, and the limit counts for nothing.
    pub free: bool,
    /// So many permutations run, or are listed, at most.
    pub limit: u64,
}

fn limit_of(given: Option<u32>) -> u64
    ensures { result ≡ unwrap_or given DEFAULT_LIMIT }
{
    match given {
        Some(limit) => u64::from(limit),
        None => DEFAULT_LIMIT,
    }
}

/// The program as clap reads its words.
fn command_of<'a>(alloc: Global) -> Result<Command<'a>, AllocError>
    ensures { IfOk result (λ command. app_of command ≡ program) }
{
    Command::new(alloc, "isolationtester")
        .about("Runs the permutations of the spec file that comes on standard input")
        .override_usage(USAGE)
        .after_help(EXAMPLE)
        .arg(
            Arg::new(alloc, "list")
                .long("list")
                .action(ArgAction::SetTrue)
                .help("List the permutations, and run none"),
        )?
        .arg(
            Arg::new(alloc, "free")
                .long("free")
                .action(ArgAction::SetTrue)
                .help("Run each session in a thread of its own, with no order between them"),
        )?
        .arg(
            Arg::new(alloc, "limit")
                .long("limit")
                .value_name("N")
                .value_parser(value_parser!(u32))
                .help("Stop after N permutations, 1000000 if N is not given"),
        )
}

/// The options among the words of a command line, of which the first is the program's name. Want of memory may stand in the
/// place of any answer.
pub fn options_of(alloc: Global, words: &[String]) -> Result<Options, Error>
    ensures gives { IfOk result (λ options. GivesOptions (map string_bytes words.now) options) }
    ensures refused { FailsBy (fault_of program (map string_bytes words.now)) result }
{
    let matches = command_of(alloc)?.try_get_matches_from(words)?;
    Ok(Options {
        list: matches.get_flag("list"),
        free: matches.get_flag("free"),
        limit: limit_of(matches.get_one::<u32>("limit")),
    })
}

/// The exit status where the words give no options: 0 after help was asked for, 3 where memory was refused, else 2.
pub fn status_of(error: &Error) -> u8
    ensures { result ≡ option_status (kind_of error.now) }
{
    match error.kind() {
        ErrorKind::DisplayHelp | ErrorKind::DisplayVersion => 0,
        ErrorKind::OutOfMemory => 3,
        _ => 2,
    }
}
