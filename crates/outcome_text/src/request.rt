//! The words of the command line.

/// So many permutations run at most, unless the command line says otherwise.
const DEFAULT_LIMIT: u64 = 1_000_000;

pub const USAGE: &str = "outcomes [--html] [--serial] [--limit N] < FILE

Runs the permutations of a spec file, and says what can happen: each outcome with what its steps answered and what the
tables hold, how many permutations have it, and whether it is that of a serial order of the transactions.

  --html     print a page of HTML that fetches nothing, with the interleaving of each outcome
  --serial   end with status 4 where an outcome is that of no serial order
  --limit N  stop after N permutations, 1000000 if N is not given
  --help     print this

Exit status:
  0  all ran
  1  the file is refused, or its run ends early
  2  the command line is refused
  3  memory, a read or a write failed
  4  with --serial: an outcome is that of no serial order";

/// What the command line asks for.
#[derive(Clone, Copy)]
pub struct Request {
    pub html: bool,
    pub serial: bool,
    pub help: bool,
    pub limit: u64,
}

impl Request {
    /// Takes an option, and returns whether it is one that stands alone.
    fn take(&mut self, word: &str) -> bool {
        if word == "--html" {
            self.html = true;
        } else if word == "--serial" {
            self.serial = true;
        } else if word == "--help" {
            self.help = true;
        } else {
            return false;
        }
        true
    }

    /// Takes the word behind `--limit`, and returns whether it is a number.
    fn take_limit(&mut self, word: &str) -> bool {
        match word.parse::<u32>() {
            Ok(limit) => {
                self.limit = u64::from(limit);
                true
            }
            Err(_) => false,
        }
    }
}

/// What the words ask for, of which the first is the program's name; none where they are no call.
pub fn request_of(words: &[String]) -> Option<Request> {
    let mut request = Request {
        html: false,
        serial: false,
        help: false,
        limit: DEFAULT_LIMIT,
    };
    let mut is_limit = false;
    for k in 1..words.len() {
        let word = words[k].as_str();
        if is_limit {
            if !request.take_limit(word) {
                return None;
            }
            is_limit = false;
        } else if word == "--limit" {
            is_limit = true;
        } else if !request.take(word) {
            return None;
        }
    }
    if is_limit { None } else { Some(request) }
}
