//! The limits of the tool: definitions, contracts and code of all crates cite them, so that each is changed here alone.

/// The most bytes that a spec file has.
pub const LONGEST_FILE: usize = 1_048_576;

/// The most sessions of a file.
pub const MOST_SESSIONS: usize = 64;

/// The most steps of a file, those of all its sessions.
pub const MOST_STEPS: usize = 1000;

/// The most entries of a permutation.
pub const MOST_ENTRIES: usize = 1000;

/// The most nodes of an expression that stand within one another, and the most parentheses that are open at a time.
pub const MAX_DEPTH: usize = 64;

/// The most statements of a block.
pub const MAX_STMTS: usize = 256;
