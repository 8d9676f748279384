//! What is so of every list of tokens.

ghost use Rattle.sql_parser.specs.Laws.{BlockFaultsAreFirst, BlocksAreRead, DdlIsRefused, FaultsAreFirst, TooManyIsRefused};

/// The tokens are read as these statements exactly where they spell them, there are `MAX_STMTS` at most, and each is one that a block keeps.
pub fn blocks_are_read()
    ensures { BlocksAreRead }
{}

/// The tokens before a fault of one token begin a statement, whatever its depth and its names, and the token's class says which fault it is;
/// with that token no statement begins.
pub fn faults_are_first()
    ensures { FaultsAreFirst }
{}

/// The same of a block.
pub fn block_faults_are_first()
    ensures { BlockFaultsAreFirst }
{}

/// DdlInSession is told exactly where a statement of a session's block begins with CREATE or DROP, at that word.
pub fn ddl_is_refused()
    ensures { DdlIsRefused }
{}

/// TooMany is told exactly at the first token of a statement behind `MAX_STMTS` that a block keeps.
pub fn too_many_is_refused()
    ensures { TooManyIsRefused }
{}
