//! Laws of keys and of their index: each function's contract is one of them, and its body does nothing.
ghost use Rattle.unique_keys.specs.Laws.{NullIsFree, IndexKeepsUp, IndexGoesOn};

/// A key with a NULL is free.
pub fn null_is_free()
    ensures { NullIsFree }
{}

/// An index stays up to date where each write is noted and each transaction that is rolled back is forgotten.
pub fn index_keeps_up()
    ensures stays { IndexKeepsUp }
    ensures goes_on { IndexGoesOn }
{}
