//! What the tests ask.

use std::process::Abort;

/// Fails the test where the claim is false; `of` says which case it is.
pub fn holds(rt: &impl Abort, claim: bool, of: &str) {
    assert!(rt; claim, "{of}");
}
