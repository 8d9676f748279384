//! Which strengths conflict.

use row_locks::Strength;
use row_locks::Strength::{KeyShare, NoKeyUpdate, Share, Update};

pub const STRENGTHS: [Strength; 4] = [KeyShare, Share, NoKeyUpdate, Update];

/// Table 13.3 of the PostgreSQL manual: what is requested, and where it conflicts with what is held, in the order of the strengths.
pub const CONFLICTS: [(Strength, &'static [u8; 4]); 4] = [
    (KeyShare, b"   X"),
    (Share, b"  XX"),
    (NoKeyUpdate, b" XXX"),
    (Update, b"XXXX"),
];
