//! A lock that a transaction holds on a row.
ghost use Rattle.std.specs.Prelude.{◌≡◌};
ghost use Rattle.row_locks.specs.Held.{conflicts};
ghost use Rattle.row_locks.specs.Inner.Searching.{is_against};

use row_versions::{RowId, TxId};
use sql_trees::Strength;

/// A lock: the transaction holds the row.
#[derive(Clone, Copy)]
pub struct Held {
    pub row: RowId,
    pub tx: TxId,
    pub strength: Strength,
}

/// Whether one transaction can't be given a row so strongly while another holds it so (PostgreSQL manual, table 13.3).
pub fn conflicts(held: Strength, requested: Strength) -> bool
    ensures { result ≡ conflicts held requested }
{
    match held {
        Strength::KeyShare => matches!(requested, Strength::Update),
        Strength::Share => matches!(requested, Strength::NoKeyUpdate | Strength::Update),
        Strength::NoKeyUpdate => !matches!(requested, Strength::KeyShare),
        Strength::Update => true,
    }
}

/// Whether the lock stands against the transaction's request.
pub fn is_against(held: &Held, row: RowId, tx: TxId, strength: Strength) -> bool
    ensures { result ≡ is_against row tx strength held.now }
{
    held.row.0 == row.0 && held.tx.0 != tx.0 && conflicts(held.strength, strength)
}
