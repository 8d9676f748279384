//! DROPs of tables, and which of them count.

ghost use Rattle.std.specs.Prelude.{◌≡◌, ◌++◌, ◌∷◌, [], OnOk};
ghost use Rattle.session_machine.specs.Tables.{counts};
ghost use Rattle.session_machine.specs.Inner.Pieces.{is_own, is_dropped};

use crate::table::Dropped;
use row_versions::{TxId, Versions};
use std::alloc::{AllocError, Global};
use std::collections::HashMap;
use std::marker::Model;

fn is_own(own: Option<TxId>, tx: TxId) -> bool
    ensures { result ≡ is_own own tx }
{
    match own {
        Some(own) => own.0 == tx.0,
        None => false,
    }
}

/// Whether what the transaction did counts for `own`: it is committed, or one's own.
pub(crate) fn does_count<V: Versions>(store: &V, own: Option<TxId>, tx: TxId) -> bool
    ensures { result ≡ counts (V.content store.now) own tx }
{
    store.has_committed(tx) || is_own(own, tx)
}

/// Whether one of these is a DROP of the table at the place that counts for `own`.
fn has_drop<V: Versions>(drops: &[Dropped], store: &V, own: Option<TxId>, table: usize) -> bool
    ensures { result ≡ is_dropped (V.content store.now) own drops.now table }
{
    drops.iter().any(|dropped| dropped.table() == table && does_count(store, own, dropped.by()))
}

/// The DROPs in the order done. None is ever taken out.
#[derive(Drop)]
pub struct Drops {
    all: Vec<Dropped>,
    /// Who dropped a table last, by the table's place. Where that DROP counts, the others needn't be looked through.
    last: HashMap<u64, TxId>,
}

impl Model for Drops {
    ghost use Rattle.std.specs.Prelude.{List, nat_eq};
    ghost use Rattle.std.specs.HashMap.{get};
    ghost use Rattle.session_machine.specs.Tables.{Dropped as DroppedFacts};
    ghost use Rattle.session_database.specs.Inner.Drops.{AreNoted};

    ghost Value = { List DroppedFacts };

    ghost view = { λ d. d.all.items };

    ghost invariant = { λ d. AreNoted d.all.items (get nat_eq d.last) };
}

impl Drops {
    /// No DROP. It takes no memory.
    pub fn new(alloc: Global) -> Drops
        ensures { result ≡ [] }
    {
        Drops {
            all: Vec::new(alloc),
            last: HashMap::new(alloc),
        }
    }

    /// The transaction drops the table at the place.
    pub fn add(&mut self, table: usize, by: TxId) -> Result<(), AllocError>
        ensures { OnOk result (self.new ≡ self.old ++ record { table = table; by = by } ∷ []) }
    {
        self.all.push(Dropped::new(table, by))?;
        self.last.insert(table as u64, by)?;
        Ok(())
    }

    /// Whether a DROP of the table at the place counts for `own`.
    pub fn has<V: Versions>(&self, store: &V, own: Option<TxId>, table: usize) -> bool
        ensures { result ≡ is_dropped (V.content store.now) own self.now table }
    {
        // Most files drop nothing: for them no hash is worked out.
        if self.all.is_empty() {
            return false;
        }
        match self.last.get(&(table as u64)) {
            Some(by) if does_count(store, own, *by) => true,
            _ => has_drop(&self.all, store, own, table),
        }
    }
}
