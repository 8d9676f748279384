//! The keys of a table, and what is found of them.
use row_versions::{Seen, TableId, TxId};
use smallvec::SmallVec;
use std::marker::Model;

/// A table's keys in declared order, each by the places of its columns.
#[derive(Drop)]
pub struct TableKeys {
    pub table: TableId,
    pub keys: Vec<Vec<u32>>,
}

impl Model for TableKeys {
    ghost use Rattle.std.specs.Prelude.{map};
    ghost use Rattle.unique_keys.specs.Keys.{Keys};

    ghost Value = { Keys };

    ghost view = { λ t. record { table = t.table; keys = map (λ k. k.items) t.keys.items } };
}

/// What is found of a row's keys: that all are free, or the first one in declared order that isn't. Keys are counted from 0.
#[derive(Drop)]
pub enum Check {
    Free,
    /// Another row has the key, in this version.
    Taken { key: u32, by: Seen },
    /// Whether the key is taken stands open until these transactions have ended.
    Held { key: u32, by: SmallVec<TxId, 4> },
}
