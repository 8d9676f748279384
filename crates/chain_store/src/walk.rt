//! The last write in a chain that counts for who asks.
ghost use Rattle.std.specs.Prelude.{◌≡◌, ◌<◌, All, length};
ghost use Rattle.std.specs.List.Sorted.{IsStrictlyIncreasing};
ghost use Rattle.chain_store.specs.Inner.Linked.{IsLastOf, counts, passes_at};

use row_versions::{Fate, ListStore, TxId, Versions, View, Write};

/// Who asks for a row.
#[derive(Clone, Copy)]
pub enum Asker {
    /// A view, for what it sees.
    ByView(View),
    /// A transaction, for what is committed or its own.
    ByTx(TxId),
}

/// Whether the write counts for who asks.
fn counts(list: &ListStore, asker: &Asker, write: &Write) -> bool
    ensures { result ≡ counts list.now asker.now write.now }
{
    match asker {
        Asker::ByView(view) => list.sees(view, write),
        Asker::ByTx(tx) => list.has_committed(write.tx) || write.tx.0 == tx.0,
    }
}

/// Of the places, which rise, the last whose write counts for who asks.
pub fn last_of(list: &ListStore, asker: &Asker, places: &[usize]) -> Option<usize>
    requires within { All (λ place. place < length list.now.log) places.now }
    requires rise { IsStrictlyIncreasing places.now }
    ensures { IsLastOf (passes_at list.now.log (counts list.now asker.now)) places.now result }
{
    let log = list.log();
    for index in (0..places.len()).rev() {
        let place = places[index];
        if counts(list, asker, &log[place]) {
            return Some(place);
        }
    }
    None
}
