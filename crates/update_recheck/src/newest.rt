//! The newest version of a target.
ghost use Rattle.std.specs.Prelude.{◌≡◌};
ghost use Rattle.update_recheck.specs.Asked.{Fits, asked};
ghost use Rattle.update_recheck.specs.Outcome.{newest_version as version_now};
ghost use Rattle.update_recheck.specs.Inner.Found.{told, NewestIsWhole};

use crate::ask::Ask;
use row_versions::{Seen, Versions};
use sql_values::Row;

/// The newest committed or own version of a row: the one that the view shows, one that deletes it, or a newer one.
#[derive(Drop)]
pub enum Newest<'s> {
    Same,
    Gone,
    Newer(Seen, &'s Row),
}

/// The newest version of the target.
pub fn newest_version<'s, V: Versions>(store: &'s V, ask: &Ask<'_, '_>) -> Newest<'s>
    requires { Fits (V.content store.now) (asked ask.now) }
    ensures version { told (asked ask.now) result ≡ version_now (V.content store.now) (asked ask.now) }
    ensures whole { NewestIsWhole (asked ask.now) result }
{
    let Some(newest) = store.newest(ask.seen.row, ask.tx) else {
        return Newest::Gone;
    };
    match store.values(&newest) {
        None => Newest::Gone,
        Some(_) if newest.place == ask.seen.place => Newest::Same,
        Some(row) => Newest::Newer(newest, row),
    }
}
