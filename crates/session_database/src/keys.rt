//! Keys: what a row meets that is about to be written (PostgreSQL manual, 5.5.3, and the page of INSERT, "ON CONFLICT Clause").

ghost use Rattle.std.specs.Prelude.{◌≡◌, ◌≢◌, ◌<◌, ◌++◌, ◌∷◌, List, None, length, map, option_map, IfOk, OnErr};
ghost use Rattle.sql_trees.specs.Statements.{column_of, key_name, key_of, name_of};
ghost use Rattle.sql_trees.specs.Inner.KeyNames.{underscored};
ghost use Rattle.row_versions.specs.declared.names.TxId.{TxId as TxFacts};
ghost use Rattle.row_versions.specs.Log.{IsOpen};
ghost use Rattle.row_locks.specs.Cycles.{closes};
ghost use Rattle.update_recheck.specs.Settling.{SameMembers};
ghost use Rattle.unique_keys.specs.Checks.{KeyIsHeld, NamesBlockers, found_of, key_found};
ghost use Rattle.session_machine.specs.Rows.{columns_in, does_nothing, is_known, meet_key};
ghost use Rattle.session_machine.specs.Targets.{asked_key, names_at};
ghost use Rattle.session_machine.specs.Inner.Pieces.{held_by_others};
ghost use Rattle.session_machine.specs.Waits.{blockers, is_blocked, waits_in};
ghost use Rattle.session_database.specs.Stops.{meets_of, stop_of};
ghost use Rattle.session_database.specs.Inner.Keys.{column_name_at};

use crate::database::Database;
use crate::stop::{Meets, Stop};
use crate::work::Work;
use iso_lexer::Name;
use row_locks::laws::{cycle_test_is_exact, cycles_by_who_blocks};
use row_versions::{RowId, Seen, TableId, TxId, Versions};
use session_machine::{KeyAsked, KeyName, Request, StmtFault};
use smallvec::SmallVec;
use sql_trees::{Column, Key, Level};
use sql_values::Row;
use std::alloc::{AllocError, Global};
use unique_keys::{Found, KeyIndex};

/// The name of the column at the place, behind an underscore, behind these bytes.
fn push_column(
    alloc: Global,
    mut text: Vec<u8>,
    columns: &[Column<'_>],
    place: u32,
) -> Result<Vec<u8>, AllocError>
    ensures { IfOk result (λ v. v.items ≡ text.items ++ 95 ∷ column_name_at (map column_of columns.now) place) }
{
    text.push(b'_')?;
    match columns.get(place as usize) {
        Some(column) => column.name.push_to(alloc, text),
        None => Ok(text),
    }
}

/// The names of the columns at the places, each behind an underscore, behind these bytes.
fn push_columns(
    alloc: Global,
    mut text: Vec<u8>,
    columns: &[Column<'_>],
    places: &[u32],
) -> Result<Vec<u8>, AllocError>
    ensures { IfOk result (λ v. v.items ≡ text.items ++ underscored (names_at (map column_of columns.now) places.now)) }
{
    for place in places {
        text = push_column(alloc, text, columns, *place)?;
    }
    Ok(text)
}

/// The name that the key is given: its table's and `pkey`, or its table's, its columns' and `key`.
fn key_name(
    alloc: Global,
    table: &Name<'_>,
    columns: &[Column<'_>],
    key: &Key,
) -> Result<Vec<u8>, AllocError>
    ensures { IfOk result (λ v. v.items ≡ key_name (name_of table.now) key.now.primary (names_at (map column_of columns.now) key.now.columns.items)) }
{
    let mut text = table.push_to(alloc, Vec::new(alloc))?;
    if key.primary {
        text.extend_from_slice(b"_pkey")?;
        return Ok(text);
    }
    let mut text = push_columns(alloc, text, columns, &key.columns)?;
    text.extend_from_slice(b"_key")?;
    Ok(text)
}

/// From now on the index finds the rows of the table by these keys.
pub(crate) fn learn_keys(
    index: &mut KeyIndex,
    table: TableId,
    keys: &[Key],
) -> Result<(), AllocError>
    ensures { index.new ≡ index.old }
{
    for key in keys {
        index.learn(table, &key.columns)?;
    }
    Ok(())
}

impl<'a, 't, V: Versions> Database<'a, 't, V> {
    /// Whether others hold the key. It takes no memory.
    pub(crate) fn is_held(&self, asked: &KeyAsked, tx: TxId) -> bool
        ensures { result ≡ is_blocked self.now (Request.Key asked.now) tx }
    {
        let columns = asked.columns.as_slice();
        let values = asked.values.values();
        self.keys
            .is_held(&self.store, asked.table, columns, values, tx)
    }

    /// Those who hold the key.
    pub(crate) fn holders(
        &self,
        asked: &KeyAsked,
        tx: TxId,
    ) -> Result<SmallVec<TxId, 4>, AllocError>
        ensures { IfOk result (λ found. SameMembers found.items (blockers self.now (Request.Key asked.now) tx)) }
    {
        let columns = asked.columns.as_slice();
        let values = asked.values.values();
        let found = self
            .keys
            .blockers(&self.store, asked.table, columns, values, tx)?;
        Ok(found)
    }

    /// What is found of the key, for a row with these values in place of that one, or for a new one.
    fn find_key(
        &self,
        work: &Work<'_>,
        key: &Key,
        values: &Row,
        except: Option<RowId>,
    ) -> Result<Found, AllocError>
        requires opened { IsOpen self.now.content work.now.t.tx }
        ensures found { IfOk result (λ f. key_found self.now.content (record { 0 = work.now.table }) work.now.t.tx except values.now (key_of key.now).columns ≡ found_of f) }
        ensures memory { OnErr result (key_found self.now.content (record { 0 = work.now.table }) work.now.t.tx except values.now (key_of key.now).columns ≡ KeyIsHeld) }
        ensures named { IfOk result (λ f. NamesBlockers (blockers self.now (Request.Key (asked_key work.now values.now (key_of key.now))) work.now.t.tx) f) }
    {
        let table = TableId(work.place as u64);
        let columns = key.columns.as_slice();
        let (values, tx) = (values.values(), work.by.tx);
        let found = self
            .keys
            .find(&self.store, table, columns, values, tx, except)?;
        Ok(found)
    }

    /// The key, asked for with a row of these values.
    fn asked_key(&self, work: &Work<'_>, key: &Key, values: &Row) -> Result<KeyAsked, AllocError>
        ensures { IfOk result (λ asked. asked ≡ asked_key work.now values.now (key_of key.now)) }
    {
        let mut columns = Vec::new(self.alloc);
        columns.extend_from_slice(&key.columns)?;
        let values = values.copied(self.alloc)?;
        Ok(KeyAsked {
            table: TableId(work.place as u64),
            columns,
            values,
        })
    }

    /// Whether a wait of the statement's transaction for those would close a cycle.
    fn closes_cycle(&self, work: &Work<'_>, by: &[TxId]) -> Result<bool, AllocError>
        ensures { IfOk result (λ yes. (others : List TxFacts) → SameMembers by.now others
            → yes ≡ closes (waits_in self.now work.now.around.sessions) work.now.t.tx others) }
    {
        cycle_test_is_exact();
        cycles_by_who_blocks();
        let waits = self.waits_now(work.around)?;
        waits.closes(work.by.tx, by)
    }

    /// Others hold the key, which the statement waits for unless that would close a cycle.
    fn held_by_others(
        &self,
        work: &Work<'_>,
        key: &Key,
        values: &Row,
        by: &[TxId],
    ) -> Result<Stop<'t>, AllocError>
        requires { SameMembers by.now (blockers self.now (Request.Key (asked_key work.now values.now (key_of key.now))) work.now.t.tx) }
        ensures { IfOk result (λ stop. stop_of stop ≡ held_by_others self.now work.now (asked_key work.now values.now (key_of key.now))) }
    {
        if self.closes_cycle(work, by)? {
            return Ok(Stop::Fails(StmtFault::Deadlock));
        }
        let asked = self.asked_key(work, key, values)?;
        Ok(Stop::Blocked(Request::Key(asked)))
    }

    /// The fault of a key that another row has.
    fn taken(
        &self,
        work: &Work<'_>,
        name: &Name<'t>,
        key: &Key,
    ) -> Result<StmtFault<'t>, AllocError>
        requires within { work.now.table < length self.now.catalog.tables }
        ensures { IfOk result (λ fault. fault ≡ StmtFault.KeyTaken (key_name (name_of name.now) key.now.primary (names_at (columns_in self.now work.now) key.now.columns.items))) }
    {
        let text = key_name(self.alloc, name, self.columns_in(work), key)?;
        Ok(StmtFault::KeyTaken(KeyName::of(text)))
    }

    /// Whether the statement's view shows the version, or its transaction wrote it.
    fn is_known(&self, work: &Work<'_>, version: &Seen) -> bool
        ensures { result ≡ is_known self.now work.now version.now }
    {
        let table = TableId(work.place as u64);
        self.store.shows(&work.view, table, version) || self.is_own(work, version)
    }

    /// The key is taken by this version, and the statement does nothing where it is.
    fn does_nothing(&self, work: &Work<'_>, version: &Seen) -> Meets<'t>
        ensures { meets_of result ≡ does_nothing self.now work.now version.now }
    {
        match work.by.level {
            Level::RepeatableRead if !self.is_known(work, version) => {
                Meets::Stops(Stop::Fails(StmtFault::NotSerializable))
            }
            _ => Meets::PassesOver,
        }
    }

    /// What a row of these values, which is about to be written in place of that one or as a new one, meets at one key of the table of this name.
    pub fn meet_key(
        &self,
        work: &Work<'_>,
        name: &Name<'t>,
        do_nothing: bool,
        key: &Key,
        values: &Row,
        except: Option<RowId>,
    ) -> Result<Option<Meets<'t>>, AllocError>
        requires opened { IsOpen self.now.content work.now.t.tx }
        requires within { work.now.table < length self.now.catalog.tables }
        ensures met { IfOk result (λ met. option_map meets_of met ≡ meet_key self.now work.now (name_of name.now) do_nothing values.now except (key_of key.now)) }
        // Where it meets nothing there is nothing to keep.
        ensures memory { OnErr result (meet_key self.now work.now (name_of name.now) do_nothing values.now except (key_of key.now) ≢ None) }
    {
        match self.find_key(work, key, values, except)? {
            Found::Free => Ok(None),
            Found::Taken(version) if do_nothing => Ok(Some(self.does_nothing(work, &version))),
            Found::Taken(_) => {
                let fault = self.taken(work, name, key)?;
                Ok(Some(Meets::Stops(Stop::Fails(fault))))
            }
            Found::Held(by) => {
                let stop = self.held_by_others(work, key, values, &by)?;
                Ok(Some(Meets::Stops(stop)))
            }
        }
    }
}
