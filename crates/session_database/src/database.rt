//! What all sessions share.

ghost use Rattle.std.specs.Prelude.{◌≡◌, [], ◌+◌, ◌<◌, ◌^◌, false, length, List, map, option_map, slice_get, unwrap_or, Some, IfOk, IfSome, OnOk, OnErr};
ghost use Rattle.std.specs.Global.{Vec};
ghost use Rattle.std.specs.Option.{option_copied, option_map_or};
ghost use Rattle.sql_trees.specs.Statements.{create_of, column_of, key_of, name_of};
ghost use Rattle.sql_values.specs.declared.value.Value.{Value};
ghost use Rattle.row_versions.specs.Log.{empty_content, new_row, values_at, IsOpen};
ghost use Rattle.session_machine.specs.Tables.{find_table};
ghost use Rattle.session_machine.specs.Waits.{is_blocked};
ghost use Rattle.session_machine.specs.Transactions.{committed, rolled_back, fresh, view_of, started, own_of, view_now};
ghost use Rattle.row_versions.specs.declared.write.Seen.{Seen as SeenFacts};
ghost use Rattle.row_versions.specs.declared.write.Write.{Write as WriteFacts};
ghost use Rattle.row_versions.specs.Members.{same_tx};
ghost use Rattle.row_versions.specs.Rows.{rows_of};
ghost use Rattle.session_machine.specs.Inner.Pieces.{table_columns, with_table, with_drop};
ghost use Rattle.session_machine.specs.declared.session.OpenTransaction.{OpenTransaction as OpenFacts};
ghost use Rattle.session_machine.specs.Rows.{columns_in, inserted, newest_values, values_of, written};
ghost use Rattle.session_machine.specs.Inner.Statements.{beginning, keys_in, begun, first_commits, commits_seen, moved_on};
ghost use Rattle.session_machine.specs.Targets.{seen_by};
ghost use Rattle.session_machine.specs.Machine.{empty_database, visible_to};

use crate::catalog::Catalog;
use crate::keys::learn_keys;
use crate::work::{Surroundings, Work};
use iso_lexer::Name;
use row_locks::LockTable;
use row_versions::{RowId, Seen, TableId, TxId, Versions, View};
use session_machine::{OpenTransaction, Request, Session, Transaction};
use sql_trees::{Column, CreateTable, Key, Level, Strength};
use sql_values::Row;
use std::alloc::{AllocError, Global};
use std::marker::Model;
use unique_keys::KeyIndex;
use unique_keys::laws::index_keeps_up;

/// The tables, all versions of their rows, the index of their keys, and the locks that are held. A call that is refused memory leaves it in no state that is promised.
#[derive(Drop)]
pub struct Database<'a, 't, V: Versions> {
    pub(crate) alloc: Global,
    pub(crate) store: V,
    pub(crate) keys: KeyIndex,
    catalog: Catalog<'a, 't>,
    pub(crate) locks: LockTable,
    /// Who made each write, in the order of the store's log.
    writers: Vec<TxId>,
    /// Has no values: it is lent where a version has none.
    empty: Row,
}

impl<'a, 't, V: Versions> Model for Database<'a, 't, V> {
    ghost use Rattle.std.specs.Prelude.{◌≡◌, [], map};
    ghost use Rattle.row_versions.specs.declared.write.Write.{Write};
    ghost use Rattle.session_machine.specs.Tables.{Database as DatabaseFacts};
    ghost use Rattle.unique_keys.specs.Laws.{KeepsUp};

    ghost Value = { DatabaseFacts };

    ghost view = { λ d. record { content = V.content d.store; catalog = d.catalog; held = d.locks } };

    ghost invariant = { λ d. KeepsUp d.keys (V.content d.store) × (d.writers.items ≡ map (λ (w : Write). w.tx) (V.content d.store).log) × (d.empty ≡ []) };
}

impl<'a, 't, V: Versions> Database<'a, 't, V> {
    /// No table, over a store in which no transaction has begun. It takes no memory.
    pub fn new(alloc: Global, store: V) -> Database<'a, 't, V>
        requires { V.content store ≡ empty_content }
        ensures { result ≡ empty_database }
    {
        index_keeps_up();
        Database {
            alloc,
            store,
            keys: KeyIndex::new(alloc),
            catalog: Catalog::new(alloc),
            locks: LockTable::new(alloc),
            writers: Vec::new(alloc),
            empty: Row::from_vec(Vec::new(alloc)),
        }
    }

    /// Where what is made for the database is allocated.
    pub fn alloc(&self) -> Global {
        self.alloc
    }

    /// The place of the table that the name means for a transaction, or without one.
    pub fn find_table(&self, own: Option<TxId>, name: &Name<'_>) -> Option<usize>
        ensures first { result ≡ find_table self.now own (name_of name.now) }
        ensures within { IfSome result (λ place. place < length self.now.catalog.tables) }
    {
        self.catalog.find(&self.store, own, name)
    }

    /// Begins a transaction of which nothing was asked yet.
    pub fn begin(&mut self, level: Level, explicit: bool) -> Result<OpenTransaction, AllocError>
        ensures fresh { IfOk result (λ made. made ≡ fresh self.old.content level explicit) }
        ensures begun { OnOk result (self.new ≡ begun self.old) }
    {
        index_keeps_up();
        Ok(OpenTransaction {
            tx: self.store.begin()?,
            explicit,
            level,
            snapshot: None,
            command: 0,
        })
    }

    /// Commits an open transaction. It takes no memory.
    pub fn commit(&mut self, tx: TxId)
        requires { IsOpen self.old.content tx }
        ensures { self.new ≡ committed self.old tx }
    {
        index_keeps_up();
        self.store.commit(tx);
        self.locks.release(tx);
    }

    /// Rolls an open transaction back. It takes no memory.
    pub fn roll_back(&mut self, tx: TxId)
        requires { IsOpen self.old.content tx }
        ensures { self.new ≡ rolled_back self.old tx }
    {
        index_keeps_up();
        self.store.roll_back(tx);
        self.keys.forget(tx);
        self.locks.release(tx);
    }

    /// The columns of the table at the place.
    pub fn columns(&self, place: usize) -> &'a [Column<'t>]
        requires { place < length self.now.catalog.tables }
        ensures { map column_of result.now ≡ table_columns self.now.catalog place }
    {
        self.catalog.columns(place)
    }

    /// The keys of the statement's table in declared order: the primary key first.
    pub fn keys_in(&self, work: &Work<'_>) -> &'a [Key]
        requires { work.now.table < length self.now.catalog.tables }
        ensures { map key_of result.now ≡ keys_in self.now work.now }
    {
        self.catalog.keys(work.place)
    }

    /// Adds a table.
    pub fn add_table(&mut self, made: &'a CreateTable<'t>, by: TxId) -> Result<(), AllocError>
        ensures { OnOk result (self.new ≡ record self.old { catalog = with_table self.old.catalog (create_of made.now) by }) }
    {
        let table = TableId(self.catalog.len() as u64);
        learn_keys(&mut self.keys, table, &made.keys)?;
        self.catalog.add(made, by)
    }

    /// Adds a DROP of the table at the place.
    pub fn add_drop(&mut self, place: usize, by: TxId) -> Result<(), AllocError>
        ensures { OnOk result (self.new ≡ record self.old { catalog = with_drop self.old.catalog place by }) }
    {
        self.catalog.add_drop(place, by)
    }

    /// Whether another transaction stands in the way of what the transaction asks for. It takes no memory.
    pub fn is_blocked(&self, request: &Request, tx: TxId) -> bool
        ensures { result ≡ is_blocked self.now request.now tx }
    {
        match request {
            Request::Row { row, strength } => self.locks.is_blocked(*row, tx, *strength),
            Request::Key(asked) => self.is_held(asked, tx),
        }
    }

    /// Writes a row of the statement's table, or without one a new row, which it answers; without values it deletes the row.
    /// Where the index of keys is refused memory, the transaction is rolled back.
    fn write(
        &mut self,
        work: &Work<'_>,
        row: Option<RowId>,
        values: Option<Row>,
    ) -> Result<RowId, AllocError>
        requires opened { IsOpen self.old.content work.now.t.tx }
        ensures row { IfOk result (λ made. made ≡ unwrap_or row (new_row self.old.content)) }
        ensures written { IfOk result (λ made. self.new ≡ written self.old work.now made values) }
    {
        index_keeps_up();
        let noted = copied(self.alloc, values.as_ref())?;
        let by = work.by;
        let table = TableId(work.place as u64);
        self.writers.push(by.tx)?;
        let Ok(made) = self.store.write(by.tx, by.command, table, row, values) else {
            self.writers.pop();
            return Err(AllocError);
        };
        match self.keys.enter(table, made, by.tx, noted) {
            Ok(()) => Ok(made),
            Err(_) => {
                self.store.roll_back(by.tx);
                self.keys.forget(by.tx);
                Err(AllocError)
            }
        }
    }

    /// Writes a row of the statement's table; without values it deletes the row.
    pub fn write_row(
        &mut self,
        work: &Work<'_>,
        row: RowId,
        values: Option<Row>,
    ) -> Result<(), AllocError>
        requires opened { IsOpen self.old.content work.now.t.tx }
        ensures { OnOk result (self.new ≡ written self.old work.now row values) }
    {
        self.write(work, Some(row), values)?;
        Ok(())
    }

    /// Writes a new row of the statement's table, which its transaction holds at Update.
    pub fn add_row(&mut self, work: &Work<'_>, values: Row) -> Result<(), AllocError>
        requires opened { IsOpen self.old.content work.now.t.tx }
        ensures { OnOk result (self.new ≡ inserted self.old work.now values) }
    {
        let row = self.write(work, None, Some(values))?;
        self.locks.take(row, work.by.tx, Strength::Update)
    }

    fn first_commits(&self, by: &OpenTransaction) -> u64
        ensures { result ≡ first_commits self.now.content by.now }
    {
        match by.snapshot {
            Some(commits) => commits,
            None => self.store.committed(),
        }
    }

    fn commits_seen(&self, by: &OpenTransaction) -> u64
        ensures { result ≡ commits_seen by.now.level self.now.content by.now }
    {
        match by.level {
            Level::ReadCommitted => self.store.committed(),
            Level::RepeatableRead => self.first_commits(by),
        }
    }

    /// What the transaction's next query sees.
    fn view_of(&self, by: &OpenTransaction) -> View
        ensures { result ≡ view_of self.now.content by.now }
    {
        View {
            tx: Some(by.tx),
            commits: self.commits_seen(by),
            command: by.command,
        }
    }

    /// What the transaction's query in progress sees, with what that has written so far.
    fn view_within(&self, by: &OpenTransaction) -> View
        requires { by.now.command + 1 < 2 ^ 64 }
        ensures { result ≡ view_of self.now.content (record by.now { command = by.now.command + 1 }) }
    {
        View {
            tx: Some(by.tx),
            commits: self.commits_seen(by),
            command: by.command + 1,
        }
    }

    /// What a query sees that begins now; in the middle of a statement also what that has written so far.
    fn view_now(&self, session: &Session) -> View
        requires { (t : OpenFacts) → session.now.transaction ≡ Transaction.Open t → t.command + 1 < 2 ^ 64 }
        ensures { result ≡ view_now self.now.content session.now.transaction session.now.statement }
    {
        match (&session.transaction, &session.statement) {
            (Transaction::Open(by), None) => self.view_of(by),
            (Transaction::Open(by), Some(_)) => self.view_within(by),
            (Transaction::Closed | Transaction::Aborted, _) => View {
                tx: None,
                commits: self.store.committed(),
                command: 0,
            },
        }
    }

    /// The transaction after a query that begins now.
    pub fn after_query(&self, by: &OpenTransaction) -> OpenTransaction
        requires { by.now.command + 1 < 2 ^ 64 }
        ensures { result ≡ moved_on self.now.content by.now }
    {
        OpenTransaction {
            tx: by.tx,
            explicit: by.explicit,
            level: by.level,
            snapshot: Some(self.first_commits(by)),
            command: by.command + 1,
        }
    }

    /// The transaction once a query has begun: its snapshot is taken.
    pub fn started(&self, by: &OpenTransaction) -> OpenTransaction
        ensures { result ≡ started self.now.content by.now }
    {
        OpenTransaction {
            tx: by.tx,
            explicit: by.explicit,
            level: by.level,
            snapshot: Some(self.first_commits(by)),
            command: by.command,
        }
    }

    /// The versions that the view shows of the table at the place.
    fn seen(&self, view: &View, place: usize) -> Result<Vec<Seen>, AllocError>
        ensures { IfOk result (λ seen. seen.items ≡ rows_of self.now.content view.now (record { 0 = place })) }
    {
        self.store.rows(view, TableId(place as u64))
    }

    /// The columns of the statement's table.
    pub fn columns_in(&self, work: &Work<'_>) -> &'a [Column<'t>]
        requires { work.now.table < length self.now.catalog.tables }
        ensures { map column_of result.now ≡ columns_in self.now work.now }
    {
        self.columns(work.place)
    }

    /// The versions that the statement's view shows of its table.
    pub fn seen_by(&self, work: &Work<'_>) -> Result<Vec<Seen>, AllocError>
        ensures { IfOk result (λ seen. seen.items ≡ seen_by self.now work.now) }
    {
        self.seen(&work.view, work.place)
    }

    /// Whether the statement's transaction wrote the version. It takes no memory.
    pub(crate) fn is_own(&self, work: &Work<'_>, version: &Seen) -> bool
        ensures { result ≡ option_map_or (λ (w : WriteFacts). same_tx w.tx work.now.t.tx) (slice_get self.now.content.log version.now.place) false }
    {
        match self.writers.get(version.place as usize) {
            Some(writer) => writer.0 == work.by.tx.0,
            None => false,
        }
    }

    /// The values of the version.
    pub fn row_of(&self, version: &Seen) -> &Row
        ensures { result.now ≡ values_of self.now version.now }
    {
        self.store.values(version).unwrap_or(&self.empty)
    }

    /// The values of the row's newest version for the statement's transaction, unless that deletes the row. It takes no memory.
    pub fn newest_values(&self, work: &Work<'_>, row: RowId) -> Option<&Row>
        ensures { option_copied result ≡ newest_values self.now work.now row }
    {
        let newest = self.store.newest(row, work.by.tx)?;
        self.store.values(&newest)
    }

    /// What a statement finds that begins at the table of this place: its view is taken now.
    pub fn work<'w>(
        &self,
        by: &OpenTransaction,
        place: usize,
        around: &'w Surroundings<'w>,
    ) -> Work<'w>
        ensures { result ≡ beginning self.now by.now around.now place }
    {
        Work {
            by: *by,
            place,
            view: self.view_of(by),
            around,
        }
    }

    /// The values of these versions.
    pub fn values_of(&self, seen: &[Seen]) -> Result<Vec<&Row>, AllocError>
        ensures { IfOk result (λ rows. map (λ row. row.now) rows.items ≡ map (λ (s : SeenFacts). unwrap_or (values_at self.now.content s.place) []) seen.now) }
    {
        let mut rows = Vec::new(self.alloc);
        for one in seen {
            rows.push(self.row_of(one))?;
        }
        Ok(rows)
    }

    /// The rows that a SELECT of the session which begins now would show of the table, or `None` where there is no such table: that takes no memory.
    pub fn visible(
        &self,
        session: &Session,
        name: &Name<'_>,
    ) -> Result<Option<Vec<Row>>, AllocError>
        requires room { (t : OpenFacts) → session.now.transaction ≡ Transaction.Open t → t.command + 1 < 2 ^ 64 }
        ensures rows { IfOk result (λ rows. option_map (λ (v : Vec (List Value)). v.items) rows ≡ visible_to self.now session.now (name_of name.now)) }
        ensures memory { OnErr result ((rows : List (List Value)) × (visible_to self.now session.now (name_of name.now) ≡ Some rows)) }
    {
        let Some(place) = self.find_table(own_of(&session.transaction), name) else {
            return Ok(None);
        };
        let seen = self.seen(&self.view_now(session), place)?;
        let rows = self.values_of(&seen)?;
        Ok(Some(copied_rows(self.alloc, rows.as_slice())?))
    }
}

/// The number of an open transaction.
fn own_of(transaction: &Transaction) -> Option<TxId>
    ensures { result ≡ own_of transaction.now }
{
    match transaction {
        Transaction::Open(by) => Some(by.tx),
        Transaction::Closed | Transaction::Aborted => None,
    }
}

/// The values of a write again.
fn copied(alloc: Global, values: Option<&Row>) -> Result<Option<Row>, AllocError>
    ensures { IfOk result (λ copy. copy ≡ option_copied values.entry) }
{
    match values {
        Some(values) => Ok(Some(values.copied(alloc)?)),
        None => Ok(None),
    }
}

fn copied_rows(alloc: Global, rows: &[&Row]) -> Result<Vec<Row>, AllocError>
    ensures { IfOk result (λ copies. copies.items ≡ map (λ row. row.now) rows.now) }
{
    let mut copies = Vec::new(alloc);
    for row in rows {
        copies.push(row.copied(alloc)?)?;
    }
    Ok(copies)
}
