//! The trees of statements.

use crate::expr::{Agg, Expr};
use crate::kind::{Dir, Kind};
use iso_lexer::Name;

/// An isolation level. Read Uncommitted is Read Committed.
#[derive(Clone, Copy, PartialEq, Eq)]
pub enum Level {
    ReadCommitted,
    RepeatableRead,
}

/// A column of CREATE TABLE. PRIMARY KEY, on the column or over it, makes it NOT NULL.
#[derive(Clone, Copy)]
pub struct Column<'a> {
    pub name: Name<'a>,
    pub kind: Kind,
    pub not_null: bool,
}

/// A key of CREATE TABLE: its columns, by their places.
#[derive(Drop)]
pub struct Key {
    pub primary: bool,
    pub columns: Vec<u32>,
}

/// CREATE TABLE. The keys stand in their declared order: the primary key first, then the others in the order of the text.
#[derive(Drop)]
pub struct CreateTable<'a> {
    pub name: Name<'a>,
    pub columns: Vec<Column<'a>>,
    pub keys: Vec<Key>,
}

#[derive(Drop)]
pub struct DropTable<'a> {
    pub if_exists: bool,
    pub names: Vec<Name<'a>>,
}

/// An item of a SELECT or of RETURNING, with the name given to it. RETURNING has no aggregates.
#[derive(Drop)]
pub enum Item<'a> {
    /// `*`
    All,
    Expr(Expr<'a>, Option<Name<'a>>),
    Agg(Agg<'a>, Option<Name<'a>>),
}

/// INSERT. Without a list of columns the values go to the first columns of the table.
#[derive(Drop)]
pub struct Insert<'a> {
    pub table: Name<'a>,
    pub columns: Option<Vec<Name<'a>>>,
    pub rows: Vec<Vec<Expr<'a>>>,
    /// ON CONFLICT DO NOTHING: a row is passed over where another one has its key.
    pub do_nothing: bool,
    pub returning: Option<Vec<Item<'a>>>,
}

#[derive(Drop)]
pub struct Update<'a> {
    pub table: Name<'a>,
    pub sets: Vec<(Name<'a>, Expr<'a>)>,
    pub filter: Option<Expr<'a>>,
    pub returning: Option<Vec<Item<'a>>>,
}

#[derive(Drop)]
pub struct Delete<'a> {
    pub table: Name<'a>,
    pub filter: Option<Expr<'a>>,
    pub returning: Option<Vec<Item<'a>>>,
}

#[derive(Drop)]
pub struct OrderKey<'a> {
    pub expr: Expr<'a>,
    pub dir: Dir,
}

/// How strongly a transaction holds a row, the weakest first (PostgreSQL manual, 13.3.2).
#[derive(Clone, Copy, PartialEq, Eq)]
pub enum Strength {
    KeyShare,
    Share,
    NoKeyUpdate,
    Update,
}

/// What a statement does at a row that others hold in conflict (PostgreSQL manual, SELECT).
#[derive(Clone, Copy, PartialEq, Eq)]
pub enum Policy {
    Wait,
    /// NOWAIT: it fails.
    NoWait,
    /// SKIP LOCKED: it passes the row over.
    SkipLocked,
}

/// How a SELECT locks its rows.
#[derive(Clone, Copy, PartialEq, Eq)]
pub struct Lock {
    pub strength: Strength,
    pub policy: Policy,
}

#[derive(Drop)]
pub struct Select<'a> {
    pub items: Vec<Item<'a>>,
    pub table: Option<Name<'a>>,
    pub filter: Option<Expr<'a>>,
    pub order: Vec<OrderKey<'a>>,
    pub lock: Option<Lock>,
}

/// A statement.
#[derive(Drop)]
pub enum Stmt<'a> {
    /// BEGIN or START TRANSACTION
    Begin(Option<Level>),
    /// COMMIT or END
    Commit,
    /// ROLLBACK or ABORT
    Rollback,
    SetTransaction(Level),
    /// SET deadlock_timeout, which has no effect
    SetDeadlockTimeout,
    CreateTable(CreateTable<'a>),
    DropTable(DropTable<'a>),
    Insert(Insert<'a>),
    Update(Update<'a>),
    Delete(Delete<'a>),
    Select(Select<'a>),
}
