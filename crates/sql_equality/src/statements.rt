//! Whether two statements are one, but for the spelling of names and strings.

ghost use Rattle.std.specs.Prelude.{◌≡◌, ◌↔◌, List, ℕ, IsTrue, map};
ghost use Rattle.sql_trees.specs.Statements.{ColumnTree, CreateTree, DeleteTree, DropTree, InsertTree, ItemTree, KeyTree, OrderTree, SelectTree, SetTree, StmtTree, UpdateTree, column_of, create_of, delete_of, drop_of, insert_of, item_of, key_of, name_of, order_of, select_of, set_of, stmt_of, update_of};
ghost use Rattle.sql_trees.specs.Trees.{AggTree, Tree, agg_of, tree_of};
ghost use Rattle.sql_trees.specs.declared.expr.AggKind as kinds;
ghost use Rattle.sql_trees.specs.declared.kind.Dir as dirs;
ghost use Rattle.sql_trees.specs.declared.kind.Kind as types;
ghost use Rattle.sql_trees.specs.declared.stmt.Level as levels;
ghost use Rattle.sql_trees.specs.declared.stmt.Lock as locks;
ghost use Rattle.sql_trees.specs.declared.stmt.Policy as policies;
ghost use Rattle.sql_trees.specs.declared.stmt.Strength as strengths;

use crate::alike::{Alike, all_alike};
use crate::expressions::same_expr;
use iso_lexer::{Name, same_name};
use sql_trees::{
    Agg, AggKind, Column, CreateTable, Delete, Dir, DropTable, Expr, Insert, Item, Key, Kind,
    Level, Lock, OrderKey, Policy, Select, Stmt, Strength, Update,
};

impl<'a, 'b> Alike<Name<'b>> for Name<'a> {
    ghost Seen = { List ℕ };

    ghost seen = { name_of };

    ghost seen_other = { name_of };

    fn alike(&self, other: &Name<'b>) -> bool {
        same_name(self, other)
    }
}

impl<'a, 'b> Alike<Expr<'b>> for Expr<'a> {
    ghost Seen = { Tree };

    ghost seen = { tree_of };

    ghost seen_other = { tree_of };

    fn alike(&self, other: &Expr<'b>) -> bool {
        same_expr(self, other)
    }
}

impl Alike<AggKind> for AggKind {
    ghost Seen = { kinds.AggKind };

    ghost seen = { λ k. k };

    ghost seen_other = { λ k. k };

    fn alike(&self, other: &AggKind) -> bool {
        *self == *other
    }
}

impl<'a, 'b> Alike<Agg<'b>> for Agg<'a> {
    ghost Seen = { AggTree };

    ghost seen = { agg_of };

    ghost seen_other = { agg_of };

    fn alike(&self, other: &Agg<'b>) -> bool {
        match (self, other) {
            (Agg::CountRows, Agg::CountRows) => true,
            (Agg::Of(kind, expr), Agg::Of(asked, of)) => kind.alike(asked) && expr.alike(of),
            (Agg::CountRows | Agg::Of(..), _) => false,
        }
    }
}

impl Alike<Kind> for Kind {
    ghost Seen = { types.Kind };

    ghost seen = { λ k. k };

    ghost seen_other = { λ k. k };

    fn alike(&self, other: &Kind) -> bool {
        *self == *other
    }
}

impl Alike<Dir> for Dir {
    ghost Seen = { dirs.Dir };

    ghost seen = { λ d. d };

    ghost seen_other = { λ d. d };

    fn alike(&self, other: &Dir) -> bool {
        self.desc.alike(&other.desc) && self.nulls_first.alike(&other.nulls_first)
    }
}

impl Alike<Level> for Level {
    ghost Seen = { levels.Level };

    ghost seen = { λ l. l };

    ghost seen_other = { λ l. l };

    fn alike(&self, other: &Level) -> bool {
        *self == *other
    }
}

impl Alike<Strength> for Strength {
    ghost Seen = { strengths.Strength };

    ghost seen = { λ s. s };

    ghost seen_other = { λ s. s };

    fn alike(&self, other: &Strength) -> bool {
        *self == *other
    }
}

impl Alike<Policy> for Policy {
    ghost Seen = { policies.Policy };

    ghost seen = { λ p. p };

    ghost seen_other = { λ p. p };

    fn alike(&self, other: &Policy) -> bool {
        *self == *other
    }
}

impl Alike<Lock> for Lock {
    ghost Seen = { locks.Lock };

    ghost seen = { λ l. l };

    ghost seen_other = { λ l. l };

    fn alike(&self, other: &Lock) -> bool {
        self.strength.alike(&other.strength) && self.policy.alike(&other.policy)
    }
}

impl<'a, 'b> Alike<Column<'b>> for Column<'a> {
    ghost Seen = { ColumnTree };

    ghost seen = { column_of };

    ghost seen_other = { column_of };

    fn alike(&self, other: &Column<'b>) -> bool {
        self.name.alike(&other.name)
            && self.kind.alike(&other.kind)
            && self.not_null.alike(&other.not_null)
    }
}

impl Alike<Key> for Key {
    ghost Seen = { KeyTree };

    ghost seen = { key_of };

    ghost seen_other = { key_of };

    fn alike(&self, other: &Key) -> bool {
        self.primary.alike(&other.primary) && self.columns.alike(&other.columns)
    }
}

impl<'a, 'b> Alike<CreateTable<'b>> for CreateTable<'a> {
    ghost Seen = { CreateTree };

    ghost seen = { create_of };

    ghost seen_other = { create_of };

    fn alike(&self, other: &CreateTable<'b>) -> bool {
        self.name.alike(&other.name)
            && self.columns.alike(&other.columns)
            && self.keys.alike(&other.keys)
    }
}

impl<'a, 'b> Alike<DropTable<'b>> for DropTable<'a> {
    ghost Seen = { DropTree };

    ghost seen = { drop_of };

    ghost seen_other = { drop_of };

    fn alike(&self, other: &DropTable<'b>) -> bool {
        self.if_exists.alike(&other.if_exists) && self.names.alike(&other.names)
    }
}

impl<'a, 'b> Alike<Item<'b>> for Item<'a> {
    ghost Seen = { ItemTree };

    ghost seen = { item_of };

    ghost seen_other = { item_of };

    fn alike(&self, other: &Item<'b>) -> bool {
        match (self, other) {
            (Item::All, Item::All) => true,
            (Item::Expr(expr, name), Item::Expr(of, alias)) => expr.alike(of) && name.alike(alias),
            (Item::Agg(agg, name), Item::Agg(of, alias)) => agg.alike(of) && name.alike(alias),
            (Item::All | Item::Expr(..) | Item::Agg(..), _) => false,
        }
    }
}

impl<'a, 'b> Alike<Insert<'b>> for Insert<'a> {
    ghost Seen = { InsertTree };

    ghost seen = { insert_of };

    ghost seen_other = { insert_of };

    fn alike(&self, other: &Insert<'b>) -> bool {
        self.table.alike(&other.table)
            && self.columns.alike(&other.columns)
            && self.rows.alike(&other.rows)
            && self.do_nothing.alike(&other.do_nothing)
            && self.returning.alike(&other.returning)
    }
}

impl<'a, 'b> Alike<(Name<'b>, Expr<'b>)> for (Name<'a>, Expr<'a>) {
    ghost Seen = { SetTree };

    ghost seen = { set_of };

    ghost seen_other = { set_of };

    fn alike(&self, other: &(Name<'b>, Expr<'b>)) -> bool {
        self.0.alike(&other.0) && self.1.alike(&other.1)
    }
}

impl<'a, 'b> Alike<Update<'b>> for Update<'a> {
    ghost Seen = { UpdateTree };

    ghost seen = { update_of };

    ghost seen_other = { update_of };

    fn alike(&self, other: &Update<'b>) -> bool {
        self.table.alike(&other.table)
            && self.sets.alike(&other.sets)
            && self.filter.alike(&other.filter)
            && self.returning.alike(&other.returning)
    }
}

impl<'a, 'b> Alike<Delete<'b>> for Delete<'a> {
    ghost Seen = { DeleteTree };

    ghost seen = { delete_of };

    ghost seen_other = { delete_of };

    fn alike(&self, other: &Delete<'b>) -> bool {
        self.table.alike(&other.table)
            && self.filter.alike(&other.filter)
            && self.returning.alike(&other.returning)
    }
}

impl<'a, 'b> Alike<OrderKey<'b>> for OrderKey<'a> {
    ghost Seen = { OrderTree };

    ghost seen = { order_of };

    ghost seen_other = { order_of };

    fn alike(&self, other: &OrderKey<'b>) -> bool {
        self.expr.alike(&other.expr) && self.dir.alike(&other.dir)
    }
}

impl<'a, 'b> Alike<Select<'b>> for Select<'a> {
    ghost Seen = { SelectTree };

    ghost seen = { select_of };

    ghost seen_other = { select_of };

    fn alike(&self, other: &Select<'b>) -> bool {
        self.items.alike(&other.items)
            && self.table.alike(&other.table)
            && self.filter.alike(&other.filter)
            && self.order.alike(&other.order)
            && self.lock.alike(&other.lock)
    }
}

impl<'a, 'b> Alike<Stmt<'b>> for Stmt<'a> {
    ghost Seen = { StmtTree };

    ghost seen = { stmt_of };

    ghost seen_other = { stmt_of };

    fn alike(&self, other: &Stmt<'b>) -> bool {
        match (self, other) {
            (Stmt::Begin(level), Stmt::Begin(asked)) => level.alike(asked),
            (Stmt::Commit, Stmt::Commit) => true,
            (Stmt::Rollback, Stmt::Rollback) => true,
            (Stmt::SetTransaction(level), Stmt::SetTransaction(asked)) => level.alike(asked),
            (Stmt::SetDeadlockTimeout, Stmt::SetDeadlockTimeout) => true,
            (Stmt::CreateTable(create), Stmt::CreateTable(other)) => create.alike(other),
            (Stmt::DropTable(drop), Stmt::DropTable(other)) => drop.alike(other),
            (Stmt::Insert(insert), Stmt::Insert(other)) => insert.alike(other),
            (Stmt::Update(update), Stmt::Update(other)) => update.alike(other),
            (Stmt::Delete(delete), Stmt::Delete(other)) => delete.alike(other),
            (Stmt::Select(select), Stmt::Select(other)) => select.alike(other),
            (
                Stmt::Begin(_)
                | Stmt::Commit
                | Stmt::Rollback
                | Stmt::SetTransaction(_)
                | Stmt::SetDeadlockTimeout
                | Stmt::CreateTable(_)
                | Stmt::DropTable(_)
                | Stmt::Insert(_)
                | Stmt::Update(_)
                | Stmt::Delete(_)
                | Stmt::Select(_),
                _,
            ) => false,
        }
    }
}

/// Whether two statements are one: names and strings by the bytes that they stand for, all else as it stands.
pub fn same_stmt(a: &Stmt<'_>, b: &Stmt<'_>) -> bool
    ensures { IsTrue result ↔ (stmt_of a.now ≡ stmt_of b.now) }
{
    a.alike(b)
}

/// Whether two lists of statements are one: the same statements in the same order.
pub fn same_stmts(a: &[Stmt<'_>], b: &[Stmt<'_>]) -> bool
    ensures { IsTrue result ↔ (map stmt_of a.now ≡ map stmt_of b.now) }
{
    all_alike(a, b)
}
