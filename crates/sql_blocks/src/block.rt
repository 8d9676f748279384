//! Blocks of statements.

ghost use Rattle.std.specs.List.{list_all};
ghost use Rattle.std.specs.Prelude.{◌≡◌, ◌↔◌, true, ◌≤◌, IsTrue, length, map, vec_len};
ghost use Rattle.iso_lexer.specs.declared.limits.TheConstants.{MAX_STMTS};
ghost use Rattle.sql_trees.specs.Statements.{stmt_of};
ghost use Rattle.sql_blocks.specs.Kept.{is_kept_in};

use sql_equality::same_stmts;
use sql_trees::Stmt;
use std::marker::Model;

/// Where a block stands: in the setup or teardown of a whole spec, or in a session.
#[derive(Clone, Copy, PartialEq, Eq)]
pub enum Role {
    Main,
    /// Makes and drops no table.
    Session,
}

/// The statements of a block of SQL text.
pub struct Block<'a> {
    role: Role,
    stmts: Vec<Stmt<'a>>,
}

/// Written out, so that a crate that drops one calls this, and needn't prove anew how its statements are dropped.
impl<'a> Drop for Block<'a> {
    fn drop(self) {
        let Block { role: _, stmts: _ } = self;
    }
}

impl<'a> Model for Block<'a> {
    ghost use Rattle.std.specs.Coded.{codes};
    ghost use Rattle.std.specs.List.{list_all};
    ghost use Rattle.std.specs.Prelude.{◌≡◌, ◌≤◌, true, [], map, vec_len};
    ghost use Rattle.iso_lexer.specs.declared.limits.TheConstants.{MAX_STMTS};
    ghost use mir.Syntax.{named};
    ghost use Rattle.sql_trees.specs.contracts.expr.Expr as expr;
    ghost use Rattle.sql_trees.specs.Statements.{stmt_of};
    ghost use Rattle.sql_blocks.specs.BlockViews.{BlockView};
    ghost use Rattle.sql_blocks.specs.Kept.{is_kept_in};

    ghost Value = { BlockView };

    ghost coded = { Prim.hlevel (codes, (expr.the_row (record { mir = named 0; lft = [] })).coded) };

    ghost view = { λ b. record { role = b.role; stmts = b.stmts.items } };

    ghost invariant = { λ b. (vec_len b.stmts ≤ MAX_STMTS) × (list_all (is_kept_in b.role) (map stmt_of b.stmts.items) ≡ true) };
}

impl<'a> Block<'a> {
    /// The block of these statements, which stands here. `parse_block` makes blocks by it, from the text that they stand in.
    pub fn new(role: Role, stmts: Vec<Stmt<'a>>) -> Block<'a>
        requires few { vec_len stmts ≤ MAX_STMTS }
        requires kept { list_all (is_kept_in role) (map stmt_of stmts.items) ≡ true }
        ensures role { result.role ≡ role }
        ensures stmts { result.stmts ≡ stmts.entry.items }
    {
        Block { role, stmts }
    }

    /// Where the block stands.
    pub fn role(&self) -> Role
        ensures { result ≡ self.now.role }
    {
        self.role
    }

    /// The statements.
    pub fn stmts(&self) -> &[Stmt<'a>]
        ensures lends { result.now ≡ self.now.stmts }
        ensures few { length result.now ≤ MAX_STMTS }
        ensures kept { list_all (is_kept_in self.now.role) (map stmt_of result.now) ≡ true }
    {
        &self.stmts
    }

    /// Whether two blocks are one: they stand in the same place, and have the same statements in the same order. Names and strings are
    /// compared by the bytes that they stand for, all else as it stands.
    pub fn same(&self, other: &Block<'_>) -> bool
        ensures { IsTrue result ↔ ((self.now.role ≡ other.now.role) × (map stmt_of self.now.stmts ≡ map stmt_of other.now.stmts)) }
    {
        other.role == self.role && same_stmts(self.stmts(), other.stmts())
    }
}
