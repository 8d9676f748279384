//! Which statements define tables.

ghost use Rattle.std.specs.Prelude.{◌≡◌};
ghost use Rattle.sql_trees.specs.Statements.{stmt_of};
ghost use Rattle.session_machine.specs.Running.{is_definition};

use sql_trees::Stmt;

/// Whether the statement makes or drops tables.
pub fn is_definition(stmt: &Stmt<'_>) -> bool
    ensures { result ≡ is_definition (stmt_of stmt.now) }
{
    matches!(stmt, Stmt::CreateTable(_) | Stmt::DropTable(_))
}
