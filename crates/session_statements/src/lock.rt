//! A locking SELECT (PostgreSQL manual, 13.3.2, and the page of SELECT).

ghost use Rattle.std.specs.Prelude.{◌≡◌, ◌<◌, length, IfOk};
ghost use Rattle.sql_trees.specs.Statements.{select_of};
ghost use Rattle.session_machine.specs.Rows.{columns_in, values_of};
ghost use Rattle.session_machine.specs.Inner.Statements.{lock_with};
ghost use Rattle.session_statements.specs.Inner.Acting.{visit_of};

use crate::act::Visited;
use crate::returning::show;
use row_versions::{Seen, Versions};
use session_database::{Database, Work};
use sql_trees::Select;
use std::alloc::AllocError;

/// The version that a target takes is shown.
pub(crate) fn lock_with<'a, 't, V: Versions>(
    db: &Database<'a, 't, V>,
    work: &Work<'_>,
    stmt: &Select<'t>,
    version: &Seen,
) -> Result<Visited<'t>, AllocError>
    requires within { work.now.table < length db.now.catalog.tables }
    requires even { length (values_of db.now version.now) ≡ length (columns_in db.now work.now) }
    ensures { IfOk result (λ v. lock_with work.now (select_of stmt.now) db.now version.now ≡ visit_of db.now v) }
{
    show(db, work, &stmt.items, db.row_of(version))
}
