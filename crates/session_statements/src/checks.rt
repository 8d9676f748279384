//! What a row meets that is about to be written: NULL in a column that may not be, and then a key.

ghost use Rattle.std.specs.Prelude.{◌≡◌, option_map, IfOk};
ghost use Rattle.query_results.specs.Queries.{null_in};
ghost use Rattle.session_machine.specs.Rows.{columns_in};
ghost use Rattle.session_machine.specs.Inner.Statements.{keys_in, meet_keys, Visit};
ghost use Rattle.session_machine.specs.Inner.Pieces.{unless_met, unless_null};
ghost use Rattle.session_database.specs.Stops.{meets_of};
ghost use Rattle.session_statements.specs.Inner.Acting.{putting_of};
ghost use Rattle.session_statements.specs.Inner.Keeping.{IsAtWork};

use crate::act::Putting;
use iso_lexer::Ident;
use row_versions::{RowId, Versions};
use session_database::{Database, Meets, Stop, Work};
use session_machine::StmtFault;
use session_queries::null_in;
use sql_values::Row;
use std::alloc::AllocError;

/// What a row meets that is about to be written with these values, in place of that one or as a new one:
/// NULL in a column that may not be, and then the first of the table's keys that isn't free.
pub(crate) fn met_before_write<'a, 't, V: Versions>(
    db: &Database<'a, 't, V>,
    work: &Work<'_>,
    put: &Putting<'_, 't>,
    values: &Row,
    except: Option<RowId>,
) -> Result<Option<Meets<'t>>, AllocError>
    requires work { IsAtWork db.now work.now }
    ensures { (due : Visit) → IfOk result (λ met.
        unless_null (putting_of put.now).table db.now
        (unless_met db.now due (meet_keys db.now work.now (putting_of put.now) values.now except (keys_in db.now work.now)))
        (null_in (columns_in db.now work.now) values.now)
        ≡ unless_met db.now due (option_map meets_of met)) }
{
    if let Some(column) = null_in(db.columns_in(work), values) {
        let table = Ident::new(put.table);
        let fault = StmtFault::NullValue { column, table };
        return Ok(Some(Meets::Stops(Stop::Fails(fault))));
    }
    let keys = db.keys_in(work);
    for key in keys {
        let met = db.meet_key(work, &put.table, put.do_nothing, key, values, except)?;
        if met.is_some() {
            return Ok(met);
        }
    }
    Ok(None)
}
