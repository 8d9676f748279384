//! What a query answers at the rows of its table, and what an INSERT or UPDATE makes of its values.
#![tactic(auto)]

mod answer;
mod assigned;
mod keys;
mod known;
mod leaving;
mod new_row;
mod ordering;
mod passing;
mod positions;
mod titles;
mod undefined;
mod update;
mod values_check;

pub use answer::{result_of, row_values};
pub use assigned::{AssignedColumn, AssignedColumns, columns_assigned, columns_set};
pub use leaving::leaves_all;
pub use new_row::new_values;
pub use ordering::taken_places;
pub use passing::passing_places;
pub use positions::wrong_position;
pub use titles::titles_of;
pub use undefined::{
    undefined_in_delete, undefined_in_returning, undefined_in_rows, undefined_in_select,
    undefined_in_update,
};
pub use update::updated_values;
pub use values_check::{null_in, some_too_long};
