//! Values of the SQL subset, rows of them, and what expressions make of them.
//! `'a' || 'b'` is evaluated so:
//!
//! ```
//! fn joined(alloc: Global) -> Result<Value, ValueFault<'static>> {
//!     let a = Box::new(alloc, Expr::Text("a"))?;
//!     let b = Box::new(alloc, Expr::Text("b"))?;
//!     let expr = Expr::Binary(Operator::Concat, a, b);
//!     let columns = Columns::of(&[]);
//!     let row = Row::from_vec(Vec::new(alloc));
//!     eval(alloc, &expr, &columns, &row)
//! }
//! ```
#![tactic(auto)]

mod aggregation;
mod arithmetic;
mod assignment;
mod bound;
mod columns;
mod comparison;
mod evaluation;
mod fault;
mod laws;
mod lent;
mod literal;
mod logic;
mod operation;
mod row;
mod sorting;
mod text;
mod value;

pub use aggregation::aggregate;
pub use assignment::assign;
pub use bound::Bound;
pub use columns::Columns;
pub use comparison::compare;
pub use evaluation::{eval, passes};
pub use fault::ValueFault;
pub use laws::{one_sorted_order, rows_turned};
pub use row::{Row, copy_row};
pub use sorting::order;
pub use sql_trees::{Dir, Kind};
pub use text::Text;
pub use value::Value;
