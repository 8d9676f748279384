//! What a statement that fails prints.

ghost use Rattle.std.specs.Prelude.{◌≡◌, ◌++◌, codes, OnOk};
ghost use Rattle.std.specs.Fmt.{signed_decimal};
ghost use Rattle.iso_lexer.specs.Devices.{page_text};
ghost use Rattle.iso_lexer.specs.Names.{name_view, decoded};
ghost use Rattle.report_text.specs.FaultText.{in_quotes, column_of_relation, fault_text};
ghost use Rattle.session_machine.specs.declared.fault.StmtFault.TheVariants.{Value};

use crate::names::push_name;
use iso_lexer::{Ident, Name, Page};
use itoa::Buffer;
use session_machine::{KeyName, StmtFault};
use sql_values::ValueFault;
use std::alloc::AllocError;

fn push_quoted(page: &mut Page, name: &Name<'_>) -> Result<(), AllocError>
    ensures { OnOk result (page_text page.new ≡ page_text page.old ++ in_quotes (decoded (name_view name.now))) }
{
    page.push(b"\"")?;
    push_name(page, name)?;
    page.push(b"\"")
}

fn push_column(page: &mut Page, name: &Name<'_>) -> Result<(), AllocError>
    ensures { OnOk result (page_text page.new ≡ page_text page.old ++ (codes "column " ++ in_quotes (decoded (name_view name.now)))) }
{
    page.push(b"column ")?;
    push_quoted(page, name)
}

fn push_relation(page: &mut Page, name: &Ident<'_>) -> Result<(), AllocError>
    ensures { OnOk result (page_text page.new ≡ page_text page.old ++ (codes "relation " ++ in_quotes name.now)) }
{
    page.push(b"relation ")?;
    push_quoted(page, &name.name())
}

#[tactic(auto, unfolding(crate::specs::FaultText::fault_text))]
fn push_value_fault(page: &mut Page, fault: &ValueFault<'_>) -> Result<(), AllocError>
    ensures { OnOk result (page_text page.new ≡ page_text page.old ++ fault_text (Value fault.now)) }
{
    match fault {
        ValueFault::DivisionByZero => page.push(b"division by zero"),
        ValueFault::IntegerRange => page.push(b"integer out of range"),
        ValueFault::BigintRange => page.push(b"bigint out of range"),
        ValueFault::TypeMismatch => page.push(b"type mismatch"),
        ValueFault::NoColumn(column) => {
            push_column(page, &column.name())?;
            page.push(b" does not exist")
        }
        ValueFault::Memory => page.push(b"out of memory"),
    }
}

/// Of a column of a relation.
fn push_column_of(page: &mut Page, column: &Ident<'_>, table: &Ident<'_>) -> Result<(), AllocError>
    ensures { OnOk result (page_text page.new ≡ page_text page.old ++ column_of_relation column.now table.now) }
{
    push_column(page, &column.name())?;
    page.push(b" of ")?;
    push_relation(page, table)
}

fn push_table(page: &mut Page, name: &Ident<'_>) -> Result<(), AllocError>
    ensures { OnOk result (page_text page.new ≡ page_text page.old ++ (codes "table " ++ in_quotes name.now)) }
{
    page.push(b"table ")?;
    push_quoted(page, &name.name())
}

fn push_key_fault(page: &mut Page, name: &KeyName) -> Result<(), AllocError>
    ensures { OnOk result (page_text page.new ≡ page_text page.old ++ (codes "duplicate key value violates unique constraint " ++ in_quotes name.now)) }
{
    page.push(b"duplicate key value violates unique constraint \"")?;
    page.push(name.text())?;
    page.push(b"\"")
}

fn push_number(page: &mut Page, number: &i128) -> Result<(), AllocError>
    ensures { OnOk result (page_text page.new ≡ page_text page.old ++ signed_decimal number.now) }
{
    let mut buffer = Buffer::new();
    page.push(buffer.format(*number).as_bytes())
}

fn push_position_fault(page: &mut Page, position: &i128) -> Result<(), AllocError>
    ensures { OnOk result (page_text page.new ≡ page_text page.old ++ (codes "ORDER BY position " ++ signed_decimal position.now ++ codes " is not in select list")) }
{
    page.push(b"ORDER BY position ")?;
    push_number(page, position)?;
    page.push(b" is not in select list")
}

fn push_not_free(page: &mut Page, name: &Ident<'_>) -> Result<(), AllocError>
    ensures { OnOk result (page_text page.new ≡ page_text page.old ++ (codes "could not obtain lock on row in relation " ++ in_quotes name.now)) }
{
    page.push(b"could not obtain lock on row in ")?;
    push_relation(page, name)
}

/// Pushes the text of a fault.
#[tactic(auto, unfolding(crate::specs::FaultText::fault_text))]
pub fn push_fault(page: &mut Page, fault: &StmtFault<'_>) -> Result<(), AllocError>
    ensures { OnOk result (page_text page.new ≡ page_text page.old ++ fault_text fault.now) }
{
    match fault {
        StmtFault::Value(fault) => push_value_fault(page, fault),
        StmtFault::NoColumnOf { column, table } => {
            push_column_of(page, column, table)?;
            page.push(b" does not exist")
        }
        StmtFault::NoTable(name) => {
            push_relation(page, name)?;
            page.push(b" does not exist")
        }
        StmtFault::NoTableToDrop(name) => {
            push_table(page, name)?;
            page.push(b" does not exist")
        }
        StmtFault::TableExists(name) => {
            push_relation(page, name)?;
            page.push(b" already exists")
        }
        StmtFault::NullValue { column, table } => {
            page.push(b"null value in ")?;
            push_column_of(page, column, table)?;
            page.push(b" violates not-null constraint")
        }
        StmtFault::KeyTaken(name) => push_key_fault(page, name),
        StmtFault::TooManyValues => page.push(b"INSERT has more expressions than target columns"),
        StmtFault::NoPosition(position) => push_position_fault(page, position),
        StmtFault::NotSerializable => {
            page.push(b"could not serialize access due to concurrent update")
        }
        StmtFault::Deadlock => page.push(b"deadlock detected"),
        StmtFault::NotFree(name) => push_not_free(page, name),
        StmtFault::Aborted => page.push(
            b"current transaction is aborted, commands ignored until end of transaction block",
        ),
        StmtFault::LevelTooLate => {
            page.push(b"SET TRANSACTION ISOLATION LEVEL must be called before any query")
        }
    }
}
