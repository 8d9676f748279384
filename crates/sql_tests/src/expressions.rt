//! Expressions at the front of a text, and what they are read as.

use crate::asked::{front_of, holds, is_no_expression, is_read_as};
use sql_trees::{Expr, Operator, Truth};
use std::alloc::{AllocError, Global};

// A text, the depth of the expression at its front, how many tokens stand behind it, and the expression with each operator in parentheses.
const READ: [(&str, usize, usize, &str); 47] = [
    ("1", 0, 0, "(1)"),
    ("'it''s'", 0, 0, "('it''s')"),
    ("true", 0, 0, "(TRUE)"),
    ("FALSE", 0, 0, "(FALSE)"),
    ("Null", 0, 0, "(NULL)"),
    ("a", 0, 0, "(a)"),
    ("\"select\"", 0, 0, "(\"select\")"),
    ("count", 0, 0, "(count)"),
    ("key + read", 1, 0, "(key + read)"),
    ("( a )", 1, 0, "(a)"),
    ("1 - 2 - 3", 2, 0, "((1 - 2) - 3)"),
    ("1 + 2 * 3", 2, 0, "(1 + (2 * 3))"),
    ("8 / 4 % 3 * 2", 3, 0, "(((8 / 4) % 3) * 2)"),
    ("( 1 + 2 ) * 3", 3, 0, "((1 + 2) * 3)"),
    ("a || b || c", 2, 0, "((a || b) || c)"),
    ("a || 1 + 2", 2, 0, "(a || (1 + 2))"),
    ("- 1", 1, 0, "(-1)"),
    ("- - 1", 2, 0, "(1)"),
    ("- ( 1 )", 2, 0, "(-1)"),
    ("- ( - ( 1 ) )", 4, 0, "(1)"),
    ("- + 1", 2, 0, "(- (+ 1))"),
    ("+ - 1", 2, 0, "(+ -1)"),
    ("- a", 1, 0, "(- a)"),
    ("2 - - 1", 2, 0, "(2 - -1)"),
    ("a = 1", 1, 0, "(a = 1)"),
    ("a <> b", 1, 0, "(a <> b)"),
    ("a < b", 1, 0, "(a < b)"),
    ("a <= b", 1, 0, "(a <= b)"),
    ("a > b", 1, 0, "(a > b)"),
    ("a >= b + 1", 2, 0, "(a >= (b + 1))"),
    ("1 < 2 < 3", 1, 2, "(1 < 2)"),
    ("a or b and c", 2, 0, "(a OR (b AND c))"),
    ("a and b or c or d", 3, 0, "(((a AND b) OR c) OR d)"),
    ("not a and b", 2, 0, "((NOT a) AND b)"),
    ("not not a = b", 3, 0, "(NOT (NOT (a = b)))"),
    ("a is null", 1, 0, "(a IS NULL)"),
    ("a is not true", 1, 0, "(a IS NOT TRUE)"),
    ("a = b is unknown", 2, 0, "((a = b) IS UNKNOWN)"),
    ("a is false is null", 1, 2, "(a IS FALSE)"),
    ("a in ( 1 , b + 2 )", 2, 0, "(a IN (1, (b + 2)))"),
    ("a not in ( 1 )", 1, 0, "(a NOT IN (1))"),
    (
        "a + 1 between 2 and 3 and b",
        3,
        0,
        "(((a + 1) BETWEEN 2 AND 3) AND b)",
    ),
    ("a not between b and c", 1, 0, "(a NOT BETWEEN b AND c)"),
    ("a in ( 1 ) = b", 2, 0, "((a IN (1)) = b)"),
    ("a , b", 0, 2, "(a)"),
    ("a b", 0, 1, "(a)"),
    ("1 ( 2 )", 0, 3, "(1)"),
];

// Texts that begin with no expression.
const REFUSED: [(&str, &str); 14] = [
    ("+", "Q1 Syntax at byte 1"),
    ("1 +", "Q1 Syntax at byte 3"),
    ("( 1", "Q1 Syntax at byte 3"),
    ("\"\"", "Q1 Syntax at byte 0"),
    ("1 + not a", "Q1 Syntax at byte 4"),
    ("a not b", "Q1 Syntax at byte 6"),
    ("a is 1", "Q1 Syntax at byte 5"),
    ("a in ( )", "Q1 Syntax at byte 7"),
    ("a between 1 or 2", "Q1 Syntax at byte 12"),
    ("a = any", "Q2 LeftOut at byte 4"),
    ("a in ( select", "Q2 LeftOut at byte 7"),
    ("f ( 1 )", "Q2 LeftOut at byte 2"),
    ("1 + Count ( a )", "Q2 LeftOut at byte 4"),
    ("( a . b )", "Q2 LeftOut at byte 4"),
];

#[test]
fn expressions_in_parentheses(rt: HostRuntime) -> Result<(), AllocError> {
    for (text, depth, left, plain) in READ.as_slice() {
        let read = is_read_as(rt.alloc(), (*text, *depth, *left), *plain)?;
        holds(&rt, read, *text);
    }
    Ok(())
}

#[test]
fn texts_that_are_no_expressions(rt: HostRuntime) -> Result<(), AllocError> {
    for (text, fault) in REFUSED.as_slice() {
        holds(&rt, is_no_expression(rt.alloc(), *text, *fault)?, *text);
    }
    Ok(())
}

fn operator_text(operator: Operator) -> &'static str {
    match operator {
        Operator::Or => "OR",
        Operator::And => "AND",
        Operator::Equal => "=",
        Operator::NotEqual => "<>",
        Operator::Less => "<",
        Operator::AtMost => "<=",
        Operator::Greater => ">",
        Operator::AtLeast => ">=",
        Operator::Concat => "||",
        Operator::Add => "+",
        Operator::Subtract => "-",
        Operator::Multiply => "*",
        Operator::Divide => "/",
        Operator::Remainder => "%",
    }
}

fn truth_text(negated: bool, truth: Truth) -> &'static str {
    match (negated, truth) {
        (false, Truth::Null) => "IS NULL",
        (false, Truth::True) => "IS TRUE",
        (false, Truth::False) => "IS FALSE",
        (false, Truth::Unknown) => "IS UNKNOWN",
        (true, _) => "IS NOT",
    }
}

// What the expression is at its top.
fn top(expr: &Expr<'_>) -> &'static str {
    match expr {
        Expr::Null => "NULL",
        Expr::Bool(true) => "TRUE",
        Expr::Bool(false) => "FALSE",
        Expr::Number {
            negative: false,
            digits: 7,
        } => "seven",
        Expr::Number {
            negative: true,
            digits: 7,
        } => "seven below",
        Expr::Number { .. } => "a number",
        Expr::Text("it''s") => "it's",
        Expr::Text(_) => "a string",
        Expr::Column(_) => "a column",
        Expr::Plus(_) => "plus",
        Expr::Minus(_) => "minus",
        Expr::Not(_) => "NOT",
        Expr::Binary(operator, _, _) => operator_text(*operator),
        Expr::Is(_, negated, truth) => truth_text(*negated, *truth),
        Expr::In(_, false, _) => "IN",
        Expr::In(_, true, _) => "NOT IN",
        Expr::Between(_, false, _, _) => "BETWEEN",
        Expr::Between(_, true, _, _) => "NOT BETWEEN",
    }
}

// Whether this stands at the top of the expression that the text is.
fn is_at_top(alloc: Global, text: &str, told: &str) -> Result<bool, AllocError> {
    Ok(match front_of(alloc, text)? {
        Some((parsed, 0)) => top(&parsed.expr) == told,
        _ => false,
    })
}

const TOPS: [(&str, &str); 36] = [
    ("null", "NULL"),
    ("true", "TRUE"),
    ("(false)", "FALSE"),
    ("7", "seven"),
    ("- 7", "seven below"),
    ("70", "a number"),
    ("'it''s'", "it's"),
    ("'7'", "a string"),
    ("\"7\"", "a column"),
    ("+ 7", "plus"),
    ("- a", "minus"),
    ("not a", "NOT"),
    ("a or b and c", "OR"),
    ("not a and b", "AND"),
    ("a = 1", "="),
    ("a <> 1", "<>"),
    ("a != 1", "<>"),
    ("a < 1", "<"),
    ("a <= 1", "<="),
    ("a > 1", ">"),
    ("a >= 1", ">="),
    ("a || b", "||"),
    ("a + b * c", "+"),
    ("a - b", "-"),
    ("a * b", "*"),
    ("a / b", "/"),
    ("a % b", "%"),
    ("a is null", "IS NULL"),
    ("a is true", "IS TRUE"),
    ("a is false", "IS FALSE"),
    ("a is unknown", "IS UNKNOWN"),
    ("a is not null", "IS NOT"),
    ("a in (1, 2)", "IN"),
    ("a not in (1)", "NOT IN"),
    ("a between 1 and 2", "BETWEEN"),
    ("a not between 1 and 2", "NOT BETWEEN"),
];

#[test]
fn each_form_at_the_top(rt: HostRuntime) -> Result<(), AllocError> {
    for (text, told) in TOPS.as_slice() {
        holds(&rt, is_at_top(rt.alloc(), *text, *told)?, *text);
    }
    Ok(())
}
