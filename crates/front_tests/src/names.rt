//! Names as the bytes that they stand for.

use crate::asking::holds;
use iso_lexer::{Ident, Name, same_name, write_name};
use test_devices::Takes;

#[test]
fn names_are_one_by_the_bytes_they_stand_for(rt: HostRuntime) {
    for (a, b, same) in [
        (Name::Plain("FOO"), Name::Quoted("FOO"), true),
        (Name::Plain("FOO"), Name::Plain("foo"), false),
        (Name::Folded("FOO"), Name::Quoted("foo"), true),
        (Name::Folded("FOO"), Name::Quoted("FOO"), false),
        (Name::Quoted("a\"\"b"), Name::Quoted("a\"b"), false),
        (Name::Quoted("a\"\""), Name::Plain("a"), false),
    ] {
        holds(&rt, same_name(&a, &b) == same, "same_name");
        holds(&rt, (a == b) == same, "==");
        holds(&rt, Ident::new(a).same(&Ident::new(b)) == same, "Ident");
    }
}

#[test]
fn names_are_written_as_the_bytes_they_stand_for(rt: HostRuntime) {
    for (name, text) in [
        (Name::Plain("FOO"), "FOO"),
        (Name::Quoted("\"\"a\"\"\"\"b"), "\"a\"\"b"),
        (Name::Quoted(""), ""),
        (Name::Folded("Foo$1"), "foo$1"),
    ] {
        let mut out = Takes::new(10);
        let written = write_name(&mut out, &name).is_ok();
        holds(&rt, written && out.text() == text.as_bytes(), text);
    }
}

#[test]
fn a_failing_write_is_told(rt: HostRuntime) {
    let mut out = Takes::new(1);
    for name in [Name::Quoted("a\"\"b"), Name::Quoted(""), Name::Folded("")] {
        holds(&rt, write_name(&mut out, &name).is_err(), "failed");
        holds(&rt, out.text() == b"a\"".as_slice(), "what went out before");
    }
}
