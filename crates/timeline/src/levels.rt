//! The level of the transaction in which a session's steps run, where its setup opens one.

/// The level that the statement names. A word of it is enough to tell.
fn named_level(statement: &str) -> Option<&'static str> {
    for word in statement.split_whitespace() {
        if word.eq_ignore_ascii_case("repeatable") {
            return Some("Repeatable Read");
        }
        if word.eq_ignore_ascii_case("serializable") {
            return Some("Serializable");
        }
        if word.eq_ignore_ascii_case("committed") {
            return Some("Read Committed");
        }
        if word.eq_ignore_ascii_case("uncommitted") {
            return Some("Read Uncommitted");
        }
    }
    None
}

fn is_one_of(word: &str, words: &[&str]) -> bool {
    words.iter().any(|it| word.eq_ignore_ascii_case(it))
}

/// The level of the transaction that these statements leave open, if they do.
pub fn level_after(sql: &str) -> Option<&'static str> {
    let mut open = None;
    for statement in sql.split(';') {
        let first = statement.split_whitespace().next().unwrap_or("");
        if is_one_of(first, &["begin", "start"]) {
            open = Some(named_level(statement).unwrap_or("Read Committed"));
        } else if is_one_of(first, &["commit", "end", "rollback", "abort"]) {
            open = None;
        } else if first.eq_ignore_ascii_case("set") && open.is_some() {
            open = named_level(statement).or(open);
        }
    }
    open
}
