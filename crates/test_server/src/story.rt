//! A story of two clients with two records each: numbers that are sent again, a crash, and what is refused. It is that
//! of tests/pqd/story.in.

/// A request line and its reply line.
pub(crate) type Row = (&'static str, &'static str);

pub(crate) static STORY: [Row; 15] = [
    (
        r#"{"op":"create","queue":"a","kind":"log"}"#,
        r#"{"reply":"created","slot":0}"#,
    ),
    (
        r#"{"op":"put","client":0,"queue":"a","number":1,"value":"ffffffff"}"#,
        r#"{"reply":"done"}"#,
    ),
    (
        r#"{"op":"put","client":0,"queue":"a","number":1,"value":"ffffffff"}"#,
        r#"{"reply":"done"}"#,
    ),
    (
        r#"{"op":"take","client":1,"queue":"a","number":1}"#,
        r#"{"got":"ffffffff","reply":"got"}"#,
    ),
    (
        r#"{"op":"take","client":1,"queue":"a","number":1}"#,
        r#"{"got":"ffffffff","reply":"got"}"#,
    ),
    (
        r#"{"op":"take","client":1,"queue":"a","number":3}"#,
        r#"{"error":19,"name":"Gap"}"#,
    ),
    (r#"{"op":"crash"}"#, r#"{"reply":"crashed"}"#),
    (
        r#"{"op":"take","client":1,"queue":"a","number":2}"#,
        r#"{"error":12,"name":"NotReady"}"#,
    ),
    (r#"{"op":"recover"}"#, r#"{"reply":"ready"}"#),
    (
        r#"{"op":"told","client":1,"queue":"a"}"#,
        r#"{"got":"ffffffff","number":1,"reply":"got","told":"taken"}"#,
    ),
    (
        r#"{"op":"take","client":1,"queue":"a"}"#,
        r#"{"error":22,"name":"WrongKind"}"#,
    ),
    (
        r#"{"op":"take","client":1,"queue":"b","number":2}"#,
        r#"{"error":21,"name":"NoQueue"}"#,
    ),
    (
        r#"{"op":"take","client":1,"queue":"a","number":2}"#,
        r#"{"reply":"empty"}"#,
    ),
    (
        r#"{"op":"take","client":1,"queue":"a","number":1}"#,
        r#"{"error":20,"name":"Old"}"#,
    ),
    (
        r#"{"op":"take","client":1,"queue":"a","number":3}"#,
        r#"{"error":11,"name":"NoRoom"}"#,
    ),
];
