//! Texts that etcd 3.4.23 took, and what it answered, as they went over the wire.

use etcd_text::{Answer, Request, Tail, Unread, answer_in, append_text, tail_in};
use std::alloc::{AllocError, Global};
use std::test::Fail;

const NAME: &str = "broker/orders";

const FIRST: &[u8] = b"h1:7070/5f0c9a1e22d47b38";

const SECOND: &[u8] = b"h2:7070/90b1d2f3aa5c4e67";

/// The log is to begin.
const BEGIN: &str =
    r#"{"compare":[{"key":"YnJva2VyL29yZGVycy90YWls","target":"CREATE","result":"EQUAL","create_revision":"0"}],"success":[{"request_put":{"key":"YnJva2VyL29yZGVycy90YWls","value":"MSAwIGgxOjcwNzAvNWYwYzlhMWUyMmQ0N2IzOA=="}}],"failure":[{"request_range":{"key":"YnJva2VyL29yZGVycy90YWls"}}]}"#;

/// Its first piece.
const PUT: &str =
    r#"{"compare":[{"key":"YnJva2VyL29yZGVycy90YWls","target":"VALUE","result":"EQUAL","value":"MSAwIGgxOjcwNzAvNWYwYzlhMWUyMmQ0N2IzOA=="}],"success":[{"request_put":{"key":"YnJva2VyL29yZGVycy8wMDAwMDAwMDAwMDAwMDAxLzAwMDAwMDAwMDAwMDAwMDA=","value":"UFFKMS4u"}},{"request_put":{"key":"YnJva2VyL29yZGVycy90YWls","value":"MSAxIGgxOjcwNzAvNWYwYzlhMWUyMmQ0N2IzOA=="}}],"failure":[{"request_range":{"key":"YnJva2VyL29yZGVycy90YWls"}}]}"#;

/// A piece of another generation.
const FRESH: &str =
    r#"{"compare":[{"key":"YnJva2VyL29yZGVycy90YWls","target":"VALUE","result":"EQUAL","value":"MSAxIGgxOjcwNzAvNWYwYzlhMWUyMmQ0N2IzOA=="}],"success":[{"request_put":{"key":"YnJva2VyL29yZGVycy8wMDAwMDAwMDAwMDAwMDAyLzAwMDAwMDAwMDAwMDAwMDA=","value":"aGVhZA=="}}],"failure":[{"request_range":{"key":"YnJva2VyL29yZGVycy90YWls"}}]}"#;

/// That generation is to be in use.
const PLACE: &str =
    r#"{"compare":[{"key":"YnJva2VyL29yZGVycy90YWls","target":"VALUE","result":"EQUAL","value":"MSAxIGgxOjcwNzAvNWYwYzlhMWUyMmQ0N2IzOA=="}],"success":[{"request_put":{"key":"YnJva2VyL29yZGVycy90YWls","value":"MiAyIGgxOjcwNzAvNWYwYzlhMWUyMmQ0N2IzOA=="}}],"failure":[{"request_range":{"key":"YnJva2VyL29yZGVycy90YWls"}}]}"#;

/// The one before is to go.
const DROP: &str =
    r#"{"compare":[{"key":"YnJva2VyL29yZGVycy90YWls","target":"VALUE","result":"EQUAL","value":"MiAyIGgxOjcwNzAvNWYwYzlhMWUyMmQ0N2IzOA=="}],"success":[{"request_delete_range":{"key":"YnJva2VyL29yZGVycy8w","range_end":"YnJva2VyL29yZGVycy8wMDAwMDAwMDAwMDAwMDAyLw=="}}],"failure":[{"request_range":{"key":"YnJva2VyL29yZGVycy90YWls"}}]}"#;

/// The log is to be another owner's.
const TAKE: &str =
    r#"{"compare":[{"key":"YnJva2VyL29yZGVycy90YWls","target":"VALUE","result":"EQUAL","value":"MiAyIGgxOjcwNzAvNWYwYzlhMWUyMmQ0N2IzOA=="}],"success":[{"request_put":{"key":"YnJva2VyL29yZGVycy90YWls","value":"MiAyIGgyOjcwNzAvOTBiMWQyZjNhYTVjNGU2Nw=="}}],"failure":[{"request_range":{"key":"YnJva2VyL29yZGVycy90YWls"}}]}"#;

/// Which is the tail?
const ASK: &str = r#"{"key":"YnJva2VyL29yZGVycy90YWls"}"#;

/// Which is the first piece?
const READ: &str = r#"{"key":"YnJva2VyL29yZGVycy8wMDAwMDAwMDAwMDAwMDAxLzAwMDAwMDAwMDAwMDAwMDA="}"#;

/// Done, as the first piece was.
const SAYS_DONE: &str =
    r#"{"header":{"cluster_id":"2755613793311995676","member_id":"9829954754940738069","revision":"3","raft_term":"2"},"succeeded":true,"responses":[{"response_put":{"header":{"revision":"3"}}},{"response_put":{"header":{"revision":"3"}}}]}"#;

/// The same bytes once more: the tail is the one that they were to leave.
const SAYS_DONE_BEFORE: &str =
    r#"{"header":{"cluster_id":"2755613793311995676","member_id":"9829954754940738069","revision":"3","raft_term":"2"},"responses":[{"response_range":{"header":{"revision":"3"},"kvs":[{"key":"YnJva2VyL29yZGVycy90YWls","create_revision":"2","mod_revision":"3","version":"2","value":"MSAxIGgxOjcwNzAvNWYwYzlhMWUyMmQ0N2IzOA=="}],"count":"1"}}]}"#;

/// A piece of an owner before.
const SAYS_TAKEN_OVER: &str =
    r#"{"header":{"cluster_id":"2755613793311995676","member_id":"9829954754940738069","revision":"8","raft_term":"2"},"responses":[{"response_range":{"header":{"revision":"8"},"kvs":[{"key":"YnJva2VyL29yZGVycy90YWls","create_revision":"2","mod_revision":"8","version":"4","value":"MiAyIGgyOjcwNzAvOTBiMWQyZjNhYTVjNGU2Nw=="}],"count":"1"}}]}"#;

/// The tail.
const SAYS_TAIL: &str =
    r#"{"header":{"cluster_id":"2755613793311995676","member_id":"9829954754940738069","revision":"3","raft_term":"2"},"kvs":[{"key":"YnJva2VyL29yZGVycy90YWls","create_revision":"2","mod_revision":"3","version":"2","value":"MSAxIGgxOjcwNzAvNWYwYzlhMWUyMmQ0N2IzOA=="}],"count":"1"}"#;

/// No piece.
const SAYS_NO_PIECE: &str =
    r#"{"header":{"cluster_id":"2755613793311995676","member_id":"9829954754940738069","revision":"3","raft_term":"2"}}"#;

/// One without bytes, whose value is left out.
const SAYS_EMPTY_PIECE: &str =
    r#"{"header":{"cluster_id":"2755613793311995676","member_id":"9829954754940738069","revision":"5","raft_term":"2"},"kvs":[{"key":"YnJva2VyL29yZGVycy8wMDAwMDAwMDAwMDAwMDAyLzAwMDAwMDAwMDAwMDAwMDE=","create_revision":"5","mod_revision":"5","version":"1"}],"count":"1"}"#;

/// What was removed.
const SAYS_REMOVED: &str =
    r#"{"header":{"cluster_id":"2755613793311995676","member_id":"9829954754940738069","revision":"7","raft_term":"2"},"succeeded":true,"responses":[{"response_delete_range":{"header":{"revision":"7"},"deleted":"1"}}]}"#;

/// Of a transaction of comparisons alone, which is none that is sent.
const SAYS_NO_BRANCH: &str =
    r#"{"header":{"cluster_id":"2755613793311995676","member_id":"9829954754940738069","revision":"8","raft_term":"2"}}"#;

/// Of a text that is no JSON.
const SAYS_BROKEN: &str = r#"{"error":"unexpected EOF","message":"unexpected EOF","code":3}"#;

/// Where there is no such path.
const SAYS_NO_GATEWAY: &str = r#"Not Found"#;

fn tail(generation: u64, count: u64) -> Tail<'static> {
    Tail {
        generation,
        count,
        owner: FIRST,
    }
}

/// A row of the table: a request, and its text.
fn is_asked_by(alloc: Global, request: Request, text: &str) -> Result<bool, AllocError> {
    if let Request::Put { tail, .. } = request
        && tail.count == u64::MAX
    {
        return Ok(false);
    }
    let mut asked = String::new(alloc);
    append_text(alloc, &mut asked, NAME, &request)?;
    Ok(asked.as_str() == text)
}

#[test]
fn requests_are_texts(rt: HostRuntime) -> Result<(), Fail> {
    let alloc = rt.alloc();
    let rows = [
        (
            Request::Take {
                seen: None,
                owner: FIRST,
            },
            BEGIN,
        ),
        (
            Request::Put {
                tail: tail(1, 0),
                bytes: b"PQJ1..",
            },
            PUT,
        ),
        (
            Request::Fresh {
                tail: tail(1, 1),
                generation: 2,
                number: 0,
                bytes: b"head",
            },
            FRESH,
        ),
        (
            Request::Place {
                tail: tail(1, 1),
                generation: 2,
                count: 2,
            },
            PLACE,
        ),
        (Request::DropOlder { tail: tail(2, 2) }, DROP),
        (
            Request::Take {
                seen: Some(tail(2, 2)),
                owner: SECOND,
            },
            TAKE,
        ),
        (Request::Ask, ASK),
        (
            Request::Read {
                generation: 1,
                number: 0,
            },
            READ,
        ),
    ];
    for (request, text) in rows {
        assert!(rt; is_asked_by(alloc, request, text)?);
    }
    Ok(())
}

/// Whether an answer is this value, or that there is none.
fn says(alloc: Global, is_range: bool, body: &str, wanted: Option<&[u8]>) -> bool {
    match (answer_in(alloc, is_range, body.as_bytes()), wanted) {
        (Ok(Answer::Value(None)), None) => true,
        (Ok(Answer::Value(Some(bytes))), Some(wanted)) => bytes.as_slice() == wanted,
        _ => false,
    }
}

#[test]
fn answers_are_read(rt: HostRuntime) -> Result<(), Fail> {
    let alloc = rt.alloc();
    for body in [SAYS_DONE, SAYS_REMOVED] {
        let done = matches!(answer_in(alloc, false, body.as_bytes()), Ok(Answer::Done));
        assert!(rt; done);
    }
    assert!(rt;
        says(
            alloc,
            false,
            SAYS_DONE_BEFORE,
            Some(b"1 1 h1:7070/5f0c9a1e22d47b38")
        )
    );
    assert!(rt;
        says(
            alloc,
            false,
            SAYS_TAKEN_OVER,
            Some(b"2 2 h2:7070/90b1d2f3aa5c4e67")
        )
    );
    assert!(rt;
        says(
            alloc,
            true,
            SAYS_TAIL,
            Some(b"1 1 h1:7070/5f0c9a1e22d47b38")
        )
    );
    assert!(rt; says(alloc, true, SAYS_NO_PIECE, None));
    assert!(rt; says(alloc, true, SAYS_EMPTY_PIECE, Some(b"")));
    for body in [SAYS_NO_BRANCH, SAYS_BROKEN, SAYS_NO_GATEWAY] {
        let bad = matches!(
            answer_in(alloc, false, body.as_bytes()),
            Err(Unread::BadAnswer)
        );
        assert!(rt; bad);
    }
    Ok(())
}

#[test]
fn a_tail_has_one_text(rt: HostRuntime) -> Result<(), Fail> {
    let Some(tail) = tail_in(b"12 3 h1:7070/5f0c9a1e22d47b38") else {
        return Err(Fail::from("no tail"));
    };
    assert_eq!(rt; tail.generation, 12);
    assert_eq!(rt; tail.count, 3);
    assert!(rt; tail.owner == FIRST);
    for text in [
        "",
        "1",
        "1 2",
        "1  h1",
        "01 2 h1",
        "+1 2 h1",
        "1 2h1",
        "18446744073709551616 0 h1",
    ] {
        assert!(rt; tail_in(text.as_bytes()).is_none());
    }
    Ok(())
}
