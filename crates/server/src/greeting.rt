//! Connections before the door, whose first line has to say the secret, and inside.

use crate::connections::{ended, unserved};
use door::{Entry, Secret, Standing, judge};
use engine::Failure;
use log::Log;
use sockets::{Connection, Heard, first_line};
use std::alloc::{AllocError, Global};

/// What a connection is told that may come to a desk.
const WELCOME: &[u8] = b"{\"reply\":\"welcome\"}\n";

/// What one is told whose first line does not say the secret.
const DENIED: &[u8] = b"{\"error\":37,\"name\":\"Denied\"}\n";

/// A connection, and where it stands.
#[derive(Drop)]
pub(crate) struct Caller<'a> {
    pub(crate) connection: Connection,
    pub(crate) standing: Standing<'a>,
}

impl<'a> Caller<'a> {
    /// A connection over which nothing came yet, before the secret that is asked for, if one is.
    pub(crate) fn new(connection: Connection, secret: Option<&'a Secret>) -> Self {
        Caller {
            connection,
            standing: Standing::at_first(secret),
        }
    }
}

/// Answers the first line of a connection, which is all of its part. What it is told is sent in its turn. At an `Err`
/// memory was refused.
fn answered<'a>(
    alloc: Global,
    connection: Connection,
    secret: &'a Secret,
) -> Result<Caller<'a>, AllocError> {
    let mut connection = connection;
    let entry = judge(alloc, &connection.part, secret)?;
    connection.part.clear();
    connection.heard = true;
    match entry {
        Entry::Welcomed(welcome) => {
            connection.unsent.extend_from_slice(WELCOME)?;
            Ok(Caller {
                connection,
                standing: Standing::Inside(welcome),
            })
        }
        Entry::Denied => {
            connection.unsent.extend_from_slice(DENIED)?;
            connection.ends = true;
            Ok(Caller {
                connection,
                standing: Standing::Before(secret),
            })
        }
    }
}

/// Hears the first line of a connection, as far as it came, and answers it once it is whole. It is none afterwards if the
/// connection has ended.
fn greeted<'a, R: Log>(
    rt: &R,
    alloc: Global,
    connection: Connection,
    secret: &'a Secret,
) -> Option<Caller<'a>> {
    let mut connection = connection;
    match first_line(&connection.socket, &mut connection.part) {
        Ok(Heard::Line) => match answered(alloc, connection, secret) {
            Ok(caller) => Some(caller),
            Err(AllocError) => {
                unserved(rt);
                None
            }
        },
        Ok(Heard::Part) => Some(Caller {
            connection,
            standing: Standing::Before(secret),
        }),
        Ok(Heard::Ended) => None,
        Err(_) => {
            ended(rt, Failure::ReadFailed);
            None
        }
    }
}

/// The first line of a connection is heard, where it stands before the door and was not answered yet. It is none
/// afterwards if the connection has ended.
pub(crate) fn at_door<'a, R: Log>(rt: &R, alloc: Global, caller: Caller<'a>) -> Option<Caller<'a>> {
    let Caller {
        connection,
        standing,
    } = caller;
    match standing {
        Standing::Before(secret) if !connection.ends => greeted(rt, alloc, connection, secret),
        standing => Some(Caller {
            connection,
            standing,
        }),
    }
}
