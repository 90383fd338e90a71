//! The file with the secret that connections have to say.

use crate::Fault;
use command_lines::refusal_of;
use door::{MAX_SECRET, Secret};
use std::fs::File;
use std::io::{self, Read};

/// How many bytes are read at most: a secret, a newline behind it, and one more, by which it is too long.
const MOST_BYTES: u64 = MAX_SECRET as u64 + 2;

/// The beginning of the file, which tells whether it has a secret.
fn read_beginning(rt: &HostRuntime, path: &str) -> io::Result<Vec<u8>> {
    let file = File::open(rt, path)?;
    let mut bytes = Vec::new(rt.alloc());
    file.take(MOST_BYTES).read_to_end(&mut bytes)?;
    Ok(bytes)
}

/// The secret in a file. It is refused where the file cannot be read (ReadFailed), for want of memory (NoMemory), and
/// where what it has is no secret.
pub(crate) fn read(rt: &HostRuntime, path: &str) -> Result<Secret, Fault> {
    let bytes = match read_beginning(rt, path) {
        Ok(bytes) => bytes,
        Err(error) => return Err(Fault::Refused(refusal_of(&error))),
    };
    match Secret::of(bytes) {
        Ok(secret) => Ok(secret),
        Err(unfit) => Err(Fault::Secret(unfit)),
    }
}
