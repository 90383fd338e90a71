//! The addresses of members.

use std::alloc::Global;
use std::net::{SocketAddr, TcpStream, ToSocketAddrs};
use std::time::Duration;

/// How long an address may take to answer that is looked for.
const LOOK_MILLIS: u64 = 1_500;

/// How many bytes the name of a log has at most.
const MOST_NAME_BYTES: usize = 64;

/// How many bytes a place has at most: as many as a name of a machine may have, and a colon and a port.
const MOST_PLACE_BYTES: usize = 259;

/// Whether a name of a log may have such a part, and so no key of one log is another's: it begins with a letter, as no
/// number of a generation does.
fn is_part(part: &str) -> bool {
    let bytes = part.as_bytes();
    let begins = match bytes.first() {
        Some(first) => first.is_ascii_lowercase(),
        None => false,
    };
    begins
        && bytes.iter().all(|byte| {
            byte.is_ascii_lowercase() || byte.is_ascii_digit() || *byte == b'-' || *byte == b'_'
        })
}

/// The members and the name of a log, which stand before the first slash of its address and behind it; none, where the
/// name is no name. That has up to 64 bytes of a to z, 0 to 9, `-` and `_`, and slashes between parts that begin with a
/// letter.
pub fn log_at(address: &str) -> Option<(&str, &str)> {
    let (members, name) = address.split_once('/')?;
    if name.len() <= MOST_NAME_BYTES && name.split('/').all(is_part) {
        Some((members, name))
    } else {
        None
    }
}

/// All addresses of a member's name and port, behind those that were found.
fn push_found(rt: &HostRuntime, found: &mut Vec<SocketAddr>, member: &str) -> Option<()> {
    let Ok(addresses) = member.to_socket_addrs(rt) else {
        return None;
    };
    for address in addresses {
        if found.push(address).is_err() {
            return None;
        }
    }
    Some(())
}

/// The addresses of members that are written so, with commas between them: each is a name or an address, a colon and a
/// port. None, where one of them has no address, or memory is refused.
pub fn members(rt: &HostRuntime, alloc: Global, text: &str) -> Option<Vec<SocketAddr>> {
    let mut found = Vec::new(alloc);
    for member in text.split(',') {
        push_found(rt, &mut found, member)?;
    }
    Some(found)
}

/// Whether a name or an address of a machine may have such a byte.
fn is_of_host(byte: u8) -> bool {
    byte.is_ascii_alphanumeric() || matches!(byte, b'.' | b'-' | b'_' | b':' | b'[' | b']' | b'%')
}

/// Whether a text may say where a server is found, as `to_socket_addrs` reads it: a name or an address, a colon, and a
/// port that is not 0. What may stand in neither, as a space or a slash, would end it within the text of a tail.
pub fn is_place(text: &str) -> bool {
    let Some((host, port)) = text.rsplit_once(':') else {
        return false;
    };
    let Ok(number) = port.parse::<u16>() else {
        return false;
    };
    number != 0
        && !host.is_empty()
        && text.len() <= MOST_PLACE_BYTES
        && host.as_bytes().iter().all(|byte| is_of_host(*byte))
}

/// Whether somebody takes connections at one of these addresses, which are let go at once.
fn is_one_reached(rt: &HostRuntime, addresses: &[SocketAddr]) -> bool {
    let most = Duration::from_millis(LOOK_MILLIS);
    for address in addresses {
        if TcpStream::connect_timeout(rt, address, most).is_ok() {
            return true;
        }
    }
    false
}

/// Whether somebody takes connections at a place. A name that has no address is nobody's. Nothing is safe by it.
pub fn is_reached(rt: &HostRuntime, alloc: Global, place: &str) -> bool {
    match members(rt, alloc, place) {
        Some(addresses) => is_one_reached(rt, &addresses),
        None => false,
    }
}
