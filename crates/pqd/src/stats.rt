//! Printing the numbers of a server.

use crate::Fault;
use crate::entering::here;
use crate::table::table_of;
use options::Printing;
use scraping::ask_stats;
use serde_json::Value;
use std::net::TcpStream;
use std::thread::sleep;
use std::time::Duration;
use words::Refusal;

/// How long a server may take for anything.
const MOST_SECONDS: u64 = 5;

/// How long it rests before it prints the numbers again.
const REST_SECONDS: u64 = 1;

/// The numbers that are told at a port of this machine.
fn numbers_at(rt: &HostRuntime, port: u16) -> Result<Value, Fault> {
    let most = Duration::from_secs(MOST_SECONDS);
    let Ok(mut stream) = TcpStream::connect_timeout(rt, &here(port), most) else {
        return Err(Fault::Untold);
    };
    if stream.set_read_timeout(Some(most)).is_err()
        || stream.set_write_timeout(Some(most)).is_err()
    {
        return Err(Fault::Untold);
    }
    let Some(text) = ask_stats(rt.alloc(), &mut stream, "127.0.0.1") else {
        return Err(Fault::Untold);
    };
    match Value::from_slice(rt.alloc(), &text) {
        Ok(numbers) => Ok(numbers),
        Err(_) => Err(Fault::Untold),
    }
}

/// Prints them once.
fn print_once(rt: &HostRuntime, port: u16) -> Result<(), Fault> {
    let numbers = numbers_at(rt, port)?;
    let Ok(table) = table_of(rt.alloc(), &numbers) else {
        return Err(Fault::Refused(Refusal::NoMemory));
    };
    match println!(rt; "{table}") {
        Ok(()) => Ok(()),
        Err(_) => Err(Fault::Refused(Refusal::WriteFailed)),
    }
}

/// Prints the numbers of a server, as they are asked for.
pub(crate) fn print(rt: &HostRuntime, asked: Printing) -> Result<(), Fault> {
    print_once(rt, asked.port)?;
    if !asked.watch {
        return Ok(());
    }
    for _ in 0..u64::MAX {
        sleep(rt, Duration::from_secs(REST_SECONDS));
        print_once(rt, asked.port)?;
    }
    Ok(())
}
