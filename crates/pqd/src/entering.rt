//! Where connections come in.

use crate::{Fault, secret};
use door::Secret;
use options::Listening;
use server::Entrance;
use std::net::{Ipv4Addr, SocketAddr, TcpListener};
use words::Refusal;

/// A listener, the address that it has, and the secret that connections have to say there, if they have to; and where
/// numbers are told, if they are.
#[derive(Drop)]
pub(crate) struct Bound<'a> {
    asked: Listening<'a>,
    listener: TcpListener,
    pub(crate) address: SocketAddr,
    secret: Option<Secret>,
    metrics: Option<TcpListener>,
}

/// A listener of the address.
fn listener_at(rt: &HostRuntime, at: SocketAddr) -> Result<TcpListener, Fault> {
    match TcpListener::bind(rt, at) {
        Ok(listener) => Ok(listener),
        Err(_) => Err(Fault::Listen),
    }
}

/// A port of this machine alone.
pub(crate) fn here(port: u16) -> SocketAddr {
    SocketAddr::from((Ipv4Addr::new(127, 0, 0, 1), port))
}

/// Where connections come in that are asked for so. Its secret is read first.
pub(crate) fn bind<'a>(rt: &HostRuntime, asked: Listening<'a>) -> Result<Bound<'a>, Fault> {
    let secret = match asked.secret {
        Some(path) => Some(secret::read(rt, path)?),
        None => None,
    };
    let listener = listener_at(rt, SocketAddr::from((asked.address, asked.port)))?;
    let metrics = match asked.metrics {
        Some(port) => Some(listener_at(rt, here(port))?),
        None => None,
    };
    match listener.local_addr() {
        Ok(address) => Ok(Bound {
            asked,
            listener,
            address,
            secret,
            metrics,
        }),
        Err(_) => Err(Fault::Listen),
    }
}

impl<'a> Bound<'a> {
    /// Says who is served there, where that is not all of this machine and nobody else.
    fn tell_guests(&self, rt: &HostRuntime) -> Result<(), Fault> {
        let address = self.address;
        let said = match &self.secret {
            Some(_) => eprintln!(rt;
                "pqd: whoever says the secret at {address} is served: nothing is encrypted"
            ),
            None if self.asked.address.is_loopback() => Ok(()),
            None => eprintln!(rt; "pqd: whoever reaches {address} is served: there is no password"),
        };
        match said {
            Ok(()) => Ok(()),
            Err(_) => Err(Fault::Refused(Refusal::WriteFailed)),
        }
    }

    /// Says where numbers are told, where they are.
    fn tell_metrics(&self, rt: &HostRuntime) -> Result<(), Fault> {
        let Some(metrics) = &self.metrics else {
            return Ok(());
        };
        let Ok(address) = metrics.local_addr() else {
            return Err(Fault::Listen);
        };
        match println!(rt; "metrics {address}") {
            Ok(()) => Ok(()),
            Err(_) => Err(Fault::Refused(Refusal::WriteFailed)),
        }
    }

    /// Says where it listens, who is served there, and where numbers are told.
    pub(crate) fn tell(&self, rt: &HostRuntime) -> Result<(), Fault> {
        self.tell_guests(rt)?;
        if println!(rt; "listening {}", self.address).is_err() {
            return Err(Fault::Refused(Refusal::WriteFailed));
        }
        self.tell_metrics(rt)
    }

    /// As the server takes it.
    pub(crate) fn entrance(&self) -> Entrance<'_> {
        Entrance {
            listener: &self.listener,
            connections: self.asked.connections,
            idle: self.asked.idle,
            secret: self.secret.as_ref(),
            metrics: self.metrics.as_ref(),
        }
    }
}
