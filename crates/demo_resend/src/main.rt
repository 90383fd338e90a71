//! A client that is in doubt: its call was cut off by a crash, and it sends the number again. It is played twice, with
//! a crash after the call took effect and with one before.
#![tactic(auto)]

mod orders;

use crate::orders::{begin, open, restart, send, show};
use anyhow::Result;
use session::Session;
use words::{Call, Item};

/// Number 1 puts a text in. Number 2 is to take it out, and after so many steps of that everything stops. The client does
/// not know what became of it, and sends it again.
fn tell(rt: &HostRuntime, session: &mut Session, steps: u32) -> Result<()> {
    send(rt, session, 1, Call::Enq(Item::make(b"hello")?))?;
    begin(rt, session, 2, Call::Deq, steps)?;
    restart(rt, session)?;
    send(rt, session, 2, Call::Deq)?;
    send(rt, session, 2, Call::Deq)?;
    send(rt, session, 3, Call::Deq)?;
    send(rt, session, 2, Call::Deq)?;
    show(rt, session)
}

/// The story on a new broker.
fn play(rt: &HostRuntime, steps: u32) -> Result<()> {
    let mut session = open(rt.alloc())?;
    tell(rt, &mut session, steps)
}

fn main(rt: HostRuntime) -> Result<()> {
    println!(rt; "A crash when number 2 has taken effect, but is not answered")?;
    play(&rt, 23)?;
    println!(rt; "\nA crash when it has only been announced")?;
    play(&rt, 12)
}
