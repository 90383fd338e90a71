//! A log queue with one client, and a line for each thing that happens in it.

use anyhow::Result;
use arena::SlotId;
use directory::CREATION_STEPS;
use named::Broker;
use session::Session;
use std::alloc::Global;
use words::{Call, Client, Item, Kind, Outcome, Refusal, Reply, Told};

/// The queue is the broker's first one.
const ORDERS: SlotId = SlotId(0);

const CLIENT: Client = Client(0);

/// The most steps that recovery takes here.
const MOST_STEPS: u32 = 1_000;

/// A new broker with the log queue `orders`.
pub(crate) fn open(alloc: Global) -> Result<Session, Refusal> {
    let mut session = Session::open(Broker::make(alloc, 1, 4)?);
    session.create(b"orders", Kind::Log)?;
    for _ in 0..CREATION_STEPS {
        session.create_step()?;
    }
    Ok(session)
}

/// The text that a message is.
fn text(message: &Item) -> &str {
    str::from_utf8(message.bytes()).unwrap_or("no text")
}

/// A call and its number, as it is asked for.
fn asked(alloc: Global, number: u64, call: &Call) -> Result<String> {
    Ok(match call {
        Call::Enq(message) => format!(in alloc; "{number}, enqueue {}", text(message))?,
        Call::Deq => format!(in alloc; "{number}, dequeue")?,
    })
}

/// A reply.
fn replied(alloc: Global, reply: &Reply) -> Result<String> {
    Ok(match reply {
        Reply::Got(message) => format!(in alloc; "got {}", text(message))?,
        _ => format!(in alloc; "{reply}")?,
    })
}

/// What a client is told.
fn heard(alloc: Global, told: &Told) -> Result<String> {
    let Told::Verdict(verdict) = told else {
        return Ok(format!(in alloc; "{told}")?);
    };
    let outcome = match &verdict.outcome {
        Outcome::Taken(reply) => replied(alloc, reply)?,
        Outcome::NotTaken => format!(in alloc; "nottaken")?,
    };
    Ok(format!(in alloc; "{} {outcome}", verdict.number)?)
}

/// How many calls took effect.
fn effects(session: &Session) -> Result<usize, Refusal> {
    Ok(session.broker().order(ORDERS)?.entries.as_slice().len())
}

/// The client sends a number, and prints its reply, and whether anything ran for it.
pub(crate) fn send(rt: &HostRuntime, session: &mut Session, number: u64, call: Call) -> Result<()> {
    let before = effects(session)?;
    let asked = asked(rt.alloc(), number, &call)?;
    match session.request(CLIENT, ORDERS, number, call) {
        Ok(reply) => {
            let reply = replied(rt.alloc(), &reply)?;
            let kept = if effects(session)? == before {
                " (the kept reply: nothing ran)"
            } else {
                ""
            };
            println!(rt; "  the client sends {asked}: {reply}{kept}")?;
        }
        Err(refusal) => println!(rt; "  the client sends {asked}: refused, {}", refusal.name())?,
    }
    Ok(())
}

/// The same of the client by now.
fn told(alloc: Global, session: &Session) -> Result<String> {
    match session.broker().told(ORDERS, CLIENT) {
        Ok(told) => heard(alloc, &told),
        Err(refusal) => Err(refusal.into()),
    }
}

/// The client sends a number, whose call makes so many steps.
pub(crate) fn begin(
    rt: &HostRuntime,
    session: &mut Session,
    number: u64,
    call: Call,
    steps: u32,
) -> Result<()> {
    let asked = asked(rt.alloc(), number, &call)?;
    session.begin(CLIENT, ORDERS, Some(number), call)?;
    for _ in 0..steps {
        session.advance(CLIENT, ORDERS)?;
    }
    println!(rt; "  the client sends {asked}: it is under way, and has made {steps} steps")?;
    Ok(())
}

/// Everything stops, and recovers: what the client is told then.
pub(crate) fn restart(rt: &HostRuntime, session: &mut Session) -> Result<()> {
    session.crash()?;
    println!(rt; "  everything stops, and the reply is lost")?;
    for steps in 1..=MOST_STEPS {
        if session.recover_step()? {
            let told = told(rt.alloc(), session)?;
            println!(rt; "  recovery, in {steps} steps, tells the client: {told}")?;
            return Ok(());
        }
    }
    Err(Refusal::NotReady.into())
}

/// How many calls took effect, and how many messages are left.
pub(crate) fn show(rt: &HostRuntime, session: &Session) -> Result<()> {
    let effects = effects(session)?;
    let messages = session.broker().content(ORDERS)?.len();
    println!(rt; "  orders: {effects} calls took effect, {messages} messages are left")?;
    Ok(())
}
