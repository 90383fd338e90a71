//! What is kept of each client in each queue.

ghost use Rattle.std.specs.Prelude.{◌≡◌, ◌<◌, ℕ, Ok, Some, None, length};
ghost use Rattle.named.specs.Promises.{KeepsPromises};
ghost use Rattle.session.specs.Answering.{IsHeardNow};
ghost use Rattle.session.specs.Keeping.{verdict_heard, AreKeptAsHeard, IsKeptNow, IsRowHeard};
ghost use Rattle.session.specs.Sessions.{kept_in};

use arena::{SLOTS, SlotId};
use named::Broker;
use std::array;
use std::marker::Model;
use words::{Client, MAX_CLIENTS, Outcome, Refusal, Reply, Told, Verdict};

/// The last verdict of each client in each slot. The places are fixed, so that no request takes memory for them.
#[derive(Drop)]
pub(crate) struct Kept {
    rows: [[Option<Verdict>; MAX_CLIENTS]; SLOTS],
}

impl Model for Kept {
    ghost use Rattle.std.specs.Prelude.{◌≡◌, ◌<◌, ℕ, length, slice_index_or, List, [], Option};
    ghost use Rattle.words.specs.declared.limits.TheConstants.{MAX_CLIENTS};
    ghost use Rattle.words.specs.declared.told.Verdict.{Verdict};
    ghost use Rattle.arena.specs.declared.broker.TheConstants.{SLOTS};

    ghost Value = { List (List (Option Verdict)) };

    ghost view = { λ k. k.rows };

    ghost invariant = { λ k. (slot : ℕ) → slot < SLOTS → length (slice_index_or k.rows slot []) ≡ MAX_CLIENTS };
}

/// The verdict, if that is what a client was told.
fn verdict_of(told: Result<Told, Refusal>) -> Option<Verdict>
    ensures { result ≡ verdict_heard told }
{
    match told {
        Ok(Told::Verdict(verdict)) => Some(verdict),
        Ok(Told::None | Told::Row(_)) | Err(_) => None,
    }
}

/// What each client is told in the queue of a slot.
fn row_told(broker: &Broker, slot: SlotId) -> [Option<Verdict>; MAX_CLIENTS]
    ensures told { IsRowHeard broker.now slot.0 result }
    ensures len { length result ≡ MAX_CLIENTS }
    ensures promises { KeepsPromises broker.now }
{
    let mut row = [None; MAX_CLIENTS];
    for client in 0..MAX_CLIENTS {
        row[client] = verdict_of(broker.told(slot, Client(client as u8)));
    }
    row
}

impl Kept {
    /// What each client is told in each queue of a broker: nothing, while it recovers.
    pub(crate) fn told(broker: &Broker) -> Self
        ensures heard { AreKeptAsHeard broker.now result }
        ensures promises { KeepsPromises broker.now }
    {
        let mut rows = array::from_fn(|_| [None; MAX_CLIENTS]);
        for slot in 0..SLOTS {
            rows[slot] = row_told(broker, SlotId(slot as u8));
        }
        Kept { rows }
    }

    /// What is kept of a client in a slot; nothing, where there is no such place.
    pub(crate) fn last(&self, slot: SlotId, client: Client) -> Option<Verdict>
        ensures { result ≡ kept_in self.now slot.0 client.0 }
    {
        match self.rows.get(slot.0 as usize) {
            Some(row) => match row.get(client.0 as usize) {
                Some(last) => *last,
                None => None,
            },
            None => None,
        }
    }

    /// Keeps a client's last verdict in a slot.
    fn keep(&mut self, slot: SlotId, client: Client, verdict: Verdict)
        requires slot { slot.0 < SLOTS }
        requires client { client.0 < MAX_CLIENTS }
        ensures { IsKeptNow self.old self.new slot.0 client.0 (Some verdict) }
    {
        self.rows[slot.0 as usize][client.0 as usize] = Some(verdict);
    }

    /// What a client's call answered, if it did: with a number it is the client's last verdict.
    pub(crate) fn hear(
        &mut self,
        slot: SlotId,
        client: Client,
        number: Option<u64>,
        answer: &Option<Reply>,
    )
        requires slot { slot.0 < SLOTS }
        requires client { client.0 < MAX_CLIENTS }
        ensures { IsHeardNow self.old self.new slot.0 client.0 number (Ok answer.now) }
    {
        let Some(number) = number else {
            return;
        };
        if let Some(reply) = answer {
            let outcome = Outcome::Taken(*reply);
            self.keep(slot, client, Verdict { number, outcome });
        }
    }
}
