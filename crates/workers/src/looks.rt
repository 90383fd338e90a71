//! What threads see of the queues.

ghost use Rattle.std.specs.Prelude.{◌≡◌, IfErr, IfOk};
ghost use Rattle.workers.specs.Looking.{IsFoundOf, IsListedOf};
ghost use Rattle.workers.specs.Moments.{GoesOnLater};
ghost use Rattle.workers.specs.Refusals.{IsWhyNotTold, IsWhyNoUsage};
ghost use Rattle.workers.specs.Seen.{IsListing, IsTelling};
ghost use Rattle.workers.specs.Usage.{HasItemsOf, IsUsageOf};

use crate::locked::Locked;
use crate::marks::Marked;
use crate::naming::Naming;
use arena::{SLOTS, SlotId};
use directory::{Name, Places};
use words::{Client, Refusal, Told};

/// What a queue holds, and how many records it has for that.
#[derive(Clone, Copy)]
pub struct Usage {
    /// How many items it holds.
    pub items: usize,
    /// How many clients it has.
    pub clients: u32,
    /// How many records each of them has, used and free.
    pub records: u32,
}

/// The same places.
fn copy_of(places: &Places) -> Places
    ensures { result ≡ places.now }
{
    let mut copied: Places = [None; SLOTS];
    for slot in 0..SLOTS {
        copied[slot] = places[slot];
    }
    copied
}

impl<J: Naming> Locked<J> {
    /// The slot with the queue of this name, if there is one.
    pub(crate) fn find(&self, name: &Name) -> Result<Option<SlotId>, Refusal>
        ensures found { IfOk result (IsFoundOf J.first.broker.directory name.now) }
        ensures errors { IfErr result (λ refusal. refusal ≡ Refusal.NotReady) }
    {
        let _ = &self.session;
        self.session.broker().find(name)
    }

    /// What each slot has: a copy.
    fn places(&self) -> Result<Places, Refusal>
        ensures listing { IsListing self.now.session.broker result }
        ensures queues { IfOk result (IsListedOf J.first.broker.directory) }
    {
        let _ = &self.session;
        Ok(copy_of(self.session.broker().list()?))
    }

    /// That, and a mark of the session, in the place of an earlier one.
    pub(crate) fn list(&mut self, before: Marked<J>) -> (Marked<J>, Result<Places, Refusal>)
        ensures listing { IsListing result.0.broker result.1 }
        ensures queues { IfOk result.1 (IsListedOf J.first.broker.directory) }
        ensures later { GoesOnLater before result.0 }
    {
        let places = self.places();
        (self.mark_after(before), places)
    }

    /// What the client was last told in the queue of a name.
    fn last_told(&self, client: Client, name: &Name) -> Result<Told, Refusal>
        ensures telling { IsTelling self.now.session.broker client name.now result }
        ensures errors { IfErr result (IsWhyNotTold J.clients J.first name.now client) }
    {
        let _ = &self.session;
        let queue = self.session.broker().slot_of(name)?;
        self.session.broker().told(queue, client)
    }

    /// That, and a mark of the session, in the place of an earlier one.
    pub(crate) fn told(
        &mut self,
        client: Client,
        name: &Name,
        before: Marked<J>,
    ) -> (Marked<J>, Result<Told, Refusal>)
        ensures telling { IsTelling result.0.broker client name.now result.1 }
        ensures errors { IfErr result.1 (IsWhyNotTold J.clients J.first name.now client) }
        ensures later { GoesOnLater before result.0 }
    {
        let told = self.last_told(client, name);
        (self.mark_after(before), told)
    }

    /// What the queue of a slot holds.
    fn held(&self, slot: SlotId) -> Result<Usage, Refusal>
        ensures items { IfOk result (HasItemsOf self.now.session slot.0) }
        ensures counts { IfOk result (IsUsageOf J.clients J.first) }
        ensures errors { IfErr result (IsWhyNoUsage J.first slot) }
    {
        let _ = &self.session;
        let items = self.session.broker().content(slot)?.len();
        Ok(Usage {
            items,
            clients: self.session.broker().clients(),
            records: self.session.broker().records(),
        })
    }

    /// That, and a mark of the session, in the place of an earlier one.
    pub(crate) fn usage(
        &mut self,
        slot: SlotId,
        before: Marked<J>,
    ) -> (Marked<J>, Result<Usage, Refusal>)
        ensures items { IfOk result.1 (HasItemsOf result.0 slot.0) }
        ensures counts { IfOk result.1 (IsUsageOf J.clients J.first) }
        ensures errors { IfErr result.1 (IsWhyNoUsage J.first slot) }
        ensures later { GoesOnLater before result.0 }
    {
        let held = self.held(slot);
        (self.mark_after(before), held)
    }
}
