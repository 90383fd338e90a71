//! What kept words tell each client, without recovery.

ghost use Rattle.std.specs.Prelude.{◌≡◌, ℕ, Bool, false, slice_index, slice_index_or};
ghost use Rattle.arena.specs.Place.{IsClient, IsNode, IsRecord};
ghost use Rattle.arena.specs.Words.{values};
ghost use Rattle.arena.specs.declared.form.Form.TheVariants.{OfItems};
ghost use Rattle.words.specs.declared.call.Kind.TheVariants.{Durable, Log};
ghost use Rattle.sound_words.specs.Kept.{kept_in, kept_of};
ghost use Rattle.sound_words.specs.Sound.{IsSound, AreSoundWords};
ghost use Rattle.sound_words.specs.Seen.{IsSeen, IsSeenOf, AreSeen, IsNodeNoted, IsClaimNoted};
ghost use Rattle.sound_words.specs.Told.{row_by, outcome_by, told_by, tells_by};

use crate::kept::KeptQueue;
use arena::{EMPTY_CELL, EMPTY_STATUS, ENQUEUE_KIND, Layout, Place, value_of};
use persist::KeptWords;
use words::{
    Client, Kind, MAX_CLIENTS, NodeId, Outcome, Reply, Reports, Row, Token, Told, Value, Verdict,
};

impl<W: KeptWords> KeptQueue<'_, W> {
    /// Notes the node for the client that announced its record last, if one did.
    fn note_node(&self, node: u32, on_chain: &mut [bool; MAX_CLIENTS])
        requires sound { IsSound self.now.shape (kept_of self.now) }
        requires node { IsRecord self.now.shape node }
        ensures { IsNodeNoted self.now.shape (kept_of self.now) node on_chain.old on_chain.new }
    {
        let owner = (node - 1) / self.records();
        let announced = self.kept_at(Place::Announcement(Client(owner as u8)));
        if announced == node as u64 {
            on_chain[owner as usize] = true;
        }
    }

    /// Notes the node for the client whose last announced record claims it, if there is one.
    fn note_claim(&self, node: u32, claimed: &mut [u32; MAX_CLIENTS])
        requires sound { IsSound self.now.shape (kept_of self.now) }
        requires node { IsRecord self.now.shape node }
        ensures { IsClaimNoted self.now.shape (kept_of self.now) node claimed.old claimed.new }
    {
        let mark = self.kept_at(Place::Mark(NodeId(node)));
        if mark == 0 {
            return;
        }
        let owner = (mark - 1) / self.records() as u64;
        let announced = self.kept_at(Place::Announcement(Client(owner as u8)));
        if announced == mark {
            claimed[owner as usize] = node;
        }
    }

    /// Walks the chain once, and notes for each client whether the record that it announced last is a node there, and
    /// which node that record claims, or 0.
    fn look(&self, on_chain: &mut [bool; MAX_CLIENTS], claimed: &mut [u32; MAX_CLIENTS])
        requires sound { IsSound self.now.shape (kept_of self.now) }
        requires no_node { (t : ℕ) → slice_index_or on_chain.old t false ≡ false }
        requires no_claim { (t : ℕ) → slice_index claimed.old t ≡ 0 }
        ensures { AreSeen self.now.shape (kept_of self.now) on_chain.new claimed.new }
    {
        let mut node = 0u32;
        let greatest = self.clients() * self.records();
        for _ in 0..greatest {
            let next = self.kept_at(Place::Next(NodeId(node)));
            if next == 0 {
                return;
            }
            node = next as u32;
            self.note_node(node, on_chain);
            self.note_claim(node, claimed);
        }
    }

    /// The message of a node.
    fn kept_value(&self, node: NodeId) -> Value
        requires items { self.now.form ≡ OfItems }
        requires node { IsNode self.now.shape node.0 }
        ensures { result ≡ values (kept_of self.now) node.0 }
    {
        value_of(self.kept_parts(node))
    }

    /// What the durable queue's client is told whose dequeue has this cell.
    fn row(&self, cell: Token, claimed: u32) -> Row
        requires items { self.now.form ≡ OfItems }
        requires sound { IsSound self.now.shape (kept_of self.now) }
        requires durable { self.now.shape.kind ≡ Durable }
        requires cell { IsRecord self.now.shape cell.0 }
        requires seen { (on_chain : Bool) × IsSeen self.now.shape (kept_of self.now) cell.0 on_chain claimed }
        ensures { result ≡ row_by self.now.shape (kept_of self.now) cell.0 }
    {
        if claimed != 0 {
            return Row::Got(self.kept_value(NodeId(claimed)));
        }
        if self.kept_at(Place::Cell(cell)) == EMPTY_CELL {
            Row::Empty
        } else {
            Row::Open
        }
    }

    /// What became of the log queue's call that has this entry.
    fn outcome(&self, entry: Token, on_chain: bool, claimed: u32) -> Outcome
        requires items { self.now.form ≡ OfItems }
        requires sound { IsSound self.now.shape (kept_of self.now) }
        requires log { self.now.shape.kind ≡ Log }
        requires entry { IsRecord self.now.shape entry.0 }
        requires seen { IsSeen self.now.shape (kept_of self.now) entry.0 on_chain claimed }
        ensures { result ≡ outcome_by self.now.shape (kept_of self.now) entry.0 }
    {
        if self.kept_at(Place::EntryKind(entry)) == ENQUEUE_KIND {
            return if on_chain {
                Outcome::Taken(Reply::Done)
            } else {
                Outcome::NotTaken
            };
        }
        if self.kept_at(Place::Status(entry)) == EMPTY_STATUS {
            return Outcome::Taken(Reply::Empty);
        }
        if claimed == 0 {
            return Outcome::NotTaken;
        }
        Outcome::Taken(Reply::Got(self.kept_value(NodeId(claimed))))
    }

    /// What the client is told.
    fn told_of(&self, client: Client, on_chain: bool, claimed: u32) -> Told
        requires items { self.now.form ≡ OfItems }
        requires sound { IsSound self.now.shape (kept_of self.now) }
        requires client { IsClient self.now.shape client.0 }
        requires seen { IsSeenOf self.now.shape (kept_of self.now) client.0 on_chain claimed }
        ensures { result ≡ told_by self.now.shape (kept_of self.now) client.0 }
    {
        let announced = self.kept_at(Place::Announcement(client));
        let token = Token(announced as u32);
        match (self.kind(), token.0) {
            (Kind::Durable, 0) => Told::Row(Row::NoCall),
            (Kind::Log, 0) => Told::None,
            (Kind::Durable, _) => Told::Row(self.row(token, claimed)),
            (Kind::Log, _) => Told::Verdict(Verdict {
                number: self.kept_at(Place::Number(token)),
                outcome: self.outcome(token, on_chain, claimed),
            }),
        }
    }

    /// What each client is told.
    fn reports(&self) -> Reports
        requires items { self.now.form ≡ OfItems }
        requires sound { IsSound self.now.shape (kept_of self.now) }
        ensures { result ≡ tells_by self.now.shape (kept_of self.now) }
    {
        let mut on_chain = [false; MAX_CLIENTS];
        let mut claimed = [0u32; MAX_CLIENTS];
        self.look(&mut on_chain, &mut claimed);
        let mut tells = [Told::None; MAX_CLIENTS];
        for t in 0..self.clients() {
            let client = Client(t as u8);
            tells[t as usize] = self.told_of(client, on_chain[t as usize], claimed[t as usize]);
        }
        tells
    }
}

/// What kept words tell each client, as recovery would. It walks the chain once for all clients, so its cost is
/// linear in the chain and the clients; it takes no memory but for two short rows on the stack.
pub fn tells<W: KeptWords>(layout: &Layout, words: &W) -> Reports
    requires { AreSoundWords layout.now (W.kept_words words.now) }
    ensures { result ≡ tells_by layout.now (kept_in layout.now (W.kept_words words.now)) }
{
    KeptQueue::new(layout, words).reports()
}
