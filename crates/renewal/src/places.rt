//! The words of the places of a queue in fresh records.

ghost use Rattle.std.specs.Prelude.{◌≡◌, ◌≤◌, ◌<◌, [], if◌then◌else◌, length, unwrap_or};
ghost use Rattle.arena.specs.Place.{IsClient, IsPlace};
ghost use Rattle.arena.specs.Words.{item_part};
ghost use Rattle.renewal.specs.Renewal.{told_in};
ghost use Rattle.renewal.specs.Renewed.{
  announced,
  cell,
  entry_kind,
  entry_node,
  is_linked,
  mark,
  message,
  number,
  number_at,
  outcome_record,
  renewed,
  status,
};
ghost use Rattle.renewal.specs.Roles.{IsRole, used_for};
ghost use Rattle.renewal.specs.Words.{AreLinksOf};

use crate::renewal::Renewal;
use crate::role::{Role, role_of};
use crate::told::{has_verdict, number_told, told_node, told_status};
use arena::{DEQUEUE_KIND, EMPTY_CELL, ENQUEUE_KIND, GOT_CELL, Part, Place, item_part};
use words::{Client, MAX_RECORDS, NodeId, Outcome, Reply, Row, Token, Told, Value};

impl Renewal<'_> {
    /// Whether a node with this role is on the chain.
    fn is_linked(&self, role: Role) -> bool
        requires { IsRole self.now.shape role }
        ensures { result ≡ is_linked self.now role }
    {
        match role {
            Role::First(client) => self.has_node(client),
            Role::Item(at) => at < self.content.len(),
            Role::Sentinel | Role::Second(_) => false,
        }
    }

    /// The message of a node with this role, if it has one.
    fn message(&self, role: Role) -> Option<Value>
        requires { IsRole self.now.shape role }
        ensures { unwrap_or result [] ≡ message self.now role }
    {
        match role {
            Role::First(client) => told_node(self.told(client)),
            Role::Item(at) => self.content.get(at).copied(),
            Role::Sentinel | Role::Second(_) => None,
        }
    }

    /// A part of it.
    fn part(&self, role: Role, part: Part) -> u64
        requires { IsRole self.now.shape role }
        ensures { result ≡ item_part (message self.now role) part }
    {
        match self.message(role) {
            Some(item) => item_part(item, part),
            None => 0,
        }
    }

    /// The record that claims a node with this role, or 0.
    fn mark(&self, role: Role) -> u64
        requires { IsRole self.now.shape role }
        ensures { result ≡ mark self.now role }
    {
        match role {
            Role::First(client) if self.has_node(client) => self.second_record(client) as u64,
            _ => 0,
        }
    }

    /// The record that the client announced of a call with this outcome.
    fn outcome_record(&self, client: Client, outcome: Outcome) -> u32
        requires { IsClient self.now.shape client.0 }
        ensures { result ≡ outcome_record self.now.shape client.0 outcome }
    {
        match outcome {
            Outcome::NotTaken => self.second_record(client),
            Outcome::Taken(reply) => match reply {
                Reply::Done => self.first_record(client),
                Reply::Got(_) | Reply::Empty => self.second_record(client),
            },
        }
    }

    /// The record that the client announced, or 0.
    fn announced(&self, client: Client) -> u32
        requires { IsClient self.now.shape client.0 }
        ensures { result ≡ announced self.now.shape client.0 (told_in self.now client.0) }
    {
        match self.told(client) {
            Told::None => 0,
            Told::Verdict(verdict) => self.outcome_record(client, verdict.outcome),
            Told::Row(row) => match row {
                Row::NoCall => 0,
                Row::Open | Row::Empty | Row::Got(_) => self.second_record(client),
            },
        }
    }

    /// How many records the client has used.
    pub(crate) fn used(&self, client: Client) -> u64
        requires { IsClient self.now.shape client.0 }
        ensures value { result ≡ used_for self.now.shape (length self.now.content) client.0 }
        ensures within { result ≤ self.now.shape.records }
        ensures small { result ≤ MAX_RECORDS }
    {
        let clients = self.layout.clients() as usize;
        (2 + (self.content.len() + (clients - 1 - client.0 as usize)) / clients) as u64
    }

    /// The answer of a durable queue's dequeue that has a cell with this role.
    fn cell(&self, role: Role) -> u64
        requires { IsRole self.now.shape role }
        ensures { result ≡ cell self.now role }
    {
        let Role::Second(client) = role else {
            return 0;
        };
        match self.told(client) {
            Told::None | Told::Verdict(_) => 0,
            Told::Row(row) => match row {
                Row::NoCall | Row::Open => 0,
                Row::Empty => EMPTY_CELL,
                Row::Got(_) => self.first_record(client) as u64 + GOT_CELL,
            },
        }
    }

    /// The number of an entry, if this client announced it.
    fn number_at(&self, client: Client, entry: Token) -> u64
        requires { IsClient self.now.shape client.0 }
        ensures { result ≡ number_at self.now client.0 entry.0 }
    {
        if self.announced(client) == entry.0 {
            number_told(self.told(client))
        } else {
            0
        }
    }

    /// The number of an entry.
    fn number(&self, entry: Token, role: Role) -> u64
        requires { IsRole self.now.shape role }
        ensures { result ≡ number self.now entry.0 role }
    {
        match role {
            Role::First(client) | Role::Second(client) => self.number_at(client, entry),
            Role::Sentinel | Role::Item(_) => 0,
        }
    }

    /// The kind of an entry with this role.
    fn entry_kind(&self, role: Role) -> u64
        requires { IsRole self.now.shape role }
        ensures { result ≡ entry_kind self.now role }
    {
        if let Role::Second(client) = role {
            return if has_verdict(self.told(client)) {
                DEQUEUE_KIND
            } else {
                0
            };
        }
        if self.is_linked(role) {
            ENQUEUE_KIND
        } else {
            0
        }
    }

    /// The status of an entry with this role.
    fn status(&self, role: Role) -> u64
        requires { IsRole self.now.shape role }
        ensures { result ≡ status self.now role }
    {
        match role {
            Role::Second(client) => told_status(self.told(client)),
            Role::Sentinel | Role::First(_) | Role::Item(_) => 0,
        }
    }

    /// The node of an entry.
    fn entry_node(&self, entry: Token, role: Role) -> u64
        requires { IsRole self.now.shape role }
        ensures { result ≡ entry_node self.now entry.0 role }
    {
        if let Role::Second(client) = role {
            return if self.has_node(client) {
                self.first_record(client) as u64
            } else {
                0
            };
        }
        if self.is_linked(role) {
            entry.0 as u64
        } else {
            0
        }
    }

    /// The entry that inserts a node with this role, or 0.
    fn insert(&self, node: NodeId, role: Role) -> u64
        requires { IsRole self.now.shape role }
        ensures { result ≡ (if is_linked self.now role then node.0 else 0) }
    {
        if self.is_linked(role) {
            node.0 as u64
        } else {
            0
        }
    }

    /// The word of a place. Of each node `links` says what follows it on the chain.
    pub(crate) fn word_of(&self, links: &[u32], place: Place) -> u64
        requires place { IsPlace self.now.shape place }
        requires links { AreLinksOf self.now links.now }
        ensures { result ≡ renewed self.now place }
    {
        match place {
            Place::Head | Place::Tail => 0,
            Place::Announcement(client) => self.announced(client) as u64,
            Place::Bump(client) => self.used(client),
            Place::Item(node, part) => self.part(role_of(self.layout, node.0), part),
            Place::Next(node) => links[node.0 as usize] as u64,
            Place::Mark(node) => self.mark(role_of(self.layout, node.0)),
            Place::Cell(cell) => self.cell(role_of(self.layout, cell.0)),
            Place::Insert(node) => self.insert(node, role_of(self.layout, node.0)),
            Place::Number(entry) => self.number(entry, role_of(self.layout, entry.0)),
            Place::EntryKind(entry) => self.entry_kind(role_of(self.layout, entry.0)),
            Place::Status(entry) => self.status(role_of(self.layout, entry.0)),
            Place::EntryNode(entry) => self.entry_node(entry, role_of(self.layout, entry.0)),
        }
    }
}
