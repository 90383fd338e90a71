//! What a queue is to hold and to tell in fresh records, and which record is for what.

ghost use Rattle.std.specs.Prelude.{◌≡◌, ◌≤◌, ◌<◌, length};
ghost use Rattle.arena.specs.Place.{IsClient};
ghost use Rattle.arena.specs.Shape.{greatest};
ghost use Rattle.renewal.specs.Renewal.{told_in};
ghost use Rattle.renewal.specs.Renewed.{has_node};
ghost use Rattle.renewal.specs.Roles.{first_record, item_record, second_record};
ghost use Rattle.renewal.specs.Words.{MayBeRenewed};

use crate::told::told_node;
use arena::Layout;
use std::marker::Model;
use words::{Client, MAX_RECORD_NUMBER, Reports, Told, Value};

/// What a queue of this layout is to hold, and to tell its clients, in fresh records.
#[derive(Drop)]
pub(crate) struct Renewal<'a> {
    pub layout: &'a Layout,
    pub content: &'a [Value],
    pub tells: &'a Reports,
}

impl<'a> Model for Renewal<'a> {
    ghost use Rattle.renewal.specs.Renewal.{Renewal};
    ghost use Rattle.renewal.specs.Words.{MayBeRenewed};

    ghost Value = { Renewal };

    ghost view = { λ r. record {
      shape = r.layout.now;
      content = r.content.now;
      tells = r.tells.now;
    } };

    ghost invariant = { λ r. MayBeRenewed (record {
      shape = r.layout.now;
      content = r.content.now;
      tells = r.tells.now;
    }) };
}

impl Renewal<'_> {
    /// The greatest number of a node.
    pub(crate) fn greatest(&self) -> usize
        ensures value { result ≡ greatest self.now.shape }
        ensures small { result ≤ MAX_RECORD_NUMBER }
        ensures may { MayBeRenewed self.now }
    {
        self.layout.clients() as usize * self.layout.records() as usize
    }

    /// What the client is to be told.
    pub(crate) fn told(&self, client: Client) -> Told
        requires { IsClient self.now.shape client.0 }
        ensures { result ≡ told_in self.now client.0 }
    {
        self.tells[client.0 as usize]
    }

    /// The client's first record.
    pub(crate) fn first_record(&self, client: Client) -> u32
        requires { IsClient self.now.shape client.0 }
        ensures record { result ≡ first_record self.now.shape client.0 }
        ensures few { result ≤ MAX_RECORD_NUMBER }
    {
        1 + client.0 as u32 * self.layout.records()
    }

    /// The client's second record.
    pub(crate) fn second_record(&self, client: Client) -> u32
        requires { IsClient self.now.shape client.0 }
        ensures { result ≡ second_record self.now.shape client.0 }
    {
        self.first_record(client) + 1
    }

    /// The record of the item at this place.
    pub(crate) fn item_record(&self, at: usize) -> u32
        requires { at < length self.now.content }
        ensures { result ≡ item_record self.now.shape at }
    {
        let clients = self.layout.clients() as usize;
        let records = self.layout.records() as usize;
        (1 + at % clients * records + (2 + at / clients)) as u32
    }

    /// Whether a node stands for the call that the client was told of.
    pub(crate) fn has_node(&self, client: Client) -> bool
        requires { IsClient self.now.shape client.0 }
        ensures { result ≡ has_node self.now client.0 }
    {
        told_node(self.told(client)).is_some()
    }
}
