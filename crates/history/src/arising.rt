//! Whether a history may arise, by a pass for each client.

ghost use Rattle.std.specs.Prelude.{◌<◌, ◌+◌, ◌↔◌, length, IsTrue, All};
ghost use Rattle.words.specs.declared.call.Client.{Client};
ghost use Rattle.events.specs.declared.event.Event.{Event};
ghost use Rattle.events.specs.History.{IsDown, IsUnderWay, IsHistory};
ghost use Rattle.history.specs.Sweeps.{EachEvent, HasClient, StandsUp, StandsInTurn, IsInTurn};

use crate::places::has_one_kind;
use events::{Event, Events};
use words::Client;

/// Whether a Call or a Return is of a client from 0 to 15.
fn has_client(event: &Event) -> bool
    ensures { IsTrue result ↔ HasClient event.now }
{
    match event {
        Event::Call { client, .. } => client.0 < 16,
        Event::Return { client, .. } => client.0 < 16,
        _ => true,
    }
}

/// Whether so it is of each event.
fn has_clients(events: &Events) -> bool
    ensures { IsTrue result ↔ All (λ event. HasClient event) events.now.items }
{
    for p in 0..events.len() {
        if !has_client(&events.at(p)) {
            return false;
        }
    }
    true
}

/// Whether the place after `p` lies between a Crash and the next Ready, where it is known of `p`.
fn down_after(events: &Events, p: usize, down: bool) -> bool
    requires within { p < length events.now.items }
    requires down { IsTrue down ↔ IsDown events.now.items p }
    ensures { IsTrue result ↔ IsDown events.now.items (p + 1) }
{
    match events.at(p) {
        Event::Crash => true,
        Event::Ready { .. } => false,
        _ => down,
    }
}

/// Whether a Call or a Return does not stand in between.
fn stands_up(events: &Events, p: usize, event: &Event, down: bool) -> bool
    requires { IsTrue down ↔ IsDown events.now.items p }
    ensures { IsTrue result ↔ StandsUp events.now.items p event.now }
{
    match event {
        Event::Call { .. } => !down,
        Event::Return { .. } => !down,
        _ => true,
    }
}

/// Whether so it is of each event.
fn all_stand_up(events: &Events) -> bool
    ensures { IsTrue result ↔ EachEvent events.now.items (StandsUp events.now.items) }
{
    let mut down = false;
    for p in 0..events.len() {
        if !stands_up(events, p, &events.at(p), down) {
            return false;
        }
        down = down_after(events, p, down);
    }
    true
}

/// Whether the client has a call without an end before the place after `p`, where it is known of `p`.
fn open_after(events: &Events, client: Client, p: usize, busy: bool) -> bool
    requires within { p < length events.now.items }
    requires busy { IsTrue busy ↔ IsUnderWay events.now.items client p }
    ensures { IsTrue result ↔ IsUnderWay events.now.items client (p + 1) }
{
    match events.at(p) {
        Event::Call { client: other, .. } => busy || other == client,
        Event::Return { client: other, .. } => busy && other != client,
        Event::Crash => false,
        Event::Ready { .. } => busy,
    }
}

/// Whether a Call of the client stands only while it has no call without an end, a Return only while it has one.
fn stands_in_turn(events: &Events, client: Client, p: usize, event: &Event, busy: bool) -> bool
    requires { IsTrue busy ↔ IsUnderWay events.now.items client p }
    ensures { IsTrue result ↔ StandsInTurn events.now.items client p event.now }
{
    match event {
        Event::Call { client: other, .. } => *other != client || !busy,
        Event::Return { client: other, .. } => *other != client || busy,
        _ => true,
    }
}

/// Whether so it is of each event.
fn is_in_turn(events: &Events, client: Client) -> bool
    ensures { IsTrue result ↔ IsInTurn events.now.items client }
{
    let mut busy = false;
    for p in 0..events.len() {
        if !stands_in_turn(events, client, p, &events.at(p), busy) {
            return false;
        }
        busy = open_after(events, client, p, busy);
    }
    true
}

/// Whether so it is of each client from 0 to 15.
fn all_in_turn(events: &Events) -> bool
    ensures { IsTrue result ↔ ((client : Client) → client.0 < 16 → IsInTurn events.now.items client) }
{
    for t in 0..16u8 {
        if !is_in_turn(events, Client(t)) {
            return false;
        }
    }
    true
}

/// Whether the history may arise.
pub(crate) fn arises(events: &Events) -> bool
    ensures { IsTrue result ↔ IsHistory events.now.items }
{
    if !has_clients(events) {
        return false;
    }
    if !all_stand_up(events) {
        return false;
    }
    if !all_in_turn(events) {
        return false;
    }
    has_one_kind(events)
}
