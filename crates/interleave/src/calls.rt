//! Calls under way.

ghost use Rattle.std.specs.Prelude.{◌≡◌, ◌<◌, ◌≤◌, ◌+◌, ◌*◌, replicate, length, slice_get, slice_index_or, slice_set, IfErr, IfOk, Err, None, Ok, Some};
ghost use Rattle.std.specs.Option.{option_copied};
ghost use Rattle.stepper.specs.declared.resume.After.TheVariants.{More};
ghost use Rattle.interleave.specs.Calls.{idle_result, waiting_result, GoesOnTo};
ghost use Rattle.interleave.specs.Rotation.{some_client_calls};

use helping::Op;
use protocol::UnderWay;
use std::marker::Model;
use words::{Client, MAX_CLIENTS, MAX_RECORDS, Refusal, Token};

/// The call that each client has under way, if it has one. It lies in place, so that no queue takes memory for it.
/// Contracts see a list with a place for each client.
#[derive(Drop)]
pub(crate) struct Calls {
    places: [Option<UnderWay>; MAX_CLIENTS],
    clients: usize,
}

impl Model for Calls {
    ghost use Rattle.std.specs.Prelude.{◌≤◌, List, Option, length, take};
    ghost use Rattle.protocol.specs.declared.UnderWay.{UnderWay};
    ghost use Rattle.words.specs.declared.limits.TheConstants.{MAX_CLIENTS};

    ghost Value = { List (Option UnderWay) };

    ghost view = { λ c. take c.clients c.places };

    ghost invariant = { λ c. (c.clients ≤ MAX_CLIENTS) × (c.clients ≤ length c.places) };
}

/// No call is under way at any of the places.
fn clear(places: &mut [Option<UnderWay>])
    ensures { places.new ≡ replicate (length places.old) None }
{
    places.fill(None);
}

/// The client's call goes on to this point, where it stands.
fn go_on(places: &mut [Option<UnderWay>], client: Client, op: &Op)
    requires { client.0 < length places.old }
    ensures { GoesOnTo client (More op.now) places.old places.new }
{
    if let Some(under_way) = &mut places[client.0 as usize] {
        under_way.op = *op;
    }
}

impl Calls {
    /// No call under way, for any of so many clients.
    pub(crate) fn none(clients: u32) -> Self
        requires { clients ≤ MAX_CLIENTS }
        ensures { result ≡ replicate clients None }
    {
        Calls {
            places: [None; MAX_CLIENTS],
            clients: clients as usize,
        }
    }

    /// The client's place, if there is such a client. A call is looked at where it stands, and not copied.
    fn place(&self, client: usize) -> Option<&Option<UnderWay>>
        ensures { option_copied result ≡ slice_get self.now client }
    {
        self.places[..self.clients].get(client)
    }

    /// The client's call, if there is such a client and it has one.
    pub(crate) fn under_way(&self, client: usize) -> Option<&UnderWay>
        ensures { option_copied result ≡ slice_index_or self.now client None }
    {
        match self.place(client) {
            Some(call) => call.as_ref(),
            None => None,
        }
    }

    /// Whether any client has a call under way.
    pub(crate) fn are_some(&self) -> bool
        ensures { result ≡ some_client_calls self.now }
    {
        self.places[..self.clients]
            .iter()
            .any(|call| call.is_some())
    }

    /// A client that is there begins a call.
    pub(crate) fn begin(&mut self, client: Client, call: UnderWay)
        requires { client.0 < length self.old }
        ensures { self.new ≡ slice_set self.old client.0 (Some call) }
    {
        self.places[client.0 as usize] = Some(call);
    }

    /// The call of a client that has one goes on to this point. It is written in place.
    pub(crate) fn go_on(&mut self, client: Client, op: &Op)
        requires { client.0 < length self.old }
        ensures { GoesOnTo client (More op.now) self.old self.new }
    {
        go_on(&mut self.places, client, op);
    }

    /// The call of a client ends.
    pub(crate) fn end(&mut self, client: Client)
        requires { client.0 < length self.old }
        ensures { self.new ≡ slice_set self.old client.0 None }
    {
        self.places[client.0 as usize] = None;
    }

    /// Every call ends, as in a crash.
    pub(crate) fn end_all(&mut self)
        ensures { self.new ≡ replicate (length self.old) None }
    {
        clear(&mut self.places);
    }

    /// Whether a client may start a call: it is there, recovery is not under way, and neither is a call of the
    /// client's.
    pub(crate) fn check_idle(&self, down: bool, client: Client) -> Result<(), Refusal>
        ensures { result ≡ idle_result down (slice_get self.now client.0) }
    {
        match self.place(client.0 as usize) {
            None => Err(Refusal::NoClient),
            Some(_) if down => Err(Refusal::NotReady),
            Some(None) => Ok(()),
            Some(Some(_)) => Err(Refusal::Busy),
        }
    }

    /// The call that a client has under way.
    pub(crate) fn waiting(&self, down: bool, client: Client) -> Result<&UnderWay, Refusal>
        ensures ok { IfOk result (λ call. waiting_result down (slice_get self.now client.0) ≡ Ok call.now) }
        ensures errors { IfErr result (λ e. waiting_result down (slice_get self.now client.0) ≡ Err e) }
    {
        match self.place(client.0 as usize) {
            None => Err(Refusal::NoClient),
            Some(_) if down => Err(Refusal::NotReady),
            Some(None) => Err(Refusal::Idle),
            Some(Some(under_way)) => Ok(under_way),
        }
    }
}

/// The number of a client's record.
#[tactic(auto, using(crate::proofs::words::RecordNumbers::record_in_range))]
pub(crate) fn record_number(clients: u32, records: u32, client: Client, used: u32) -> Token
    requires client { client.0 < clients }
    requires clients { clients ≤ MAX_CLIENTS }
    requires records { records ≤ MAX_RECORDS }
    requires used { used < records }
    ensures number { result.0 ≡ 1 + client.0 * records + used }
    ensures few { result.0 ≤ clients * records }
{
    Token(1 + client.0 as u32 * records + used)
}
