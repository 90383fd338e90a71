//! The text of a list of queues.

ghost use Rattle.std.specs.Prelude.{◌≡◌, ◌<◌, ◌≤◌, ◌+◌, ◌++◌, length};
ghost use Rattle.arrayvec.specs.ArrayVec.{array_vec_len};
ghost use Rattle.replies.specs.Texts.{queue_text, queues_text};

use crate::limits::MAX_REPLY;
use crate::pieces::{COMMA, put};
use arena::SLOTS;
use arrayvec::ArrayVec;
use directory::Queue;
use words::Kind;

/// The most bytes of a queue's text: `{"kind":"durable","queue":"0123456789abcdef"}`.
const MAX_QUEUE: usize = 45;

pub(crate) fn put_queues<const N: usize>(out: &mut ArrayVec<u8, N>, places: &[Option<Queue>])
    requires slots { length places.now ≤ SLOTS }
    requires room { array_vec_len out.old + MAX_REPLY ≤ N }
    ensures text { out.new.items ≡ out.old.items ++ queues_text places.now }
    ensures short { array_vec_len out.new < array_vec_len out.old + MAX_REPLY }
{
    put(out, br#"{"queues":["#);
    let mut is_first = true;
    for place in places {
        if let Some(queue) = place {
            if !is_first {
                out.push(COMMA);
            }
            put_queue(out, queue);
            is_first = false;
        }
    }
    put(out, b"]}");
}

#[tactic(auto, using(directory::proofs::Facts::short_of))]
fn put_queue<const N: usize>(out: &mut ArrayVec<u8, N>, queue: &Queue)
    requires { array_vec_len out.old + MAX_QUEUE ≤ N }
    ensures text { out.new.items ≡ out.old.items ++ queue_text queue.now }
    ensures short { array_vec_len out.new ≤ array_vec_len out.old + MAX_QUEUE }
{
    match queue.kind {
        Kind::Durable => put(out, br#"{"kind":"durable","queue":""#),
        Kind::Log => put(out, br#"{"kind":"log","queue":""#),
    }
    put(out, queue.name.as_bytes());
    put(out, br#""}"#);
}
