//! The text of an answer, and its line.

ghost use Rattle.std.specs.Prelude.{◌≡◌, ◌<◌, ◌≤◌, ◌+◌, ◌++◌};
ghost use Rattle.arrayvec.specs.ArrayVec.{array_vec_len};
ghost use Rattle.replies.specs.Texts.{answer_text, answer_line, refusal_text};

use crate::limits::{MAX_REPLY, MAX_SHORT};
use crate::pieces::{NEWLINE, put, put_around};
use crate::queues::put_queues;
use crate::told::{put_reply, put_told};
use arrayvec::ArrayVec;
use wire::Answer;
use words::Refusal;

/// A row that holds any reply.
pub type Text = ArrayVec<u8, MAX_REPLY>;

/// The text of an answer. Its newline fits behind it.
pub fn text_of(answer: &Answer) -> Text
    ensures text { result.items ≡ answer_text answer.now }
    ensures short { array_vec_len result < MAX_REPLY }
{
    let mut text = Text::new();
    put_answer(&mut text, answer);
    text
}

/// The text of a refusal, as of a line that is no request. Its newline fits behind it.
pub fn refusal_text(refusal: Refusal) -> Text
    ensures text { result.items ≡ refusal_text refusal }
    ensures short { array_vec_len result < MAX_REPLY }
{
    let mut text = Text::new();
    put_refusal(&mut text, refusal);
    text
}

/// Appends the text of an answer and its newline. The fault of a line is answered `Refused`.
pub fn append_line<const N: usize>(out: &mut ArrayVec<u8, N>, answer: &Answer)
    requires { array_vec_len out.old + MAX_REPLY ≤ N }
    ensures line { out.new.items ≡ out.old.items ++ answer_line answer.now }
    ensures short { array_vec_len out.new ≤ array_vec_len out.old + MAX_REPLY }
{
    put_answer(out, answer);
    out.push(NEWLINE);
}

fn put_answer<const N: usize>(out: &mut ArrayVec<u8, N>, answer: &Answer)
    requires { array_vec_len out.old + MAX_REPLY ≤ N }
    ensures text { out.new.items ≡ out.old.items ++ answer_text answer.now }
    ensures short { array_vec_len out.new < array_vec_len out.old + MAX_REPLY }
{
    match answer {
        Answer::Created(slot) => put_around(
            out,
            br#"{"reply":"created","slot":"#,
            u64::from(slot.0),
            b"}",
        ),
        Answer::Queues(places) => put_queues(out, places),
        Answer::Reply(reply) => put_reply(out, *reply),
        Answer::Interrupted => put(out, br#"{"reply":"interrupted"}"#),
        Answer::Unfinished => put(out, br#"{"reply":"unfinished"}"#),
        Answer::Told(told) => put_told(out, *told),
        Answer::Crashed => put(out, br#"{"reply":"crashed"}"#),
        Answer::Ready => put(out, br#"{"reply":"ready"}"#),
        Answer::Stopping => put(out, br#"{"reply":"stopping"}"#),
        Answer::Refused(refusal) => put_refusal(out, *refusal),
    }
}

fn put_refusal<const N: usize>(out: &mut ArrayVec<u8, N>, refusal: Refusal)
    requires { array_vec_len out.old + MAX_SHORT ≤ N }
    ensures text { out.new.items ≡ out.old.items ++ refusal_text refusal }
    ensures short { array_vec_len out.new ≤ array_vec_len out.old + MAX_SHORT }
{
    put_around(
        out,
        br#"{"error":"#,
        u64::from(refusal.code()),
        br#","name":""#,
    );
    put(out, refusal.name().as_bytes());
    put(out, br#""}"#);
}
