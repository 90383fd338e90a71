//! What help says below the options of a command.

/// What help says of scripts.
const SCRIPTS: &str = "\
A script names a queue and then acts on it, a line for each act. An empty line, and one that begins with #, says
nothing. This one has a client call, stops everything before the call's effect is kept, and recovers:

  queue log 1 2    a log queue of 1 client, who can begin 2 calls
  enq 0 1 09       client 0 calls: to enqueue the byte 9, as its call number 1
  step 0 34        the call goes on by 34 steps, and has then linked its node
  crash            the whole system stops, and what is not kept is lost
  recover          recovery goes on to its end, and client 0 is told that its call was not taken
  content          prints what the queue holds: nothing

The other lines: queue durable T K, deq C N, end C, evict W, recover M, order; on a durable queue enq C V and deq C.
V is two lowercase hexadecimal digits for each of at most 24 bytes, and . for none.
docs/SCRIPT.md has all of them, and every line that is printed.";

/// What help says of scripts of a whole broker.
const BROKERS: &str = "\
A script names a broker and then acts on it and on its queues, a line for each act. An empty line, and one that begins
with #, says nothing. In this one the creation of a queue is cut off when its name is kept, but not its gate:

  broker 2 4         a broker whose queues have 2 clients, who can begin 4 calls each
  create a log       a log queue of the name a is created, in 12 steps
  create b log 9     the creation of b begins, and makes 9 steps
  a: enq 0 1 09      client 0 of a calls: to enqueue the byte 9, as its call number 1
  a: end 0           that call goes on alone until it is answered
  crash              the whole system stops, and what is not kept is lost
  recover            recovery goes on to its end, and each client of each queue is told of its last call
  list               prints the queues: a alone

The other lines: create-step, create-step M, find NAME, rotate, renew NAME, evict W, recover M, image, set W N, boot,
NAME: told C; NAME: request C N CALL, NAME: plain C CALL and NAME: begin C N CALL, which ask the session, where CALL is
enq V or deq; and NAME: before each line of a queue's script that is about the queue.
docs/SCRIPT.md has all of them, and every line that is printed.";

/// What help says of recordings.
const RECORDINGS: &str = "\
A recording has a JSON object in each line, of what clients called, what they were answered, and crashes:

  {\"client\":\"a\",\"op\":\"put\",\"value\":5}     written before the call is made
  {\"client\":\"a\",\"reply\":\"done\"}            written after the answer came
  {\"client\":\"b\",\"op\":\"take\"}
  {\"client\":\"b\",\"reply\":\"got\",\"got\":5}    or \"empty\", \"refused\", or \"unknown\" where b gives up
  {\"op\":\"crash\"}                          all calls that are open end here

The status is 0 if one order explains every answer, 1 if none does, 2 if a line is refused, and 3 if neither was found.
docs/HISTORIES.md has the other lines, the verdicts, and how to record.";

/// What help says below the options of a command: what it is about.
#[derive(Clone, Copy)]
pub(crate) enum Notes {
    Scripts,
    Brokers,
    Recordings,
}

impl Notes {
    /// What is said.
    pub(crate) fn text(self) -> &'static str {
        match self {
            Notes::Scripts => SCRIPTS,
            Notes::Brokers => BROKERS,
            Notes::Recordings => RECORDINGS,
        }
    }
}
