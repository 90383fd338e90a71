//! Readers and writers that fail in the middle of the story, and what stands then.

ghost use Rattle.std.specs.Prelude.{refl};
ghost use Rattle.chronicle.specs.Chronicled.{entries};
ghost use Rattle.workers.specs.Opening.{IsNameOf};

use crate::slow::{SlowReader, SlowWriter};
use crate::story::STORY;
use desk::BrokerDesk;
use devices::{CountedWriter, Failed, FaultyReader, FaultyWriter};
use engine::{Desk, Failure, serve};
use opening::opened;
use seating::Seating;
use serving::{JsonLines, pipe};
use session::Session;
use std::alloc::{AllocError, Global};
use std::io::{self, Write};
use std::marker::Brand;
use std::process::Abort;
use std::sync::Wait;
use std::test::*;
use wire::{Answer, Request};
use words::Refusal;
use workers::{Naming, Opened, Shared};

/// How many bytes the story's requests have, and its replies.
const REQUEST_BYTES: usize = 663;

const REPLY_BYTES: usize = 418;

/// Lines, and after how many bytes each of them ends.
#[derive(Drop)]
struct Lines {
    bytes: Vec<u8>,
    ends: Vec<usize>,
}

impl Lines {
    fn new(alloc: Global) -> Self {
        Lines {
            bytes: Vec::new(alloc),
            ends: Vec::new(alloc),
        }
    }

    fn add(&mut self, line: &str) -> Result<(), AllocError> {
        self.bytes.extend_from_slice(line.as_bytes())?;
        self.bytes.push(b'\n')?;
        self.ends.push(self.bytes.len())?;
        Ok(())
    }

    /// How many of them end within so many bytes.
    fn within(&self, bytes: usize) -> usize {
        self.ends.iter().filter(|end| **end <= bytes).count()
    }
}

/// The story's requests, and its replies.
#[derive(Drop)]
struct Story {
    requests: Lines,
    replies: Lines,
}

/// Those of [`STORY`].
fn the_story(alloc: Global) -> Result<Story, AllocError> {
    let (mut requests, mut replies) = (Lines::new(alloc), Lines::new(alloc));
    for (request, reply) in &STORY {
        requests.add(request)?;
        replies.add(reply)?;
    }
    Ok(Story { requests, replies })
}

/// How many bytes devices give and take before they fail, and at a time; and how often is settled before that fails.
#[derive(Clone, Copy, Debug)]
struct Limits {
    readable: usize,
    writable: usize,
    each: usize,
    settled: usize,
}

/// How serving ended, what was written, and how many requests were made.
#[derive(Drop)]
struct Exchange {
    end: Result<(), Failure>,
    written: Vec<u8>,
    made: usize,
}

/// A desk that counts the requests that are made, and settles so often and then fails.
#[derive(Drop)]
struct CountingDesk<'a, J: Naming> {
    desk: BrokerDesk<'a, J>,
    made: usize,
    settles: usize,
    unsettled: u64,
}

impl<J: Naming> Desk for CountingDesk<'_, J> {
    ghost served = { λ desk. entries desk.desk.served };

    ghost settled = { λ desk. desk.desk.served.settled };

    ghost failures = { λ desk. desk.unsettled };

    fn answer<R: Wait>(&mut self, rt: &R, request: Request) -> Answer {
        self.made = self.made.saturating_add(1);
        self.desk.answer(rt, request)
    }

    fn settle<R: Wait>(&mut self, rt: &R) -> Result<(), Failed> {
        if self.settles == 0 {
            self.unsettled += 1;
            return Err(Failed);
        }
        self.settles -= 1;
        self.desk.settle(rt)
    }

    ghost begins = { λ desk. (desk.desk.served.unsettled, refl) };
}

/// Serves the input by a desk that counts.
fn exchanged_at<J: Naming, T: Wait>(
    rt: &T,
    alloc: Global,
    shared: &Shared<J>,
    seats: &Seating<J>,
    input: &[u8],
    limits: Limits,
) -> Result<Exchange, Fail> {
    let mut desk = CountingDesk {
        desk: BrokerDesk::new(rt, alloc, shared, seats)?,
        made: 0,
        settles: limits.settled,
        unsettled: 0,
    };
    let mut reader = SlowReader::new(input, limits.each, limits.readable);
    let mut writer = SlowWriter::new(alloc, limits.each, limits.writable);
    let end = serve::<T, JsonLines, _, _, _>(rt, alloc, &mut reader, &mut writer, &mut desk);
    Ok(Exchange {
        end,
        written: writer.into_written(),
        made: desk.made,
    })
}

/// The same, once the broker has its name.
fn exchanged<J: Naming, T: Wait>(
    rt: &T,
    alloc: Global,
    opened: Opened,
    input: &[u8],
    limits: Limits,
) -> Result<Exchange, Fail>
    requires { IsNameOf J.roll J.clients J.first opened }
{
    let (shared, seats, operator) = match opened.named::<J>(alloc) {
        Ok(named) => named,
        Err(not) => return Err(Fail::new(not.refusal)),
    };
    match Seating::new(alloc, seats, operator) {
        Ok(seats) => exchanged_at(rt, alloc, &shared, &seats, input, limits),
        Err(refusal) => Err(Fail::new(refusal)),
    }
}

/// The input served by a new broker of two clients with two records each.
fn served<T: Wait>(rt: &T, alloc: Global, input: &[u8], limits: Limits) -> Result<Exchange, Fail> {
    let session = Session::open(opened(alloc, 2, 2, None)?);
    match Opened::new(alloc, session) {
        Ok(opened) => exchanged::<Brand, T>(rt, alloc, opened, input, limits),
        Err(not) => Err(Fail::new(not.refusal)),
    }
}

/// How much is written: so many bytes of the replies, or so many of them whole.
#[derive(Clone, Copy)]
enum Written {
    Bytes(usize),
    Replies(usize),
}

/// How serving is to end, how much is to be written, and how many requests are to be made.
#[derive(Clone, Copy)]
struct Wanted {
    end: Result<(), Failure>,
    written: Written,
    made: usize,
}

/// Whether it went as wanted. What is written is a beginning of the replies.
fn is_right(replies: &Lines, found: &Exchange, wanted: &Wanted) -> bool {
    let bytes = found.written.len();
    let whole = match wanted.written {
        Written::Bytes(count) => bytes == count,
        Written::Replies(0) => bytes == 0,
        Written::Replies(count) => {
            replies.within(bytes) == count && replies.ends.contains(&bytes)
        }
    };
    whole
        && replies.bytes.starts_with(found.written.as_slice())
        && found.end == wanted.end
        && found.made == wanted.made
}

/// Serves the story by such devices.
fn tried<T: Wait + Abort>(
    rt: &T,
    alloc: Global,
    story: &Story,
    limits: Limits,
    wanted: Wanted,
) -> Result<(), Fail> {
    let found = served(rt, alloc, story.requests.bytes.as_slice(), limits)?;
    assert!(rt; is_right(&story.replies, &found, &wanted), "{limits:?}");
    Ok(())
}

/// Devices that neither fail nor are slow.
const SOUND: Limits = Limits {
    readable: usize::MAX,
    writable: usize::MAX,
    each: usize::MAX,
    settled: usize::MAX,
};

#[test]
fn a_byte_at_a_time(rt: HostRuntime) -> Result<(), Fail> {
    let story = the_story(rt.alloc())?;
    assert_eq!(rt; story.requests.bytes.len(), REQUEST_BYTES);
    assert_eq!(rt; story.replies.bytes.len(), REPLY_BYTES);
    let limits = Limits { each: 1, ..SOUND };
    let wanted = Wanted {
        end: Ok(()),
        written: Written::Bytes(REPLY_BYTES),
        made: STORY.len(),
    };
    tried(&rt, rt.alloc(), &story, limits, wanted)
}

/// All lines come at once, so all requests are made before their replies go. A flush fails where all bytes were taken.
#[test]
fn a_writer_fails_after_each_byte(rt: HostRuntime) -> Result<(), Fail> {
    let story = the_story(rt.alloc())?;
    for writable in 0..=REPLY_BYTES {
        let limits = Limits { writable, ..SOUND };
        let wanted = Wanted {
            end: Err(Failure::WriteFailed),
            written: Written::Bytes(writable),
            made: STORY.len(),
        };
        tried(&rt, rt.alloc(), &story, limits, wanted)?;
    }
    Ok(())
}

/// Each line comes by itself, so its reply goes before the next request is made.
#[test]
fn a_slow_writer_fails_after_each_byte(rt: HostRuntime) -> Result<(), Fail> {
    let story = the_story(rt.alloc())?;
    for writable in 1..=REPLY_BYTES {
        let limits = Limits {
            writable,
            each: 1,
            ..SOUND
        };
        let whole = story.replies.within(writable.saturating_sub(1));
        let wanted = Wanted {
            end: Err(Failure::WriteFailed),
            written: Written::Bytes(writable),
            made: whole.saturating_add(1),
        };
        tried(&rt, rt.alloc(), &story, limits, wanted)?;
    }
    Ok(())
}

/// Whatever was read of a line that did not end, it is not served.
fn tried_readers<T: Wait + Abort>(
    rt: &T,
    alloc: Global,
    story: &Story,
    each: usize,
) -> Result<(), Fail> {
    for readable in 0..=REQUEST_BYTES {
        let limits = Limits {
            readable,
            each,
            ..SOUND
        };
        let lines = story.requests.within(readable);
        let wanted = Wanted {
            end: Err(Failure::ReadFailed),
            written: Written::Replies(lines),
            made: lines,
        };
        tried(rt, alloc, story, limits, wanted)?;
    }
    Ok(())
}

#[test]
fn a_reader_fails_after_each_byte(rt: HostRuntime) -> Result<(), Fail> {
    let story = the_story(rt.alloc())?;
    for each in [1, 7, usize::MAX] {
        tried_readers(&rt, rt.alloc(), &story, each)?;
    }
    Ok(())
}

/// Each line comes by itself, so its reply is settled and goes before the next request is made. Where that fails nothing
/// of it is written.
#[test]
fn a_desk_fails_after_each_settle(rt: HostRuntime) -> Result<(), Fail> {
    let story = the_story(rt.alloc())?;
    for settled in 0..STORY.len() {
        let limits = Limits {
            each: 1,
            settled,
            ..SOUND
        };
        let wanted = Wanted {
            end: Err(Failure::NotKept),
            written: Written::Replies(settled),
            made: settled.saturating_add(1),
        };
        tried(&rt, rt.alloc(), &story, limits, wanted)?;
    }
    Ok(())
}

/// A writer of std's that takes no byte, and says so.
#[derive(Drop)]
struct Full;

impl Write for Full {
    fn write(&mut self, _bytes: &[u8]) -> io::Result<usize> {
        Ok(0)
    }

    fn flush(&mut self) -> io::Result<()> {
        Ok(())
    }
}

/// How many bytes of the story a pipe reads, how many it writes, and why it ends.
static PIPES: [(usize, usize, Refusal); 3] = [
    (50, usize::MAX, Refusal::ReadFailed),
    (usize::MAX, 30, Refusal::WriteFailed),
    // Both would fail: the reply goes before more is read.
    (50, 28, Refusal::WriteFailed),
];

#[test]
fn a_pipe_that_fails_leaves_no_image(rt: HostRuntime) -> Result<(), Fail> {
    let alloc = rt.alloc();
    let story = the_story(alloc)?;
    let requests = story.requests.bytes.as_slice();
    for (readable, writable, wanted) in &PIPES {
        let mut reader = FaultyReader::new(requests, *readable);
        let mut writer = FaultyWriter::new(alloc, *writable);
        let left = pipe(
            &rt,
            alloc,
            opened(alloc, 2, 2, None)?,
            &mut reader,
            &mut writer,
        );
        assert!(rt; left.err() == Some(*wanted), "{readable} {writable}");
    }
    let mut reader = FaultyReader::new(requests, usize::MAX);
    let mut writer = CountedWriter::new(Full);
    let left = pipe(
        &rt,
        alloc,
        opened(alloc, 2, 2, None)?,
        &mut reader,
        &mut writer,
    );
    assert!(rt; left.err() == Some(Refusal::WriteFailed));
    Ok(())
}
