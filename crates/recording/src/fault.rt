//! Why a recording is refused.

use std::alloc::{AllocError, AllocFailed};
use std::fmt;

/// What is wrong with a line.
#[derive(Drop)]
pub enum Why {
    NoObject,
    NoLine,
    NoCall(String),
    UnderWay(String),
    WrongAnswer(String),
    NotInterrupted(String),
    BaseNotFirst,
    AfterFinal,
    TimesAndNone,
    QueueAndNone,
    CrashOfOne,
}

impl fmt::Display for Why {
    fn fmt<W: fmt::Write>(&self, f: &mut fmt::Formatter<W>) -> fmt::Result {
        match self {
            Why::NoObject => write!(f, "this is no JSON object"),
            Why::NoLine => write!(f, "this is no line of a recording"),
            Why::NoCall(client) => write!(f, "client {client} has no call under way"),
            Why::UnderWay(client) => write!(f, "client {client} has a call under way"),
            Why::WrongAnswer(client) => {
                write!(f, "this is no answer to the call of client {client}")
            }
            Why::NotInterrupted(client) => {
                write!(f, "no crash interrupted the last call of client {client}")
            }
            Why::BaseNotFirst => write!(f, "base stands on the first line, or nowhere"),
            Why::AfterFinal => write!(f, "final stands on the last line, or nowhere"),
            Why::TimesAndNone => write!(f, "lines with times stand beside lines without"),
            Why::QueueAndNone => write!(f, "lines with a queue stand beside lines without"),
            Why::CrashOfOne => write!(f, "a crash is of all queues"),
        }
    }
}

/// Why a recording was not read.
#[derive(Drop)]
pub enum Fault {
    Memory,
    Line(u32, Why),
    /// The steps are not seen to be a recording of a queue. None is known that a text comes to.
    NoRecording,
}

impl fmt::Display for Fault {
    fn fmt<W: fmt::Write>(&self, f: &mut fmt::Formatter<W>) -> fmt::Result {
        match self {
            Fault::Memory => write!(f, "there is no memory left"),
            Fault::Line(line, why) => write!(f, "refused: line {line}: {why}"),
            Fault::NoRecording => write!(f, "refused: what was read is no recording of a queue"),
        }
    }
}

impl From<AllocError> for Fault {
    fn from(_error: AllocError) -> Fault {
        Fault::Memory
    }
}

impl<T: Drop> From<AllocFailed<T>> for Fault {
    fn from(_error: AllocFailed<T>) -> Fault {
        Fault::Memory
    }
}
