//! Why a call was refused.

use std::fmt;

/// Why a call was refused. A refused call changes nothing, except where it says otherwise.
#[derive(Clone, Copy, Debug, PartialEq, Eq)]
pub enum Refusal {
    /// The word is not below the size.
    NoWord,
    /// An image does not begin with its magic bytes.
    BadMagic,
    /// 0 or more than 8,388,608 words.
    BadCount,
    /// An image ends too early.
    Truncated,
    /// Bytes come after an image's last word.
    TrailingBytes,
    /// A growth was refused.
    NoMemory,
    /// The number of clients is not from 1 to 16.
    BadClients,
    /// The number of records is not from 1 to 4,096.
    BadRecords,
    /// The number is 0, above 2^40, or not above the client's floor.
    StaleNumber,
    /// A call, a creation or a seat is in use.
    Busy,
    /// The client's records are used up.
    NoRoom,
    /// Recovery is under way.
    NotReady,
    /// There is no such client.
    NoClient,
    /// No call, and no creation, is under way.
    Idle,
    /// No recovery is under way.
    AlreadyReady,
    /// A queue's name is not 1 to 16 bytes of `a-z`, `0-9`, `_`, `-`.
    BadName,
    /// There is a queue of that name.
    Exists,
    /// There are eight queues.
    DirectoryFull,
    /// The number is past the client's next.
    Gap,
    /// The number is before the client's last.
    Old,
    /// There is no such queue.
    NoQueue,
    /// The queue is of the other kind.
    WrongKind,
    /// A request line has more than 512 bytes.
    TooLong,
    /// A request line is no JSON.
    BadJson,
    /// A request has not the keys and values of its kind.
    BadRequest,
    /// The reading device failed.
    ReadFailed,
    /// The writing device failed.
    WriteFailed,
    /// This line of a script, the first one being line 1, is not in the grammar.
    BadLine(u32),
    /// Booted words break a rule of sound words, this one first.
    Damaged(Rule),
    /// An item has more than 24 bytes.
    BadItem,
}

/// The rules of sound words, in the order in which they are looked at.
#[derive(Clone, Copy, Debug, PartialEq, Eq)]
pub enum Rule {
    /// The count of words is the layout's.
    Size,
    /// Bump words are within the records, and a record that is not used is all zero.
    Records,
    /// The chain has used nodes, each once, and ends; other nodes are loose.
    Chain,
    /// Values are in range, and the claimed nodes come first, each with a claim of its own.
    Claims,
    /// The head is at the sentinel or a claimed node, the tail on the chain.
    Ends,
    /// Durable queues: each row names a cell of its client, and each cell has its answer.
    Rows,
    /// Log queues: each log names an entry of its client, and each entry tells what became of it.
    Entries,
    /// A broker's image has its clients, its records and their count of words.
    Image,
    /// A broker's directory has good names, none twice.
    Directory,
}

impl Rule {
    ghost use Rattle.std.specs.Prelude.{◌≡◌};
    ghost use Rattle.words.specs.Refusal.{number_of};

    /// Its number, from 1 to 9.
    pub fn number(self) -> u8
        ensures { result ≡ number_of self }
    {
        match self {
            Rule::Size => 1,
            Rule::Records => 2,
            Rule::Chain => 3,
            Rule::Claims => 4,
            Rule::Ends => 5,
            Rule::Rows => 6,
            Rule::Entries => 7,
            Rule::Image => 8,
            Rule::Directory => 9,
        }
    }
}

impl Refusal {
    ghost use Rattle.std.specs.Prelude.{◌≡◌};
    ghost use Rattle.words.specs.Refusal.{code_of, name_of};

    /// Its number, from 1 to 30.
    pub fn code(self) -> u8
        ensures { result ≡ code_of self }
    {
        match self {
            Refusal::NoWord => 1,
            Refusal::BadMagic => 2,
            Refusal::BadCount => 3,
            Refusal::Truncated => 4,
            Refusal::TrailingBytes => 5,
            Refusal::NoMemory => 6,
            Refusal::BadClients => 7,
            Refusal::BadRecords => 8,
            Refusal::StaleNumber => 9,
            Refusal::Busy => 10,
            Refusal::NoRoom => 11,
            Refusal::NotReady => 12,
            Refusal::NoClient => 13,
            Refusal::Idle => 14,
            Refusal::AlreadyReady => 15,
            Refusal::BadName => 16,
            Refusal::Exists => 17,
            Refusal::DirectoryFull => 18,
            Refusal::Gap => 19,
            Refusal::Old => 20,
            Refusal::NoQueue => 21,
            Refusal::WrongKind => 22,
            Refusal::TooLong => 23,
            Refusal::BadJson => 24,
            Refusal::BadRequest => 25,
            Refusal::ReadFailed => 26,
            Refusal::WriteFailed => 27,
            Refusal::BadLine(_) => 28,
            Refusal::Damaged(_) => 29,
            Refusal::BadItem => 30,
        }
    }

    /// Its name.
    pub fn name(self) -> &'static str
        ensures { result.now ≡ name_of self }
    {
        match self {
            Refusal::NoWord => "NoWord",
            Refusal::BadMagic => "BadMagic",
            Refusal::BadCount => "BadCount",
            Refusal::Truncated => "Truncated",
            Refusal::TrailingBytes => "TrailingBytes",
            Refusal::NoMemory => "NoMemory",
            Refusal::BadClients => "BadClients",
            Refusal::BadRecords => "BadRecords",
            Refusal::StaleNumber => "StaleNumber",
            Refusal::Busy => "Busy",
            Refusal::NoRoom => "NoRoom",
            Refusal::NotReady => "NotReady",
            Refusal::NoClient => "NoClient",
            Refusal::Idle => "Idle",
            Refusal::AlreadyReady => "AlreadyReady",
            Refusal::BadName => "BadName",
            Refusal::Exists => "Exists",
            Refusal::DirectoryFull => "DirectoryFull",
            Refusal::Gap => "Gap",
            Refusal::Old => "Old",
            Refusal::NoQueue => "NoQueue",
            Refusal::WrongKind => "WrongKind",
            Refusal::TooLong => "TooLong",
            Refusal::BadJson => "BadJson",
            Refusal::BadRequest => "BadRequest",
            Refusal::ReadFailed => "ReadFailed",
            Refusal::WriteFailed => "WriteFailed",
            Refusal::BadLine(_) => "BadLine",
            Refusal::Damaged(_) => "Damaged",
            Refusal::BadItem => "BadItem",
        }
    }
}

/// The number, a space and the name: `11 NoRoom`.
impl fmt::Display for Refusal {
    ghost use Rattle.std.specs.Prelude.{Some};
    ghost use Rattle.words.specs.Refusal.{refusal_text};

    ghost output = { λ refusal. Some (refusal_text refusal) };

    fn fmt<W: fmt::Write>(&self, f: &mut fmt::Formatter<W>) -> fmt::Result {
        let code = self.code();
        let name = self.name();
        write!(f, "{code} {name}")
    }
}

impl std::error::Error for Refusal {}
