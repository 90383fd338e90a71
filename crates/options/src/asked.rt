//! What `pqd` is asked to do.

ghost use Rattle.std.specs.Prelude.{◌≤◌};
ghost use Rattle.words.specs.declared.limits.TheConstants.{MAX_CLIENTS, MAX_RECORDS};
ghost use Rattle.options.specs.declared.limits.TheConstants.{MAX_CONNECTIONS, MAX_PATIENCE, MAX_WORKERS};

use std::net::IpAddr;

/// What `pqd` is asked to do.
#[derive(Clone, Copy)]
pub enum Asked<'a> {
    /// To serve a broker.
    Serving(Options<'a>),
    /// To print the numbers of one that another `pqd` serves.
    Printing(Printing),
}

/// How numbers are printed.
#[derive(Clone, Copy)]
pub struct Printing {
    /// The port of this machine at which they are told.
    pub port: u16,
    /// Whether they are printed again each second.
    pub watch: bool,
}

/// How a broker is served.
#[derive(Clone, Copy)]
pub struct Options<'a> {
    /// The clients of a queue, from 1 to `words::MAX_CLIENTS`.
    pub clients: u32,
    /// The records of one client in a queue, from 1 to `words::MAX_RECORDS`.
    pub records: u32,
    /// The path of the file that keeps the memory, if one is to keep it.
    pub image: Option<&'a str>,
    /// The journal that has every change before a reply that follows it, if one is to be kept.
    pub journal: Option<Journaling<'a>>,
    /// Each queue that the file keeps begins in fresh records: of so many clients, and so many of each. So does one
    /// that has no room, while connections are served.
    pub renew: bool,
    /// How clients reach the broker.
    pub mode: Mode<'a>,
    ghost some_clients: { 1 ≤ clients },
    ghost few_clients: { clients ≤ MAX_CLIENTS },
    ghost some_records: { 1 ≤ records },
    ghost few_records: { records ≤ MAX_RECORDS },
}

/// The journal of a broker.
#[derive(Clone, Copy)]
pub enum Journaling<'a> {
    InFile(FileJournal<'a>),
    InLog(LogJournal<'a>),
}

/// A journal in a file.
#[derive(Clone, Copy)]
pub struct FileJournal<'a> {
    /// The path of its file.
    pub file: &'a str,
    pub syncing: Syncing,
}

/// A journal in a log of etcd, which keeps always.
#[derive(Clone, Copy)]
pub struct LogJournal<'a> {
    /// The members and the name of the log, as they stand behind `etcd://`.
    pub address: &'a str,
    pub taking: Taking,
    /// For how many seconds a request is sent again that is not answered, from 1 to `MAX_PATIENCE`.
    pub patience: u32,
    /// Where others find the server, if that is not where it listens.
    pub announce: Option<&'a str>,
    ghost some_patience: { 1 ≤ patience },
    ghost little_patience: { patience ≤ MAX_PATIENCE },
}

/// When the log is taken from another server that has it.
#[derive(Clone, Copy)]
pub enum Taking {
    /// Where that one takes no connections any more. Else it is refused.
    IfFree,
    /// Once that one takes no connections any more.
    OnceFree,
    /// At once.
    AtOnce,
}

/// When the system is asked to keep a journal's bytes, so that they outlive a loss of power.
#[derive(Clone, Copy)]
pub enum Syncing {
    /// Before each reply that follows them.
    Always,
    /// Each second.
    EachSecond,
    /// Never, but at the end.
    Never,
}

/// How clients reach the broker.
#[derive(Clone, Copy)]
pub enum Mode<'a> {
    /// By standard input and standard output.
    Pipe,
    /// By the network.
    Serve(Listening<'a>),
}

/// Where a server listens, and which connections it serves.
#[derive(Clone, Copy)]
pub struct Listening<'a> {
    /// Who reaches it reaches the server.
    pub address: IpAddr,
    /// 0 lets the system choose.
    pub port: u16,
    /// The port of this machine alone at which numbers are told, if they are to be.
    pub metrics: Option<u16>,
    /// The threads that serve, from 1 to `MAX_WORKERS`.
    pub workers: u32,
    /// The connections that are open at most, from 1 to `MAX_CONNECTIONS`.
    pub connections: u32,
    /// For how many seconds no line comes over a connection before it is closed, if any is closed so.
    pub idle: Option<u32>,
    /// The path of the file with the secret that the first line of each connection has to say, if it has to.
    pub secret: Option<&'a str>,
    ghost some_workers: { 1 ≤ workers },
    ghost few_workers: { workers ≤ MAX_WORKERS },
    ghost some_connections: { 1 ≤ connections },
    ghost few_connections: { connections ≤ MAX_CONNECTIONS },
}
