//! What each option that is a number may be, and what it is where it is not given.

ghost use Rattle.std.specs.Prelude.{◌≡◌};
ghost use Rattle.options.specs.declared.limits.TheConstants.{DEFAULT_CLIENTS, DEFAULT_RECORDS, DEFAULT_PORT, DEFAULT_STATS_PORT};
ghost use Rattle.options.specs.declared.limits.TheConstants.{DEFAULT_WAITING_WORKERS, DEFAULT_WORKERS};
ghost use Rattle.options.specs.declared.limits.TheConstants.{DEFAULT_PATIENCE, MAX_PATIENCE};
ghost use Rattle.options.specs.declared.limits.TheConstants.{DEFAULT_CONNECTIONS, MAX_CONNECTIONS, MAX_IDLE};
ghost use Rattle.options.specs.declared.limits.TheConstants.{DEFAULT_DRAW, MAX_DRAW, MAX_POINT, MAX_PORT, MAX_WORKERS};

use crate::number::NumberOption;
use words::{MAX_CLIENTS, MAX_RECORDS};

/// The clients of a queue where `--clients` is not given.
pub const DEFAULT_CLIENTS: u32 = 4;

/// The records of a client where `--records` is not given.
pub const DEFAULT_RECORDS: u32 = 256;

/// The port of a server where `--port` is not given.
pub const DEFAULT_PORT: u32 = 7_070;

/// The port whose numbers `pqd stats` prints where `--port` is not given.
pub const DEFAULT_STATS_PORT: u32 = 7_071;

/// The greatest port.
pub const MAX_PORT: u32 = 65_535;

/// The workers of a server where `--workers` is not given. Each call is made under one lock, for which others would wait.
pub const DEFAULT_WORKERS: u32 = 1;

/// The same where each reply waits until the journal is kept: several wait for one sync together.
pub const DEFAULT_WAITING_WORKERS: u32 = 8;

/// The most workers of a server.
pub const MAX_WORKERS: u32 = 16;

/// The connections of a server where `--connections` is not given.
pub const DEFAULT_CONNECTIONS: u32 = 1_024;

/// The most connections of a server.
pub const MAX_CONNECTIONS: u32 = 65_536;

/// The most seconds for which no line may come over a connection.
pub const MAX_IDLE: u32 = 86_400;

/// For how many seconds a request to etcd is sent again where `--patience` is not given.
pub const DEFAULT_PATIENCE: u32 = 60;

/// The most such seconds.
pub const MAX_PATIENCE: u32 = 86_400;

/// The state at which draws of `pqx` begin where `--draw` is not given.
pub const DEFAULT_DRAW: u64 = 1;

/// The greatest such state.
pub const MAX_DRAW: u64 = 18_446_744_073_709_551_615;

/// The greatest point of a script that `pqx points` may be asked for, and the most points.
pub const MAX_POINT: u64 = 18_446_744_073_709_551_615;

/// What is asked for where an option is not given, and the greatest that may be: the numbers of the command line, which
/// its pages and docs/WIRE.md have.
pub fn limits_are_fixed()
    ensures clients { DEFAULT_CLIENTS ≡ 4 }
    ensures records { DEFAULT_RECORDS ≡ 256 }
    ensures port { (DEFAULT_PORT ≡ 7070) × (MAX_PORT ≡ 65535) }
    ensures stats { DEFAULT_STATS_PORT ≡ 7071 }
    ensures workers { (DEFAULT_WORKERS ≡ 1) × (DEFAULT_WAITING_WORKERS ≡ 8) × (MAX_WORKERS ≡ 16) }
    ensures connections { (DEFAULT_CONNECTIONS ≡ 1024) × (MAX_CONNECTIONS ≡ 65536) }
    ensures idle { MAX_IDLE ≡ 86400 }
    ensures patience { (DEFAULT_PATIENCE ≡ 60) × (MAX_PATIENCE ≡ 86400) }
    ensures draw { (DEFAULT_DRAW ≡ 1) × (MAX_DRAW ≡ 18446744073709551615) }
    ensures point { MAX_POINT ≡ 18446744073709551615 }
{}

/// `--clients T`
pub(crate) const CLIENTS: NumberOption = NumberOption {
    name: "clients",
    least: 1,
    most: MAX_CLIENTS as u32,
    default: DEFAULT_CLIENTS,
};

/// `--records K`
pub(crate) const RECORDS: NumberOption = NumberOption {
    name: "records",
    least: 1,
    most: MAX_RECORDS,
    default: DEFAULT_RECORDS,
};

/// `--port P`
pub(crate) const PORT: NumberOption = NumberOption {
    name: "port",
    least: 0,
    most: MAX_PORT,
    default: DEFAULT_PORT,
};

/// `--metrics PORT`, which has no default.
pub(crate) const METRICS: NumberOption = NumberOption {
    name: "metrics",
    least: 0,
    most: MAX_PORT,
    default: 0,
};

/// `--port P` of `stats`
pub(crate) const STATS_PORT: NumberOption = NumberOption {
    name: "port",
    least: 1,
    most: MAX_PORT,
    default: DEFAULT_STATS_PORT,
};

/// `--workers N`
pub(crate) const WORKERS: NumberOption = NumberOption {
    name: "workers",
    least: 1,
    most: MAX_WORKERS,
    default: DEFAULT_WORKERS,
};

/// `--workers N` where each reply waits until the journal is kept
pub(crate) const WAITING_WORKERS: NumberOption = NumberOption {
    name: "workers",
    least: 1,
    most: MAX_WORKERS,
    default: DEFAULT_WAITING_WORKERS,
};

/// `--connections C`
pub(crate) const CONNECTIONS: NumberOption = NumberOption {
    name: "connections",
    least: 1,
    most: MAX_CONNECTIONS,
    default: DEFAULT_CONNECTIONS,
};

/// `--idle SECONDS`, which is read where it is given alone
pub(crate) const IDLE: NumberOption = NumberOption {
    name: "idle",
    least: 1,
    most: MAX_IDLE,
    default: MAX_IDLE,
};

/// `--patience S`
pub(crate) const PATIENCE: NumberOption = NumberOption {
    name: "patience",
    least: 1,
    most: MAX_PATIENCE,
    default: DEFAULT_PATIENCE,
};
