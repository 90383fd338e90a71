//! How much a script may say.

use words::{MAX_CLIENTS, MAX_RECORDS};

/// The most lines of a script.
pub const MAX_LINES: u32 = 1_000;

/// The most steps that one line may ask for.
pub const MAX_STEPS: u32 = 1_000;

/// The greatest number of a client that a line may name: it is one byte.
pub const MAX_CLIENT_NUMBER: u8 = 255;

/// Which numbers may stand in a place.
#[derive(Clone, Copy)]
pub struct Limits {
    pub least: u64,
    pub most: u64,
}

/// How many clients a queue may have.
pub const CLIENTS: Limits = Limits {
    least: 1,
    most: MAX_CLIENTS as u64,
};

/// How many records each of them may have.
pub const RECORDS: Limits = Limits {
    least: 1,
    most: MAX_RECORDS as u64,
};

/// The number of a client: any byte. Whether the queue has this client, its world says when the line is followed.
pub const CLIENT: Limits = Limits {
    least: 0,
    most: MAX_CLIENT_NUMBER as u64,
};

/// The number of a call, or of a word.
pub const NUMBER: Limits = Limits {
    least: 0,
    most: u64::MAX,
};

/// How many steps a line asks for.
pub const STEPS: Limits = Limits {
    least: 1,
    most: MAX_STEPS as u64,
};
