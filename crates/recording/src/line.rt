//! What a line says.

/// What a call was answered, or what else became of it.
#[derive(Drop)]
pub(crate) enum Answered {
    Done,
    Got(String),
    Empty,
    Refused,
    Unknown,
}

/// What somebody learnt of a call.
#[derive(Drop)]
pub(crate) enum Told {
    NotTaken,
    Taken(Answered),
}

/// A moment of a clock, and its text.
#[derive(Drop)]
pub(crate) struct Moment {
    pub at: f64,
    pub text: String,
}

/// A whole call, with its times.
#[derive(Drop)]
pub(crate) struct Whole {
    pub client: String,
    pub puts: Option<String>,
    pub from: Moment,
    pub to: Option<Moment>,
    pub answered: Answered,
}

/// What a line says. Clients and values are JSON texts.
#[derive(Drop)]
pub(crate) enum Line {
    Base(Vec<String>),
    Final(Vec<String>),
    Begin {
        client: String,
        puts: Option<String>,
    },
    Answer {
        client: String,
        answered: Answered,
    },
    Crash,
    Told {
        client: String,
        told: Told,
    },
    Whole(Whole),
    CrashAt(Moment),
}
