//! What `pqx` is asked to do.

/// Which words are kept just before each crash.
#[derive(Clone, Copy)]
pub enum Choice {
    None,
    All,
    Drawn,
}

/// What a report on points is of.
#[derive(Clone, Copy)]
pub struct PointOptions<'a> {
    pub choice: Choice,
    /// The state at which draws begin.
    pub draw: u64,
    /// The first point that is wanted.
    pub from: u64,
    /// How many points are wanted, if not all from there on.
    pub count: Option<u64>,
    /// The path of the file for the report's page, if there is to be one.
    pub page: Option<&'a str>,
}

/// What a report on the points of a whole broker is of.
#[derive(Clone, Copy)]
pub struct BrokerPointOptions {
    pub choice: Choice,
    /// The state at which draws begin.
    pub draw: u64,
}

/// What the transcript of a script is asked to be.
#[derive(Clone, Copy)]
pub struct RunOptions<'a> {
    /// The path of the file for the run's page, if there is to be one.
    pub page: Option<&'a str>,
}

/// What a verdict on a recording is asked to be.
#[derive(Clone, Copy)]
pub struct CheckOptions<'a> {
    /// The entries of the order that explains the recording are printed, too.
    pub order: bool,
    /// The path of the file for the recording's page, if there is to be one.
    pub page: Option<&'a str>,
}

/// What `pqx` is asked to do.
#[derive(Clone, Copy)]
pub enum PqxAsked<'a> {
    /// The transcript of a script.
    Run(RunOptions<'a>),
    /// What a crash at each point of a script comes to.
    Points(PointOptions<'a>),
    /// What becomes of each call that stopped at a point of a script, where it goes on alone.
    Alone,
    /// Whether an order explains a recording.
    Check(CheckOptions<'a>),
    /// The transcript of a script of a whole broker.
    BrokerRun,
    /// What a crash of the whole broker at each point of such a script comes to.
    BrokerPoints(BrokerPointOptions),
}
