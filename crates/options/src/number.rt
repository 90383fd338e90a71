//! Options that are numbers.

ghost use Rattle.std.specs.Prelude.{◌≤◌, IfOk};
ghost use Rattle.options.specs.Numbers.{IsNumberGiven, given_text};

use std::fmt;

/// An option that is a number.
#[derive(Clone, Copy)]
pub(crate) struct NumberOption {
    /// Its name, without the dashes.
    pub name: &'static str,
    /// The least number that may be given.
    pub least: u32,
    /// The greatest number that may be given.
    pub most: u32,
    /// The number where none is given.
    pub default: u32,
    ghost low: { least ≤ default },
    ghost high: { default ≤ most },
}

impl NumberOption {
    fn misfit(self) -> Misfit {
        Misfit::Number {
            name: self.name,
            least: self.least,
            most: self.most,
        }
    }

    /// The number that is given, or the default where none is.
    pub(crate) fn read(self, given: Option<&str>) -> Result<u32, Misfit>
        ensures number { IsNumberGiven (given_text given.entry) self.least self.most self.default result }
        ensures range { IfOk result (λ n. (self.least ≤ n) × (n ≤ self.most)) }
    {
        let Some(text) = given else {
            return Ok(self.default);
        };
        let Ok(number) = text.parse::<u32>() else {
            return Err(self.misfit());
        };
        if number < self.least || self.most < number {
            return Err(self.misfit());
        }
        Ok(number)
    }
}

/// An option was given what it does not take.
#[derive(Clone, Copy)]
pub enum Misfit {
    /// What is no number of its range.
    Number {
        name: &'static str,
        least: u32,
        most: u32,
    },
    /// `--listen` was given what is no address.
    Address,
    /// `--sync` was given what is none of its three words.
    Syncing,
    /// `--sync` was given without a journal.
    Unjournaled,
    /// A journal in etcd is to be kept otherwise than always.
    NotAlways,
    /// An option of a journal in etcd was given without one.
    NoLog,
}

impl fmt::Display for Misfit {
    fn fmt<W: fmt::Write>(&self, f: &mut fmt::Formatter<W>) -> fmt::Result {
        match self {
            Misfit::Number { name, least, most } => write!(
                f,
                "the option '--{name}' takes a whole number from {least} to {most}"
            ),
            Misfit::Address => f.write_str(
                "the option '--listen' takes an IPv4 or an IPv6 address",
            ),
            Misfit::Syncing => f.write_str("the option '--sync' takes always, second or never"),
            Misfit::Unjournaled => f.write_str("the option '--sync' goes with '--journal'"),
            Misfit::NotAlways => f.write_str(
                "the option '--sync' takes always alone for a journal in etcd",
            ),
            Misfit::NoLog => f.write_str(
                "the options '--standby', '--take-over', '--patience' and '--announce' go with '--journal etcd://..'",
            ),
        }
    }
}
