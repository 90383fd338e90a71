//! Names: by which policy a journal is kept.

use std::marker::Brand;

/// A name of the place where a journal is settled: the policy by which it is kept there. Each call of a function that is
/// generic in it picks one.
pub trait Settling {
    ghost use Rattle.lasting.specs.declared.policy.Policy.{Policy};

    ghost policy: { Policy };
}

impl Settling for Brand {
    ghost use Rattle.lasting.specs.declared.policy.Policy.TheVariants.{Never};

    ghost policy = { Never };
}
