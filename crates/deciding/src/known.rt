//! What is known of calls, by their places, and which take got which value.

ghost use Rattle.std.specs.Prelude.{◌≡◌, IfOk};
ghost use Rattle.windows.proofs.Facts.{take_of};
ghost use Rattle.deciding.specs.Table.{calls_by};
ghost use Rattle.deciding.specs.Tables.{AreTakes};

use std::alloc::{AllocError, Global};

/// What is known of the call that begins at a place.
#[derive(Clone, Copy)]
pub(crate) enum Knows {
    NoCall,
    PutDone,
    PutNot,
    PutOpen,
    Took(usize),
    FoundNothing,
    TakeNot,
    TakeOpen,
}

/// The first take that got the value of this put, or as many as there are places.
#[tactic(auto, using(crate::proofs::Taken::first_is, crate::proofs::Taken::none_is))]
fn take_of(known: &[Knows], ends: &[usize], put: usize) -> usize
    ensures { result ≡ take_of (calls_by known.now ends.now) put }
{
    for (place, knows) in known.iter().enumerate() {
        if let Knows::Took(source) = knows {
            if *source == put {
                return place;
            }
        }
    }
    known.len()
}

/// The same of each place.
pub(crate) fn takes_of(
    alloc: Global,
    known: &[Knows],
    ends: &[usize],
) -> Result<Vec<usize>, AllocError>
    ensures { IfOk result (λ takes. AreTakes (calls_by known.now ends.now) takes.items) }
{
    let mut takes = Vec::with_capacity(alloc, known.len())?;
    for put in 0..known.len() {
        takes.push(take_of(known, ends, put))?;
    }
    Ok(takes)
}
