//! What holds of secrets.

ghost use Rattle.std.specs.Prelude.{◌≡◌, ℕ, List, IsUtf8, Some};
ghost use Rattle.door.specs.Hello.{hello, said};
ghost use Rattle.door.specs.declared.secret.TheConstants.{MAX_SECRET, MIN_SECRET};

/// The bounds of a secret, which docs/WIRE.md has.
pub fn bounds_are_fixed()
    ensures { (MIN_SECRET ≡ 32) × (MAX_SECRET ≡ 240) }
{}

/// Each text can be said: the compact JSON text of its hello says it.
#[tactic(auto, using(crate::proofs::Saying::said_again))]
pub fn secrets_can_be_said()
    ensures { (secret : List ℕ) → IsUtf8 secret → said (hello secret) ≡ Some secret }
{}
