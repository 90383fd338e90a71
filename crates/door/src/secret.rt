//! A secret.

ghost use Rattle.std.specs.Prelude.{◌≡◌, ◌↔◌, ◌≤◌, IfErr, IfOk, IsTrue, MatchOption, MatchResult, vec_len};
ghost use Rattle.std.specs.List.{list_all};
ghost use Rattle.door.specs.Secrets.{IsFit, IsUnfit, IsUnfitFile, IsWithoutNewline, is_printed};

use sha2::{Digest, Sha256};
use std::marker::Model;
use std::{fmt, str};

/// The fewest bytes of a secret.
pub const MIN_SECRET: usize = 32;

/// The most bytes of a secret. A hello that says it fits into a line, also where each byte of it is written as two.
pub const MAX_SECRET: usize = 240;

/// The digest of a secret, in bytes.
const DIGEST: usize = 32;

/// What stands at the end of a file that has a secret in a line.
const NEWLINE: u8 = b'\n';

/// A secret: a text of [`MIN_SECRET`] to [`MAX_SECRET`] bytes without control characters.
#[derive(Drop)]
pub struct Secret {
    text: Vec<u8>,
    digest: [u8; DIGEST],
}

impl Model for Secret {
    ghost use Rattle.std.specs.Prelude.{◌≡◌, ℕ, List};
    ghost use Rattle.sha2.specs.Sha256.{sha256};

    ghost Value = { List ℕ };

    ghost view = { λ s. s.text.items };

    ghost invariant = { λ s. s.digest ≡ sha256 s.text.items };
}

/// Why bytes are no secret.
#[derive(Clone, Copy, Debug, PartialEq, Eq)]
pub enum Unfit {
    TooShort,
    TooLong,
    /// It is no UTF-8, or has a control character, as a newline in its middle.
    NoText,
}

impl fmt::Display for Unfit {
    fn fmt<W: fmt::Write>(&self, f: &mut fmt::Formatter<W>) -> fmt::Result {
        match self {
            Unfit::TooShort => write!(f, "a secret has {MIN_SECRET} bytes or more"),
            Unfit::TooLong => write!(f, "a secret has {MAX_SECRET} bytes at most"),
            Unfit::NoText => f.write_str(
                "a secret is one line of UTF-8 without control characters",
            ),
        }
    }
}

/// The bytes, without the newline at their end, if one is there.
fn without_newline(mut bytes: Vec<u8>) -> Vec<u8>
    ensures { IsWithoutNewline bytes.items result.items }
{
    if bytes.last() == Some(&NEWLINE) {
        bytes.pop();
    }
    bytes
}

/// Whether none of the bytes is a control character of ASCII below the space.
fn is_printed(bytes: &[u8]) -> bool
    ensures { result ≡ is_printed bytes.now }
{
    bytes.iter().all(|byte| *byte >= b' ')
}

/// Why these bytes are no secret, if they are none.
fn fault_of(bytes: &[u8]) -> Option<Unfit>
    ensures { MatchOption result (IsFit bytes.now) (IsUnfit bytes.now) }
{
    if bytes.len() < MIN_SECRET {
        return Some(Unfit::TooShort);
    }
    if bytes.len() > MAX_SECRET {
        return Some(Unfit::TooLong);
    }
    if !is_printed(bytes) || str::from_utf8(bytes).is_err() {
        return Some(Unfit::NoText);
    }
    None
}

impl Secret {
    /// The secret that a file has whose bytes these are. A newline at its end is none of it.
    pub fn of(bytes: Vec<u8>) -> Result<Secret, Unfit>
        ensures secret { IfOk result (IsWithoutNewline bytes.items) }
        ensures fit { IfOk result IsFit }
        ensures unfit { IfErr result (λ why. IsUnfitFile bytes.items why) }
    {
        let text = without_newline(bytes);
        if let Some(why) = fault_of(&text) {
            return Err(why);
        }
        let digest = Sha256::digest(text.as_slice());
        Ok(Secret { text, digest })
    }

    /// Whether these bytes are it. Digests are compared first: where they differ, how long that took tells something of
    /// the digest of the secret, and nothing of the secret.
    pub(crate) fn is(&self, bytes: &[u8]) -> bool
        ensures { IsTrue result ↔ (bytes.now ≡ self.now) }
    {
        Sha256::digest(bytes) == self.digest && bytes == self.text.as_slice()
    }
}
