//! The keys of a log that has a name.

ghost use Rattle.std.specs.Prelude.{◌≡◌, ◌++◌, IfOk, OnOk};
ghost use Rattle.etcd_text.specs.Texts.{digits_of, first_key, generation_key, piece_key, tail_key};

use std::alloc::{AllocError, Global};

/// The key of its tail.
pub(crate) fn tail_key(alloc: Global, name: &str) -> Result<Vec<u8>, AllocError>
    ensures { IfOk result (λ key. key.items ≡ tail_key name.now) }
{
    let mut key = Vec::from_slice(alloc, name.as_bytes())?;
    key.extend_from_slice(b"/tail")?;
    Ok(key)
}

/// Before the keys of all generations.
pub(crate) fn first_key(alloc: Global, name: &str) -> Result<Vec<u8>, AllocError>
    ensures { IfOk result (λ key. key.items ≡ first_key name.now) }
{
    let mut key = Vec::from_slice(alloc, name.as_bytes())?;
    key.extend_from_slice(b"/0")?;
    Ok(key)
}

/// Appends the 16 hexadecimal digits of a number, so that keys stand in the order of numbers.
fn append_digits(alloc: Global, key: &mut Vec<u8>, number: u64) -> Result<(), AllocError>
    ensures { OnOk result (key.new.items ≡ key.old.items ++ digits_of number) }
{
    let bytes = number.to_be_bytes();
    let digits = hex::encode(alloc, bytes.as_slice())?;
    key.extend_from_slice(digits.as_bytes())
}

/// Where the keys of a generation begin.
pub(crate) fn generation_key(
    alloc: Global,
    name: &str,
    generation: u64,
) -> Result<Vec<u8>, AllocError>
    ensures { IfOk result (λ key. key.items ≡ generation_key name.now generation) }
{
    let mut key = Vec::from_slice(alloc, name.as_bytes())?;
    key.extend_from_slice(b"/")?;
    append_digits(alloc, &mut key, generation)?;
    key.extend_from_slice(b"/")?;
    Ok(key)
}

/// The key of a piece.
pub(crate) fn piece_key(
    alloc: Global,
    name: &str,
    generation: u64,
    number: u64,
) -> Result<Vec<u8>, AllocError>
    ensures { IfOk result (λ key. key.items ≡ piece_key name.now generation number) }
{
    let mut key = generation_key(alloc, name, generation)?;
    append_digits(alloc, &mut key, number)?;
    Ok(key)
}
