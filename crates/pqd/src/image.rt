//! The file that keeps a broker's image.

ghost use Rattle.std.specs.Prelude.{◌≡◌, ◌⊎◌, IfErr};

use command_lines::refusal_of;
use persist::{HEADER_BYTES, MAX_WORDS, NUMBER_BYTES};
use std::fs::{self, File};
use std::io::{self, ErrorKind, Read, Write};
use words::Refusal;

/// How many bytes are read at most: one more than the longest image has, so that what goes on after it is still seen.
const MOST_BYTES: u64 = (HEADER_BYTES + NUMBER_BYTES * MAX_WORDS + 1) as u64;

/// The beginning of the file's bytes, and all of them where they could be an image's: what decides which image they are
/// stands there, and a file that never ends is read no further.
fn read_beginning(rt: &HostRuntime, path: &str) -> io::Result<Vec<u8>> {
    let file = File::open(rt, path)?;
    let mut bytes = Vec::new(rt.alloc());
    file.take(MOST_BYTES).read_to_end(&mut bytes)?;
    Ok(bytes)
}

/// The file's bytes, as far as they decide which image they are or what is wrong with them; nothing, where there is no
/// such file. It is refused where the file is there and cannot be read (ReadFailed), and for want of memory (NoMemory).
pub(crate) fn read(rt: &HostRuntime, path: &str) -> Result<Option<Vec<u8>>, Refusal>
    ensures { IfErr result (λ e. (e ≡ Refusal.NoMemory) ⊎ (e ≡ Refusal.ReadFailed)) }
{
    match read_beginning(rt, path) {
        Ok(bytes) => Ok(Some(bytes)),
        Err(error) => {
            if error.kind() == ErrorKind::NotFound {
                return Ok(None);
            }
            Err(refusal_of(&error))
        }
    }
}

/// Writes the bytes to a file, and waits until they are kept there.
fn write_whole(rt: &HostRuntime, path: &str, bytes: &[u8]) -> io::Result<()> {
    let mut file = File::create(rt, path)?;
    file.write_all(bytes)?;
    file.sync_all()
}

/// Writes the file beside, as `PATH.new`, and renames it, so that a process that is stopped in the middle leaves the
/// old image or the new one. It is refused where that fails (WriteFailed), and for want of memory (NoMemory); then the
/// old image stays.
pub(crate) fn write(rt: &HostRuntime, path: &str, bytes: &[u8]) -> Result<(), Refusal>
    ensures { IfErr result (λ e. (e ≡ Refusal.NoMemory) ⊎ (e ≡ Refusal.WriteFailed)) }
{
    let Ok(beside) = format!(in rt.alloc(); "{path}.new") else {
        return Err(Refusal::NoMemory);
    };
    if write_whole(rt, &beside, bytes).is_err() {
        return Err(Refusal::WriteFailed);
    }
    match fs::rename(rt, &beside, path) {
        Ok(()) => Ok(()),
        Err(_) => Err(Refusal::WriteFailed),
    }
}
