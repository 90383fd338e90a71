//! Changes made in words.

ghost use Rattle.std.specs.Prelude.{◌≡◌, length};
ghost use Rattle.persist.specs.Noted.{applied};
ghost use Rattle.journal.specs.Journal.{AreOfWords};

use persist::Change;

/// Makes the changes, the first one first.
pub(crate) fn apply(words: &mut [u64], changes: &[Change])
    requires { AreOfWords (length words.old) changes.now }
    ensures { words.new ≡ applied changes.now words.old }
{
    for change in changes {
        words[change.word] = change.new;
    }
}
