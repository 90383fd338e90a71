//! Locks that threads hand about: who finds one taken looks away for a while before it waits.
//!
//! [`Mutex::lock`] looks a hundred times and then puts the thread to sleep, and from then on each release wakes somebody
//! by a call of the system. Where the lock is held for some tens of nanoseconds, that costs more than what is done
//! under it. A thread that looks away for some microseconds leaves the lock and what lies under it in the holder's
//! cache, and finds the lock free soon after. Where the holder itself is stopped, the thread sleeps in the end.
#![tactic(auto)]

use std::hint;
use std::sync::{Mutex, MutexGuard, Wait};

/// How often a thread tries before it waits as [`Mutex::lock`] does. With eight tries it comes to that where the lock
/// was taken at each look within one or two hundred microseconds.
const TRIES: u32 = 8;

/// How many turns it looks away after its first try. After each further try it is four times as many.
const FEWEST: u32 = 16;

/// How many they are at most. The longer it looks away, the more acts of a call the holder makes with what lies under
/// the lock in its own cache (docs/MEASURED.md).
const MOST: u32 = 4096;

/// Looks away from a lock for so many turns.
fn look_away(turns: u32) {
    for _ in 0..turns {
        hint::spin_loop();
    }
}

/// The lock, once it is free. What lies under it has the invariant of its type, as behind [`Mutex::lock`].
// Part of its caller: a lock that is free is taken by one access.
#[inline(always)]
pub fn lock<'a, R: Wait, T>(rt: &R, mutex: &'a Mutex<T>) -> MutexGuard<'a, T> {
    let mut turns = FEWEST;
    for _ in 0..TRIES {
        if let Some(guard) = mutex.try_lock() {
            return guard;
        }
        look_away(turns);
        if turns < MOST {
            turns = turns.saturating_mul(4);
        }
    }
    mutex.lock(rt)
}
