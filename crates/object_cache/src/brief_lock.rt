//! Taking a lock that is held for a few instructions.
//!
//! *The reason.* A thread that finds such a lock held should neither sleep nor look again at once. To sleep and be woken takes a
//! hundred times as long as the lock is held. And each look takes the lock's line of the processor's cache away from the thread
//! that holds it, which then waits for the line before it can let go. So a thread pauses between two looks: once, then eight
//! times, then 64 times, and so on. Where the lock is asked for all the time, the thread that has the line makes many exchanges
//! meanwhile. One that still finds the lock held sleeps until it is free, so no time is lost where the holder doesn't run.

use std::hint::spin_loop;
use std::sync::{Mutex, MutexGuard, Wait};

// How often a thread pauses before it sleeps. The last pause is 4096 long, a fifth of a millisecond where one takes 140 cycles.
const PAUSES: u32 = 5;

// The processor pauses n times.
fn pause(times: u32) {
    for _ in 0..times {
        spin_loop();
    }
}

/// Takes the lock, and waits for it.
#[inline]
pub fn lock_briefly<'a, T, R: Wait>(rt: &R, lock: &'a Mutex<T>) -> MutexGuard<'a, T> {
    match lock.try_lock() {
        Some(guard) => guard,
        None => wait_briefly(rt, lock),
    }
}

// The same where another thread had it. It is kept apart, so that the other stays short.
#[inline(never)]
fn wait_briefly<'a, T, R: Wait>(rt: &R, lock: &'a Mutex<T>) -> MutexGuard<'a, T> {
    for paused in 0..PAUSES {
        pause(1 << (3 * paused));
        if let Some(guard) = lock.try_lock() {
            return guard;
        }
    }
    lock.lock(rt)
}
