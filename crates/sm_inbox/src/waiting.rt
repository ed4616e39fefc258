//! How a thread waits for another thread that will soon be done, before it sleeps.
use std::{hint, thread};

/// How often a worker looks into an empty inbox, and a client for its reply, before it sleeps. If a message comes in
/// that time, no thread has to be woken. With half as many looks, clients of one shard slept three times as often.
pub const LOOKS: u32 = 32;

// After this many looks a thread no longer spins, but yields its processor, because the sender of the message may need
// that very processor to go on.
const SPINS: u32 = 4;

/// Waits after the look of this number, which found nothing. It spins twice as long as after the look before, or
/// yields.
pub fn pause(look: u32) {
    if look < SPINS {
        for _ in 0..1u32 << look {
            hint::spin_loop();
        }
    } else {
        thread::yield_now();
    }
}
