//! The doors to the inboxes of servers.
ghost use Rattle.std.specs.Prelude.{◌≡◌, IfErr};

use crate::parcel::Parcel;
use crate::unsent::{SendFault, Unsent};
use crossbeam_channel::{SendError, Sender};
use std::sync::Wait;
use std::sync::atomic::{AtomicBool, Ordering};
use std::thread;

/// The door to an inbox, through which messages are sent.
#[derive(Drop)]
pub struct Door<M: Drop> {
    is_open: AtomicBool,
    inbox: Sender<Parcel<M>>,
}

impl<M: Drop> Door<M> {
    /// Makes an open door to the inbox into which this sends.
    pub(crate) fn new(inbox: Sender<Parcel<M>>) -> Door<M> {
        Door {
            is_open: AtomicBool::new(true),
            inbox,
        }
    }

    /// Returns whether the door is open.
    pub fn is_open(&self) -> bool {
        self.is_open.load(Ordering::SeqCst)
    }

    /// Opens or shuts the door.
    pub fn set_open(&self, is_open: bool) {
        self.is_open.store(is_open, Ordering::SeqCst);
    }

    /// Puts the message into the inbox, or gives it back: with `Unreachable` if nobody has the inbox, or `NoMemory` if
    /// memory was refused. It doesn't check whether the door is open.
    pub fn send<R: Wait>(&self, rt: &R, message: M) -> Result<(), Unsent<M>>
        ensures { IfErr result (λ unsent. unsent.message ≡ message) }
    {
        match self.inbox.send(rt, Parcel::Serve(message)) {
            Ok(()) => Ok(()),
            Err(SendError::Disconnected(Parcel::Serve(message))) => Err(Unsent {
                fault: SendFault::Unreachable,
                message,
            }),
            Err(SendError::OutOfMemory(Parcel::Serve(message))) => Err(Unsent {
                fault: SendFault::NoMemory,
                message,
            }),
            Err(_) => unreachable!(),
        }
    }

    /// Puts a word to stop into the inbox. If memory for it is refused, it waits until a worker has made room. The
    /// inbox has room for the words to all workers.
    pub fn tell_to_stop<R: Wait>(&self, rt: &R) {
        for _ in rt.forever() {
            match self.inbox.send(rt, Parcel::Stop) {
                Ok(()) => return,
                Err(SendError::Disconnected(_)) => return,
                Err(SendError::OutOfMemory(_)) => thread::yield_now(),
            }
        }
    }
}
