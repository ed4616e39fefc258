//! The inboxes of servers.
ghost use Rattle.std.specs.Prelude.{◌≡◌, IfOk};

use crate::door::Door;
use crate::parcel::Parcel;
use crate::waiting::{LOOKS, pause};
use crossbeam_channel::{Receiver, RecvError, Sender, unbounded};
use sm_ranges::server_id::ServerId;
use std::alloc::{AllocError, Global};
use std::sync::Wait;

/// The inbox of a server, which its workers share.
#[derive(Drop)]
pub struct Inbox<M: Drop> {
    pub server: ServerId,
    parcels: Receiver<Parcel<M>>,
}

/// Makes the inbox of a server, with room for this many parcels, and the open door to it.
pub fn inbox_of<M: Drop, R: Wait>(
    rt: &R,
    alloc: Global,
    server: ServerId,
    parcels: u32,
) -> Result<(Door<M>, Inbox<M>), AllocError>
    ensures { IfOk result (λ made. made.1.server ≡ server) }
{
    let (sender, receiver) = unbounded(alloc)?;
    make_room(rt, &sender, &receiver, parcels)?;
    Ok((
        Door::new(sender),
        Inbox {
            server,
            parcels: receiver,
        },
    ))
}

// Makes room in an inbox for this many parcels at once. The inbox keeps its room, so that a stop never has to wait for
// memory.
fn make_room<M: Drop, R: Wait>(
    rt: &R,
    sender: &Sender<Parcel<M>>,
    receiver: &Receiver<Parcel<M>>,
    parcels: u32,
) -> Result<(), AllocError> {
    for _ in 0..parcels {
        if sender.send(rt, Parcel::Stop).is_err() {
            return Err(AllocError);
        }
    }
    take_out(rt, receiver, parcels);
    Ok(())
}

// Takes this many parcels out of an inbox.
fn take_out<M: Drop, R: Wait>(rt: &R, receiver: &Receiver<Parcel<M>>, parcels: u32) {
    for _ in 0..parcels {
        let _ = receiver.try_recv(rt);
    }
}

impl<M: Drop> Inbox<M> {
    /// Returns the same inbox for one more worker.
    pub fn shared(&self) -> Result<Inbox<M>, AllocError>
        ensures { IfOk result (λ shared. shared.server ≡ self.now.server) }
    {
        Ok(Inbox {
            server: self.server,
            parcels: self.parcels.clone()?,
        })
    }

    /// Returns the next parcel. It looks several times before it waits.
    pub fn next<R: Wait>(&self, rt: &R) -> Result<Parcel<M>, RecvError> {
        for look in 0..LOOKS {
            if !self.parcels.is_empty() {
                break;
            }
            pause(look);
        }
        self.parcels.recv(rt)
    }
}
