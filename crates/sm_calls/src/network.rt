//! The ways to the servers' inboxes.
ghost use Rattle.std.specs.Prelude.{◌≡◌, IfErr, IfOk, map};

use sm_counts::counters::Counters;
use sm_counts::counts::ServerCounts;
use sm_counts::tally::Tally;
use sm_inbox::{Door, Inbox, SendFault, Unsent, inbox_of};
use sm_ranges::server_id::ServerId;
use sm_rows::ServerRow;
use std::alloc::{AllocError, Global};
use std::sync::{Arc, Wait};

/// The doors of all servers, and the counters. Clients and workers share them.
#[derive(Drop)]
pub struct Network<M: Drop> {
    // The servers by ascending numbers, each with its door at the same place.
    servers: Vec<ServerId>,
    doors: Vec<Door<M>>,
    /// The counters.
    pub counters: Counters,
}

/// Makes the doors of these servers, all open, and their inboxes, each with room for as many parcels as its server has
/// workers; and counters for so many shards. The rows must have ascending numbers.
pub fn network_of<M: Drop, R: Wait>(
    rt: &R,
    alloc: Global,
    rows: &[ServerRow],
    shards: usize,
    workers: u32,
) -> Result<(Arc<Network<M>>, Vec<Inbox<M>>), AllocError>
    ensures { IfOk result
        (λ made. map (λ inbox. inbox.server) made.1.items ≡ map (λ row. row.id) rows.now) }
{
    let counters = Counters::new(alloc, rows.len(), shards)?;
    let mut network = Network {
        servers: Vec::new(alloc),
        doors: Vec::new(alloc),
        counters,
    };
    let inboxes = network.add_servers(rt, alloc, rows, workers)?;
    Ok((Arc::new(alloc, network)?, inboxes))
}

impl<M: Drop> Network<M> {
    // Adds the doors of these servers, and gives their inboxes.
    fn add_servers<R: Wait>(
        &mut self,
        rt: &R,
        alloc: Global,
        rows: &[ServerRow],
        workers: u32,
    ) -> Result<Vec<Inbox<M>>, AllocError>
        ensures { IfOk result
            (λ inboxes. map (λ inbox. inbox.server) inboxes.items ≡ map (λ row. row.id) rows.now) }
    {
        let mut inboxes = Vec::new(alloc);
        for row in rows {
            let (door, inbox) = inbox_of(rt, alloc, row.id, workers)?;
            self.servers.push(row.id)?;
            self.doors.push(door)?;
            inboxes.push(inbox)?;
        }
        Ok(inboxes)
    }

    /// Puts the message into the server's inbox, or gives it back: with `Unreachable` if the door is shut, and with
    /// `NoMemory` if memory was refused.
    pub(crate) fn send<R: Wait>(&self, rt: &R, to: ServerId, message: M) -> Result<(), Unsent<M>>
        ensures { IfErr result (λ unsent. unsent.message ≡ message) }
    {
        match self.open_door(to) {
            Some(door) => door.send(rt, message),
            None => Err(Unsent {
                fault: SendFault::Unreachable,
                message,
            }),
        }
    }

    /// Opens or shuts the server's door, if one is named.
    pub fn set_door(&self, door: Option<(ServerId, bool)>) {
        let Some((server, is_open)) = door else {
            return;
        };
        if let Some(door) = self.door(server) {
            door.set_open(is_open);
        }
    }

    /// Shuts all doors.
    pub fn shut(&self) {
        for door in &self.doors {
            door.set_open(false);
        }
    }

    /// Puts a word to stop into the server's inbox, be its door open or not.
    pub fn tell_to_stop<R: Wait>(&self, rt: &R, server: ServerId) {
        if let Some(door) = self.door(server) {
            door.tell_to_stop(rt);
        }
    }

    /// Returns the tally of the server.
    pub(crate) fn tally(&self, server: ServerId) -> Option<&Tally> {
        match self.servers.binary_search(&server) {
            Ok(at) => self.counters.tally(at),
            Err(_) => None,
        }
    }

    /// Returns the counts of each server.
    pub fn server_counts(&self, alloc: Global) -> Result<Vec<ServerCounts>, AllocError> {
        self.counters.servers(alloc, &self.servers)
    }

    // Returns the server's door, if it is open. A message that finds it shut is counted.
    fn open_door(&self, server: ServerId) -> Option<&Door<M>> {
        let door = self.door(server)?;
        if door.is_open() {
            return Some(door);
        }
        if let Some(tally) = self.tally(server) {
            tally.count_unreachable();
        }
        None
    }

    fn door(&self, server: ServerId) -> Option<&Door<M>> {
        match self.servers.binary_search(&server) {
            Ok(at) => self.doors.get(at),
            Err(_) => None,
        }
    }
}
