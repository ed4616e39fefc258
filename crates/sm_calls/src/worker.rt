//! A worker serves the messages in its inbox.
use crate::gate::Gate;
use crate::message::Message;
use crate::network::Network;
use sm_body::service::Service;
use sm_inbox::{Inbox, Parcel};
use std::sync::Wait;

/// Serves messages until it is told to stop.
pub fn work<S: Service, G: Gate, R: Wait>(
    rt: &R,
    inbox: &Inbox<Message<S>>,
    network: &Network<Message<S>>,
    gate: &G,
) {
    let server = inbox.server;
    let tally = network.tally(server);
    for _ in rt.forever() {
        match inbox.next(rt) {
            Ok(Parcel::Serve(message)) => {
                gate.pass(rt, server, message.number());
                message.serve(rt, network, tally);
            }
            Ok(Parcel::Stop) => return,
            Err(_) => return,
        }
    }
}
