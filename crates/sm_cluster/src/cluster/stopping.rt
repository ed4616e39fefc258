//! The end of a cluster.
ghost use Rattle.std.specs.Arc.{arc_value};
ghost use Rattle.std.specs.Prelude.{◌≡◌, All, IfOk, None};
ghost use Rattle.sm_rule.specs.Bodies.{Keeps};
ghost use Rattle.sm_rule.specs.Closing.{WasClosed};
ghost use Rattle.sm_rule.specs.Views.{Begins};
ghost use Rattle.sm_cluster.specs.Clusters.{IsClientOf, WasStopped};

use super::Cluster;
use crate::stop_fault::StopFault;
use sm_body::service::Service;
use sm_calls::{Client, Ground};
use sm_control::Control;
use sm_ownership::record::Record;
use sm_rule::board::Board;
use sm_rule::pass::Pass;
use std::sync::{Arc, Wait};
use std::thread::Threads;

impl<S: Service> Cluster<S> {
    /// Shuts all doors, frees all holds, stops and joins the workers, and closes the board. Returns each shard's
    /// record, and the body of each idle shard, after one legal history. That history extends everything that the
    /// control had seen by entries of passes. It extends everything that the cluster told and that each of these
    /// clients had seen, and it has the end of each hold.
    pub fn stop<R: Threads + Wait>(
        self,
        rt: &R,
        clients: Vec<Client<S>>,
    ) -> Result<Vec<(Record, Option<S>)>, StopFault>
        requires clients { All (IsClientOf self) clients.items }
        ensures stopped { IfOk result (λ rows. WasStopped
            (Keeps S.initial S.next S.base S.before S.requests) S.limit self clients.items rows.items) }
    {
        let Cluster {
            ground,
            network,
            control,
            publisher,
            holds,
            teller,
            crew,
        } = self;
        network.shut();
        let mut closer = told(&ground.board, teller, clients);
        holds.end(&ground.board, &mut closer);
        crew.stop(rt, &*network);
        drop(network);
        publisher.end(rt);
        closed(ground, control, closer)
    }
}

// Returns the result of closing the board, unless a client still has it.
fn closed<S: Service>(
    ground: Arc<Ground<S>>,
    control: Control<S>,
    closer: Pass<S>,
) -> Result<Vec<(Record, Option<S>)>, StopFault>
    requires board { control.chair.board ≡ (arc_value ground).board }
    requires pass { closer.board ≡ (arc_value ground).board }
    requires free { closer.held ≡ None }
    ensures { IfOk result (λ rows. WasClosed
        (Keeps S.initial S.next S.base S.before S.requests) S.limit control.chair closer rows.items) }
{
    let (chair, _) = control.into_parts();
    match Arc::try_unwrap(ground) {
        Ok(ground) => {
            let Ground { board, layout: _ } = ground;
            Ok(board.close(chair, closer))
        }
        Err(_) => Err(StopFault::ClientOut),
    }
}

// Returns the teller, once it has seen everything that each of the clients has seen.
fn told<S: Service>(board: &Board<S>, teller: Pass<S>, clients: Vec<Client<S>>) -> Pass<S>
    requires board { teller.board ≡ board.now }
    requires clients { All (λ client. client.pass.board ≡ board.now) clients.items }
    ensures board { result.board ≡ board.now }
    ensures free { result.held ≡ teller.held }
    ensures told { Begins teller.seen result.seen }
    ensures seen { All (λ client. Begins client.pass.seen result.seen) clients.items }
{
    let mut closer = teller;
    for client in clients {
        board.meet(&mut closer, client.into_pass().into_note());
    }
    closer
}
