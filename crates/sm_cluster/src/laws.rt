//! The meaning of calls' answers for their users.
ghost use Rattle.std.specs.Prelude.{◌≡◌, ◌<◌, ℕ, List, Option, Some, false, slice_get, take};
ghost use mathlib.Core.Option.{some};
ghost use lib.ListN.{get_elem?};
ghost use Rattle.sm_body.specs.Service.{Meaning, meaning_of};
ghost use Rattle.sm_ownership.specs.declared.entry.Entry.{Entry};
ghost use Rattle.sm_ownership.specs.declared.mode.Mode.{Mode};
ghost use Rattle.sm_ownership.specs.declared.record.Record.{Record};
ghost use Rattle.sm_ownership.specs.History.{all_of};
ghost use Rattle.sm_ranges.specs.Ranges.{shard_of};
ghost use Rattle.sm_rule.specs.Bodies.{Keeps};
ghost use Rattle.sm_rule.specs.Views.{Begins};
ghost use Rattle.sm_server.specs.Answers.{AnswerValue, IsAnswer};
ghost use Rattle.sm_calls.specs.Calls.{ClientValue, Gives};
ghost use Rattle.sm_cluster.specs.Clusters.{ClusterValue, WasStopped};

use sm_body::service::Service;

/// If a client has learned an answer, its next request to that shard gets a later place, and reads the client's own
/// writes: the reply is that after requests among which the learned one is at its place, across every migration.
pub fn answers_come_in_order<Q, R>()
    ensures { (service : Meaning Q R) (earlier later : ClientValue Q) (number next_number : ℕ) (request next : Q)
        (learned answer : AnswerValue Q R)
        → Gives service earlier number request learned → Begins learned.note.seen later.pass.seen
        → Gives service later next_number next answer
        → shard_of later.bounds (service.key_of next) ≡ shard_of earlier.bounds (service.key_of request)
        → let shard = shard_of later.bounds (service.key_of next) in
        let before = take answer.place (all_of answer.note.seen shard) in
        (learned.place < answer.place) × (slice_get before learned.place ≡ Some request)
        × (answer.reply ≡ service.reply_of before next) }
{}

/// If one history extends the notes of two answers of one shard at one place, they answer the same request with the
/// same reply, whoever got them.
pub fn answers_agree<Q, R>()
    ensures { (service : Meaning Q R) (shard : ℕ) (mode other_mode : Mode) (request other_request : Q)
        (answer other : AnswerValue Q R) (history : List (Entry Q))
        → IsAnswer service shard mode request answer → IsAnswer service shard other_mode other_request other
        → Begins answer.note.seen history → Begins other.note.seen history
        → answer.place ≡ other.place
        → (request ≡ other_request) × (answer.reply ≡ other.reply) }
{}

/// Nothing acknowledged is lost: if a client came back, each answer that it had learned is among the requests on which
/// the shard's body in the stop's result rests.
pub fn answers_last<S: Service>()
    ensures { (cluster : ClusterValue S.Request) (clients : List (ClientValue S.Request))
        (rows : List (Record × Option S))
        (client : ClientValue S.Request) (at shard : ℕ) (mode : Mode) (request : S.Request)
        (answer : AnswerValue S.Request S.Reply) (row : Record × Option S)
        → let keeps = Keeps S.initial S.next S.base S.before S.requests in
        WasStopped keeps S.limit cluster clients rows → slice_get clients at ≡ Some client
        → IsAnswer (meaning_of S.initial S.next S.answer S.key_of) shard mode request answer
        → Begins answer.note.seen client.pass.seen
        → get_elem? rows shard ≡ some row → row.0.admitted ≡ false
        → (body : S) × (first : ℕ) × (all : List S.Request) × (row.1 ≡ Some body) × keeps body first all
        × (slice_get all answer.place ≡ Some request) }
{}
