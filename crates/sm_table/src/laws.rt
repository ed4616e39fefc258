//! Laws of the definitions, which hold of every list of steps, and of every history.

ghost use Rattle.std.specs.Prelude.{◌≡◌, ℕ, Some, Ok, List, ◌∷◌, ◌++◌, length, map};
ghost use Rattle.sm_ownership.specs.declared.entry.Entry.{Entry};
ghost use Rattle.sm_ownership.specs.declared.route.Route.{Route};
ghost use Rattle.sm_ownership.specs.History.{IsLegal, all_of, said};
ghost use Rattle.sm_table.specs.declared.step.Step.{Step};
ghost use Rattle.sm_table.specs.declared.step.Step.TheVariants.{Finish};
ghost use Rattle.sm_table.specs.declared.world_answer.WorldAnswer.TheVariants.{Replied};
ghost use Rattle.sm_table.specs.Standing.{IsFrame, world_table};
ghost use Rattle.sm_body.specs.Service.{Meaning};
ghost use Rattle.sm_table.specs.World.{Frame, Mark, answer, world_of};
ghost use Rattle.sm_desk.specs.Desk.{stands_of};
ghost use Rattle.sm_place.specs.Room.{HasRoom};
ghost use Rattle.sm_tasks.specs.Caps.{MeetsCaps};

use sm_desk::laws::{commands_keep_caps, commands_keep_soundness};
pub use sm_ownership::laws::{
    accepted_is_admitted, admission_extends_history, admission_refused_exactly, all_grows,
    change_extends_history, change_refused_exactly, end_extends_history, executor_admitted,
    generation_counts_entries, generation_within_ceiling, kept_ends_all, kept_grows, legal_prefix,
    no_phase_refuses, one_admission, same_generation_same_record, two_servers,
};

/// After any steps, the history that they make is legal.
pub fn legal_history<Q, R>()
    ensures { (service : Meaning Q R) (frame : Frame) (steps : List (Mark × Step Q)) → IsFrame frame
        → IsLegal (length frame.bounds) frame.ceiling (world_of service frame steps).history }
{}

/// Further steps only add to the history.
pub fn history_grows<Q, R>()
    ensures { (service : Meaning Q R) (frame : Frame) (steps later : List (Mark × Step Q))
        → (added : List (Entry Q))
        × ((world_of service frame (steps ++ later)).history ≡ (world_of service frame steps).history ++ added) }
{}

/// Further steps only add to the publications.
pub fn publications_grow<Q, R>()
    ensures { (service : Meaning Q R) (frame : Frame) (steps later : List (Mark × Step Q))
        → (more : List Route)
        × ((world_of service frame (steps ++ later)).publications ≡ (world_of service frame steps).publications
        ++ more) }
{}

/// After any steps, the place of a reply comes after all earlier requests of its shard, and one run of the shard's
/// requests gives the reply at that place. This stays so after any further steps.
pub fn one_run<Q, R>()
    ensures { (service : Meaning Q R) (frame : Frame) (steps later : List (Mark × Step Q)) (mark : Mark) (step : Step Q)
        (number server : ℕ) (reply : R) (place : ℕ)
        → let before = world_of service frame steps in
        let after = world_of service frame (steps ++ (mark, step) ∷ later) in
        answer service before mark step ≡ Ok (Replied number server reply place)
        → (shard : ℕ) × (step ≡ Finish shard)
        × (place ≡ length (all_of before.history shard))
        × (said service.reply_of after.history shard place ≡ Some reply) }
{}

/// After any steps, the desk has the stands of the table, there is room for the shards, and the caps of approved
/// restarts hold.
pub fn caps_and_room_hold<Q, R>()
    ensures stands { (service : Meaning Q R) (frame : Frame) (steps : List (Mark × Step Q)) → IsFrame frame
        → let w = world_of service frame steps in
        stands_of w.desk ≡ map (λ state. state.stand) (world_table w) }
    ensures room { (service : Meaning Q R) (frame : Frame) (steps : List (Mark × Step Q)) → IsFrame frame
        → let books = (world_of service frame steps).desk.books in
        HasRoom books.servers books.groups books.shards }
    ensures caps { (service : Meaning Q R) (frame : Frame) (steps : List (Mark × Step Q)) → IsFrame frame
        → MeetsCaps frame.start.caps (world_of service frame steps).desk.books }
{
    commands_keep_caps();
    commands_keep_soundness();
}
