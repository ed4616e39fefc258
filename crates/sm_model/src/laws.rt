//! Laws of scripts on the model.

ghost use Rattle.std.specs.Prelude.{◌≡◌, List, [], true, is_some};
ghost use Rattle.sm_script.specs.declared.call.Call.{Call};
ghost use Rattle.sm_table.specs.Standing.{IsFrame};
ghost use Rattle.sm_table.specs.World.{Frame, empty_world};
ghost use Rattle.sm_model.specs.Calls.{answered, called, world_after_calls};

/// If no memory is refused, then after any calls of a script its next call has an answer, and leaves no request under
/// way.
pub fn every_call_answered()
    ensures { (frame : Frame) (calls : List Call) (call : Call) → IsFrame frame
        → let w = world_after_calls (empty_world frame) calls in
        (is_some (answered w call) ≡ true) × ((called w call).1.in_flight ≡ []) }
{}
