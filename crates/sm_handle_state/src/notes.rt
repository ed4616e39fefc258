//! How passes in handles tell each other how much they have seen.
ghost use Rattle.std.specs.Prelude.{◌≡◌, IfErr, IfNone, IfOk, IfSome, None, Some};
ghost use Rattle.sm_handle_state.specs.declared.handle_state.HandleState.TheVariants.{Pass as Passing};
ghost use Rattle.sm_handle_state.specs.Notes.{AreOfOneBoard, IsSplitFrom, MeetsHandle, SplitsNothing, TellsNothing};

use crate::act_fault::ActFault;
use crate::handle_state::HandleState;
use sm_foreign::ForeignPass;

/// Returns a new pass with the server of the state's pass, which has seen all that that has.
pub fn split_of(state: &mut HandleState) -> Result<HandleState, ActFault>
    ensures unchanged { state.new ≡ state.old }
    ensures made { IfOk result (λ pass. IsSplitFrom (Some state.old) (Some pass)) }
    ensures refused { IfErr result (SplitsNothing (Some state.old)) }
{
    match state {
        HandleState::Pass(pass) if pass.held.is_free() => match pass.split() {
            Ok(new) => Ok(HandleState::Pass(new)),
            Err(_) => Err(ActFault::NoMemory),
        },
        HandleState::TextPass(pass) => match pass.split() {
            Ok(new) => Ok(HandleState::TextPass(new)),
            Err(_) => Err(ActFault::NoMemory),
        },
        _ => Err(ActFault::WrongHandle),
    }
}

/// Tells the state's pass everything that the other state has seen. If the other one can't tell it anything, gives it
/// back.
pub fn meet_in(state: &mut HandleState, other: HandleState) -> Option<HandleState>
    requires { AreOfOneBoard (Some state.old) (Some other) }
    ensures met { IfNone result (MeetsHandle (Some state.old) (Some other) (Some state.new)) }
    ensures apart { IfSome result (λ back. TellsNothing (Some state.old) (Some other)) }
    ensures refused { IfSome result (λ back. (back ≡ other) × (state.new ≡ state.old)) }
{
    match other {
        HandleState::Pass(told) => match meet_pass(state, told) {
            None => None,
            Some(told) => Some(HandleState::Pass(told)),
        },
        HandleState::TextPass(told) => {
            let HandleState::TextPass(pass) = state else {
                return Some(HandleState::TextPass(told));
            };
            pass.meet(told);
            None
        }
        HandleState::Answer(answer) => {
            let HandleState::TextPass(pass) = state else {
                return Some(HandleState::Answer(answer));
            };
            let (_, note) = answer.parts();
            pass.hear(note);
            None
        }
        other => Some(other),
    }
}

// Does the same for a pass to foreign bodies.
fn meet_pass(state: &mut HandleState, told: ForeignPass) -> Option<ForeignPass>
    requires { AreOfOneBoard (Some state.old) (Some (Passing told)) }
    ensures met { IfNone result (MeetsHandle (Some state.old) (Some (Passing told)) (Some state.new)) }
    ensures apart { IfSome result (λ back. TellsNothing (Some state.old) (Some (Passing told))) }
    ensures refused { IfSome result (λ back. (back ≡ told) × (state.new ≡ state.old)) }
{
    let HandleState::Pass(pass) = state else {
        return Some(told);
    };
    if !pass.held.is_free() || !told.held.is_free() {
        return Some(told);
    }
    pass.held.meet(told.into_held());
    None
}
