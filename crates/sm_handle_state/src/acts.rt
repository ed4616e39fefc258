//! The effects of calls on the state of a handle.
ghost use Rattle.std.specs.Prelude.{◌≡◌, IfErr, IfOk, Some};
ghost use Rattle.sm_handle_state.specs.Acts.{AdmitsState, CommandsState, EndsState, GivesNoPass, HoldsNothing};
ghost use Rattle.sm_handle_state.specs.Acts.{IsPassOfState, LooksNowhere, RefusesState, TellsToken, TellsWord};

use crate::act_fault::ActFault;
use crate::handle_state::HandleState;
use sm_desk::Command;
use sm_foreign::PassFault;
use sm_ownership::mode::Mode;
use sm_ranges::server_id::ServerId;
use sm_ranges::shard_id::ShardId;

/// Admits the state's pass to the shard: the number of its body; or why not.
#[inline(always)]
pub fn admit(state: &mut HandleState, k: ShardId, mode: Mode) -> Result<u64, ActFault>
    ensures admitted { IfOk result (AdmitsState state.old state.new k mode) }
    ensures refused { IfErr result (RefusesState state.old state.new k mode) }
{
    let HandleState::Pass(pass) = state else {
        return Err(ActFault::WrongHandle);
    };
    if !pass.held.is_free() {
        return Err(ActFault::WrongHandle);
    }
    if u32::from(k.number()) >= pass.held.count() {
        return Err(ActFault::UnknownShard);
    }
    match pass.held.admit(k, mode) {
        Ok(number) => Ok(number),
        Err(refusal) => Err(ActFault::Admit(refusal)),
    }
}

/// Ends the admission of the state's pass: the generation that this leaves; or why not, and the state is as it was.
pub fn finish(state: &mut HandleState) -> Result<u64, ActFault>
    ensures ended { IfOk result (EndsState state.old state.new) }
    ensures refused { IfErr result (λ fault. (fault ≡ ActFault.WrongHandle) × HoldsNothing (Some state.old)) }
    ensures kept { IfErr result (λ fault. state.new ≡ state.old) }
{
    match state {
        HandleState::Pass(pass) => match pass.held.finish() {
            Some(front) => Ok(front.generation),
            None => Err(ActFault::WrongHandle),
        },
        _ => Err(ActFault::WrongHandle),
    }
}

/// Returns the fencing token of the admission of the state's pass. If there is none, returns why.
pub fn token(state: &HandleState) -> Result<u64, ActFault>
    ensures told { IfOk result (TellsToken (Some state.now)) }
    ensures refused { IfErr result (λ fault. (fault ≡ ActFault.WrongHandle) × HoldsNothing (Some state.now)) }
{
    match state {
        HandleState::Pass(pass) => match pass.token() {
            Some(token) => Ok(token),
            None => Err(ActFault::WrongHandle),
        },
        _ => Err(ActFault::WrongHandle),
    }
}

/// Returns the word of the shard's record after a look by the state's pass; or why not, and the state is as it was.
pub fn look(state: &mut HandleState, k: ShardId) -> Result<u64, ActFault>
    ensures seen { IfOk result (TellsWord (Some state.old) (Some state.new) k) }
    ensures refused { IfErr result (LooksNowhere (Some state.old) k) }
    ensures kept { IfErr result (λ fault. state.new ≡ state.old) }
{
    match state {
        HandleState::Pass(pass) => {
            if u32::from(k.number()) >= pass.held.count() {
                return Err(ActFault::UnknownShard);
            }
            Ok(pass.held.look_word(k))
        }
        HandleState::TextPass(pass) => {
            if u32::from(k.number()) >= pass.count() {
                return Err(ActFault::UnknownShard);
            }
            Ok(pass.look_word(k))
        }
        _ => Err(ActFault::WrongHandle),
    }
}

/// Returns a new pass on the board of the state's control, with this server or none. If it can't, returns why.
pub fn pass(state: &HandleState, server: Option<ServerId>) -> Result<HandleState, ActFault>
    ensures made { IfOk result (IsPassOfState state.now server) }
    ensures refused { IfErr result (GivesNoPass (Some state.now) server) }
{
    match state {
        HandleState::Chief(chief) => match chief.pass(server) {
            Ok(pass) => Ok(HandleState::Pass(pass)),
            Err(PassFault::UnknownServer) => Err(ActFault::UnknownServer),
            Err(PassFault::NoMemory) => Err(ActFault::NoMemory),
        },
        HandleState::TextChief(chief) => match chief.pass(server) {
            Ok(free) => Ok(HandleState::TextPass(free)),
            Err(PassFault::UnknownServer) => Err(ActFault::UnknownServer),
            Err(PassFault::NoMemory) => Err(ActFault::NoMemory),
        },
        _ => Err(ActFault::WrongHandle),
    }
}

/// Gives the command to the state's control: it is made, or refused by the first fault that applies.
pub fn command(state: &mut HandleState, command: Command) -> Result<(), ActFault>
    ensures answer { CommandsState state.old state.new command result }
{
    match state {
        HandleState::Chief(chief) => match chief.held.command(command) {
            Ok(()) => Ok(()),
            Err(fault) => Err(ActFault::Command(fault)),
        },
        HandleState::TextChief(chief) => match chief.command(command) {
            Ok(()) => Ok(()),
            Err(refusal) => Err(ActFault::Command(refusal)),
        },
        _ => Err(ActFault::WrongHandle),
    }
}
