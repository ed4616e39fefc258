//! The answers to calls that a cluster refused.
ghost use Rattle.std.specs.Prelude.{◌≡◌, IfOk, OnErr, None, Some};
ghost use Rattle.std.specs.Option.{option_map};
ghost use Rattle.sm_script.specs.declared.refused.Refused.TheVariants.{Command as CommandRefused};
ghost use Rattle.sm_threads.specs.Calls.{may_answer};
ghost use Rattle.sm_threads.specs.Refusals.{admit_refused, begin_fault, call_refused};
ghost use Rattle.sm_threads.specs.Refusals.{hold_refused, publish_refused};

use sm_cluster::{AdmitRefusal, CallFault, HoldFault, Refusal, StartFault};
use sm_desk::CommandFault;
use sm_lines::BeginFault;
use sm_ownership::route::Route;
use sm_ownership::route_fault::RouteFault;
use sm_script::{LineAnswer, Refused};
use sm_settings::SettingsFault;
use std::alloc::AllocError;

/// Returns why no session could begin, if its cluster was not started.
pub(crate) fn begin_fault(fault: StartFault) -> BeginFault
    ensures { result ≡ begin_fault fault }
{
    match fault {
        StartFault::TooManyWorkers => BeginFault::Settings(SettingsFault::TooManyWorkers),
        StartFault::NoMemory => BeginFault::NoMemory,
        StartFault::NoThread => BeginFault::NoThread,
    }
}

/// Returns the answer to a command.
pub(crate) fn command_answer(made: Result<(), CommandFault>) -> LineAnswer
    ensures { may_answer (λ fault. Some (CommandRefused fault)) made ≡ Some result }
{
    match made {
        Ok(()) => LineAnswer::Made,
        Err(fault) => LineAnswer::Refused(Refused::Command(fault)),
    }
}

/// Returns the refusal of an admission.
fn admit_refused(refusal: AdmitRefusal) -> Refused
    ensures { result ≡ admit_refused refusal }
{
    match refusal {
        AdmitRefusal::Refused(fault, _) => Refused::Admit(fault),
        AdmitRefusal::Raced { .. } => Refused::Raced,
    }
}

/// Returns the answer to a hold, to its end or to a checkpoint; an error is want of memory.
pub(crate) fn hold_answer<T: Copy + Drop>(
    made: Result<T, HoldFault>,
) -> Result<LineAnswer, AllocError>
    ensures ok { IfOk result (λ answer. may_answer hold_refused made ≡ Some answer) }
    ensures err { OnErr result (may_answer hold_refused made ≡ None) }
{
    match made {
        Ok(_) => Ok(LineAnswer::Made),
        Err(HoldFault::UnknownShard) => Ok(LineAnswer::Refused(Refused::UnknownShard)),
        Err(HoldFault::UnknownServer) => Ok(LineAnswer::Refused(Refused::UnknownServer)),
        Err(HoldFault::Admit(refusal)) => Ok(LineAnswer::Refused(admit_refused(refusal))),
        Err(HoldFault::NotHeld) => Ok(LineAnswer::Refused(Refused::NotHeld)),
        Err(HoldFault::NoMemory) => Err(AllocError),
    }
}

/// Returns the answer to a publication; an error is want of memory.
pub(crate) fn publish_answer(made: Result<Route, RouteFault>) -> Result<LineAnswer, AllocError>
    ensures ok { IfOk result (λ answer. may_answer publish_refused made ≡ Some answer) }
    ensures err { OnErr result (may_answer publish_refused made ≡ None) }
{
    match made {
        Ok(_) => Ok(LineAnswer::Made),
        Err(RouteFault::UnknownShard) => Ok(LineAnswer::Refused(Refused::UnknownShard)),
        Err(RouteFault::WrongPhase) => Ok(LineAnswer::Refused(Refused::WrongPhase)),
        Err(RouteFault::OldRoute) => Ok(LineAnswer::Refused(Refused::OldRoute)),
        Err(RouteFault::NoMemory) => Err(AllocError),
    }
}

/// Returns the answer to a request that was not answered; an error is want of memory.
pub(crate) fn call_refused(fault: CallFault) -> Result<LineAnswer, AllocError>
    ensures ok { IfOk result (λ answer. option_map LineAnswer.Refused (call_refused fault) ≡ Some answer) }
    ensures err { OnErr result (call_refused fault ≡ None) }
{
    match fault {
        CallFault::NoRoute => Ok(LineAnswer::Refused(Refused::NoRoute)),
        CallFault::Unreachable => Ok(LineAnswer::Refused(Refused::Unreachable)),
        CallFault::Refused(refusal) => request_refused(refusal),
        CallFault::NoMemory => Err(AllocError),
        CallFault::Closed => Ok(LineAnswer::Refused(Refused::Closed)),
    }
}

/// Returns the answer to a request that a server refused; an error is want of memory.
fn request_refused(refusal: Refusal) -> Result<LineAnswer, AllocError>
    ensures ok { IfOk result (λ answer.
        option_map LineAnswer.Refused (call_refused (CallFault.Refused refusal)) ≡ Some answer) }
    ensures err { OnErr result (call_refused (CallFault.Refused refusal) ≡ None) }
{
    match refusal {
        Refusal::WrongShard => Ok(LineAnswer::Refused(Refused::WrongShard)),
        Refusal::TooManyHops => Ok(LineAnswer::Refused(Refused::TooManyHops)),
        Refusal::Admit(refusal) => Ok(LineAnswer::Refused(admit_refused(refusal))),
        Refusal::KeptFull => Ok(LineAnswer::Refused(Refused::KeptFull)),
        Refusal::NoMemory => Err(AllocError),
    }
}
