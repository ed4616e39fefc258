use sm_ownership::admit_fault::AdmitFault;
use sm_rule::admit_refusal::AdmitRefusal;
use sm_server::{Outcome, Refusal};

/// How many fates there are.
pub const FATES: usize = 14;

/// The fate of an envelope that came to a server, as its counters tell it.
#[derive(Clone, Copy, PartialEq, Eq, Drop)]
pub enum Fate {
    /// It was answered.
    Answered,
    /// It was sent on to another server.
    Forwarded,
    /// It was refused: the board has no such shard, or the key is another shard's.
    WrongShard,
    /// It was refused because the request had been forwarded as often as allowed.
    TooManyHops,
    /// It was refused because the shard had no owner.
    Vacant,
    /// It was refused: the shard was paused.
    Paused,
    /// It was refused: the server didn't execute the shard's requests.
    NotExecutor,
    /// It was refused because the server so far executed only forwarded requests of the owner.
    NotYet,
    /// It was refused: a server was admitted already.
    Admitted,
    /// It was refused because the shard's generation had no room for an admission and its end.
    Spent,
    /// Another actor was quicker between the server's look and its admission. Such an envelope doesn't go back: the
    /// server serves it again, and counts it again.
    Raced,
    /// It was refused: the shard kept as many requests as it may.
    KeptFull,
    /// It was refused: memory for the request was refused.
    NoMemory,
    /// It found the server's door shut, and reached no worker.
    Unreachable,
}

impl Fate {
    ghost use Rattle.std.specs.Prelude.{◌≡◌};
    ghost use Rattle.sm_counts.specs.Fates.{fate_of, fate_of_fault, fate_of_refusal};

    /// Every refusal, with the name that a user reads.
    pub const REFUSALS: [(Fate, &'static str); 12] = [
        (Fate::WrongShard, "WrongShard"),
        (Fate::TooManyHops, "TooManyHops"),
        (Fate::Vacant, "Vacant"),
        (Fate::Paused, "Paused"),
        (Fate::NotExecutor, "NotExecutor"),
        (Fate::NotYet, "NotYet"),
        (Fate::Admitted, "Admitted"),
        (Fate::Spent, "Spent"),
        (Fate::Raced, "Raced"),
        (Fate::KeptFull, "KeptFull"),
        (Fate::NoMemory, "NoMemory"),
        (Fate::Unreachable, "Unreachable"),
    ];

    /// Returns the fate of an envelope by the outcome of the server's step on it.
    pub fn of<A, E>(outcome: &Outcome<A, E>) -> Fate
        ensures { result ≡ fate_of outcome.now }
    {
        match outcome {
            Outcome::Answered(_) => Fate::Answered,
            Outcome::Forward(_, _) => Fate::Forwarded,
            Outcome::Refused(refusal, _) => Fate::of_refusal(*refusal),
        }
    }

    fn of_refusal(refusal: Refusal) -> Fate
        ensures { result ≡ fate_of_refusal refusal }
    {
        match refusal {
            Refusal::WrongShard => Fate::WrongShard,
            Refusal::TooManyHops => Fate::TooManyHops,
            Refusal::Admit(AdmitRefusal::Refused(fault, _)) => Fate::of_fault(fault),
            Refusal::Admit(AdmitRefusal::Raced { .. }) => Fate::Raced,
            Refusal::KeptFull => Fate::KeptFull,
            Refusal::NoMemory => Fate::NoMemory,
        }
    }

    fn of_fault(fault: AdmitFault) -> Fate
        ensures { result ≡ fate_of_fault fault }
    {
        match fault {
            AdmitFault::Vacant => Fate::Vacant,
            AdmitFault::Paused => Fate::Paused,
            AdmitFault::NotExecutor => Fate::NotExecutor,
            AdmitFault::NotYet => Fate::NotYet,
            AdmitFault::Admitted => Fate::Admitted,
            AdmitFault::Spent => Fate::Spent,
        }
    }
}
