use sm_desk::Command;

/// How a control goes on.
#[derive(Clone, Copy, PartialEq, Eq, Drop)]
pub enum NextStep {
    /// With this command, which it doesn't refuse.
    Takes(Command),
    /// It goes on once others have read further, or the desk allows its command.
    Waits,
    /// Nothing is under way.
    Nothing,
}
