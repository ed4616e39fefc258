use sm_desk::CommandFault;
use thiserror::Error;

/// Why no control can be made from the readings. This can't happen in a store to which only controls write their
/// commands.
#[derive(Clone, Copy, Debug, PartialEq, Eq, Drop, Error)]
pub enum LoadFault {
    /// No commands lead to these stands and states. This is the first reason for which one is refused.
    #[error("no commands lead to what was read: {0}")]
    Unreached(CommandFault),
    /// There are records or states of another number, or others than commands lead to.
    #[error("the records or states aren't those to which commands lead")]
    Different,
}

impl From<CommandFault> for LoadFault {
    ghost use Rattle.std.specs.Prelude.{◌≡◌};
    ghost use Rattle.sm_lead.specs.declared.load_fault.LoadFault.TheVariants.{Unreached};

    ghost from_gives = { λ fault refused. refused ≡ Unreached fault };

    fn from(fault: CommandFault) -> LoadFault {
        LoadFault::Unreached(fault)
    }
}
