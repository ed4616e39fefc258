use std::alloc::AllocError;
use std::fmt;
use thiserror::Error;

/// Why a settings line is refused, in the order of the checks. `NoMemory` may come in place of any other result, also
/// of a correct line's settings, except for `TooLong`.
#[derive(Clone, Copy, Debug, PartialEq, Eq, Drop, Error)]
pub enum SettingsFault {
    /// The line has more than 1,048,576 bytes.
    TooLong,
    /// The line is not one JSON value in UTF-8, nests deeper than 127, or holds a number too large for a float.
    BadJson,
    /// The value is no object with the number 1 or 2 as its member `version`.
    BadVersion,
    /// A member is missing, unknown or of another type, here or in a row.
    BadShape,
    /// The bounds are no layout.
    BadLayout,
    /// The servers break a rule.
    BadServers,
    /// The groups break a rule.
    BadGroups,
    /// The shards break a rule.
    BadShards,
    /// `ops` is not 0 to 4,095.
    BadOps,
    /// `kept` is not 1 to 1,048,576.
    BadKept,
    /// `ceiling` is not 3 to 68,719,476,735.
    BadCeiling,
    /// `workers` is not 1 to 8.
    BadWorkers,
    /// The domains break a rule.
    BadDomains,
    /// All servers together would have more workers than an engine runs. [`Settings::read`](crate::Settings::read)
    /// never returns it.
    TooManyWorkers,
    /// Memory was refused. The line isn't too long, but it isn't known whether it has another fault.
    NoMemory,
}

impl SettingsFault {
    ghost use Rattle.std.specs.Prelude.{◌≡◌};
    ghost use Rattle.sm_settings.specs.SettingsFault.{settings_fault_name};

    /// Returns the fault as it is written in the answer to a settings line.
    pub fn as_str(self) -> &'static str
        ensures { result.now ≡ settings_fault_name self }
    {
        match self {
            SettingsFault::TooLong => "TooLong",
            SettingsFault::BadJson => "BadJson",
            SettingsFault::BadVersion => "BadVersion",
            SettingsFault::BadShape => "BadShape",
            SettingsFault::BadLayout => "BadLayout",
            SettingsFault::BadServers => "BadServers",
            SettingsFault::BadGroups => "BadGroups",
            SettingsFault::BadShards => "BadShards",
            SettingsFault::BadOps => "BadOps",
            SettingsFault::BadKept => "BadKept",
            SettingsFault::BadCeiling => "BadCeiling",
            SettingsFault::BadWorkers => "BadWorkers",
            SettingsFault::BadDomains => "BadDomains",
            SettingsFault::TooManyWorkers => "TooManyWorkers",
            SettingsFault::NoMemory => "NoMemory",
        }
    }
}

impl fmt::Display for SettingsFault {
    ghost use Rattle.std.specs.Prelude.{Some};
    ghost use Rattle.sm_settings.specs.SettingsFault.{settings_fault_name};

    ghost output = { λ fault. Some (settings_fault_name fault) };

    fn fmt<W: fmt::Write>(&self, f: &mut fmt::Formatter<W>) -> fmt::Result {
        f.write_str(self.as_str())
    }
}

impl From<AllocError> for SettingsFault {
    ghost use Rattle.std.specs.Prelude.{◌≡◌};
    ghost use Rattle.sm_settings.specs.declared.settings_fault.SettingsFault.TheVariants.{NoMemory};

    ghost from_gives = { λ _ fault. fault ≡ NoMemory };

    fn from(_error: AllocError) -> SettingsFault {
        SettingsFault::NoMemory
    }
}
