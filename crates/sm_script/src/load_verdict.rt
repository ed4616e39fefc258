ghost use Rattle.std.specs.Prelude.{◌≡◌};
ghost use Rattle.sm_script.specs.Answers.{load_verdict_name};

/// The verdict by the counts of a load.
#[derive(Clone, Copy, PartialEq, Eq, Drop)]
pub enum LoadVerdict {
    /// Each addition was acknowledged or refused, and the count grew by those that were acknowledged.
    Agrees,
    /// The count could not be read before or after the additions.
    Unknown,
    /// The count did not grow by the additions that were acknowledged.
    Differs,
}

impl LoadVerdict {
    /// Returns the name of the verdict in an answer.
    pub fn name(self) -> &'static str
        ensures { result.now ≡ load_verdict_name self }
    {
        match self {
            LoadVerdict::Agrees => "ok",
            LoadVerdict::Unknown => "unknown",
            LoadVerdict::Differs => "wrong",
        }
    }
}
