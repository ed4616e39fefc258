ghost use Rattle.std.specs.Prelude.{◌≡◌, ◌<◌, ◌↔◌, IsSome, IfSome};

/// A control that was elected, and the revision of its election.
#[derive(Clone, Copy, Drop)]
pub struct Leadership {
    pub process: u64,
    pub elected: u64,
}

impl Leadership {
    /// Returns the control that was elected at this revision. Returns nothing for revision 0, at which nobody is
    /// elected.
    pub fn new(process: u64, elected: u64) -> Option<Leadership>
        ensures exact { IsSome result ↔ 0 < elected }
        ensures values { IfSome result (λ lead. (lead.process ≡ process) × (lead.elected ≡ elected)) }
    {
        if elected > 0 {
            Some(Leadership { process, elected })
        } else {
            None
        }
    }
}
