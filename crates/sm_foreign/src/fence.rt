ghost use Rattle.std.specs.Prelude.{◌≡◌, ◌<◌, ◌≤◌, ◌+◌, IfNone, IfSome};
ghost use Rattle.sm_ownership.specs.declared.record.TheConstants.{MAX_GENERATION};
ghost use Rattle.sm_foreign.specs.declared.fence.TheConstants.{MAX_AFTER};

/// The greatest number after which the fencing tokens of a board may begin. So each token has 63 bits, as the numbers
/// of databases.
pub const MAX_AFTER: u64 = (1 << 63) - (1 << 36);

/// The number after which the fencing tokens of a board begin: no token of an earlier board is greater.
#[derive(Clone, Copy, Drop)]
pub struct Fence {
    pub after: u64,
    ghost low: { after ≤ MAX_AFTER },
}

impl Fence {
    /// Returns the fence of a board that no other came before.
    pub fn first() -> Fence
        ensures { result.after ≡ 0 }
    {
        Fence { after: 0 }
    }

    /// Returns the fence after this number, if there is room for tokens above it.
    pub fn new(after: u64) -> Option<Fence>
        ensures some { IfSome result (λ fence. fence.after ≡ after) }
        ensures none { IfNone result (MAX_AFTER < after) }
    {
        if after > MAX_AFTER {
            return None;
        }
        Some(Fence { after })
    }

    /// Returns the fencing token of this generation.
    pub fn token(&self, generation: u64) -> u64
        requires { generation ≤ MAX_GENERATION }
        ensures { result ≡ self.now.after + generation }
    {
        self.after + generation
    }
}
