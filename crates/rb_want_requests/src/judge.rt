//! What is asked about steps.
ghost use Rattle.std.specs.Prelude.{ℕ, IfOk};

use rb_base::Height;
use std::alloc::AllocError;

/// What answers say of a step from the record at a trusted height to the header at another.
#[derive(Clone, Copy, PartialEq, Eq)]
pub enum StepJudgement {
    /// The client accepts it.
    Accepted,
    /// The client refuses it.
    Refused,
    /// The client refuses it, as it does each other step from this trusted height.
    Never,
    /// The node lacks an answer that it takes to judge the step.
    Gone,
    /// An answer that it takes to judge the step isn't there yet.
    Unknown,
}

/// Whoever judges steps by the answers that are there.
pub trait Judge {
    ghost use Rattle.rb_want_requests.specs.declared.judge.StepJudgement.{StepJudgement};

    // That the step from a trusted height to another is judged so.
    ghost judges: { Self → ℕ → ℕ → StepJudgement → Type 0 };

    /// What the answers say of a step. `AllocError` comes where a growth is refused.
    fn judge(&self, trusted: Height, height: Height) -> Result<StepJudgement, AllocError>
        ensures { IfOk result (judges self.now trusted height) };
}
