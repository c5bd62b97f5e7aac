//! What a planner answers.
ghost use Rattle.std.specs.Prelude.{◌≡◌, IfOk};
ghost use Rattle.rb_plan_types.specs.Answer.{labelling_of, claim_of};

use crate::labelling::Labelling;
use crate::update::Update;
use std::alloc::{AllocError, Allocator, Global};

/// A list of updates that meets a goal, or that there is none; either way with labels that show it.
#[derive(Drop)]
pub enum Answer<A: Allocator = Global> {
    /// The list.
    Plan {
        updates: Vec<Update, A>,
        labelling: Labelling<A>,
    },
    /// No acceptable list meets the goal.
    Unreachable {
        labelling: Labelling<A>,
    },
}

impl<A: Allocator> Answer<A> {
    /// The labels.
    pub fn labelling(&self) -> &Labelling<A>
        ensures { result.now ≡ labelling_of self.now }
    {
        match self {
            Answer::Plan { labelling, .. } => labelling,
            Answer::Unreachable { labelling } => labelling,
        }
    }
}

impl<A: Allocator + Copy> Answer<A> {
    /// An equal answer, on the allocator of this one.
    pub fn copy(&self) -> Result<Answer<A>, AllocError>
        ensures claim { IfOk result (λ answer. claim_of answer ≡ claim_of self.now) }
        ensures labelling { IfOk result (λ answer. labelling_of answer ≡ labelling_of self.now) }
    {
        match self {
            Answer::Plan { updates, labelling } => Ok(Answer::Plan {
                updates: Vec::from_slice(*updates.allocator(), updates.as_slice())?,
                labelling: labelling.copy()?,
            }),
            Answer::Unreachable { labelling } => Ok(Answer::Unreachable {
                labelling: labelling.copy()?,
            }),
        }
    }
}
