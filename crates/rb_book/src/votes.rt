//! The votes of a header.
ghost use Rattle.std.specs.Prelude.{◌≡◌, IfOk};
ghost use Rattle.rb_book.specs.Votes.{items_of};

use crate::vote::Vote;
use std::alloc::{AllocError, Allocator};
use std::sync::Arc;

/// The votes of a header: shared by its copies, or its own where memory was wanting.
#[derive(Drop)]
pub(crate) enum Votes<A: Allocator> {
    Shared(Arc<Vec<Vote, A>, A>),
    Own(Vec<Vote, A>),
}

impl<A: Allocator> Votes<A> {
    /// The votes, in set order.
    pub(crate) fn as_slice(&self) -> &[Vote]
        ensures { result.now ≡ items_of self.now }
    {
        match self {
            Votes::Shared(votes) => votes.as_slice(),
            Votes::Own(votes) => votes.as_slice(),
        }
    }
}

impl<A: Allocator + Copy> Votes<A> {
    /// These votes, such that copies share them.
    pub(crate) fn new(votes: Vec<Vote, A>) -> Votes<A>
        ensures { items_of result ≡ votes.items }
    {
        let alloc = *votes.allocator();
        match Arc::new(alloc, votes) {
            Ok(shared) => Votes::Shared(shared),
            Err(failed) => Votes::Own(failed.value),
        }
    }

    /// The same votes.
    pub(crate) fn copy(&self) -> Result<Votes<A>, AllocError>
        ensures { IfOk result (λ votes. items_of votes ≡ items_of self.now) }
    {
        match self {
            Votes::Shared(votes) => Ok(Votes::Shared(Arc::try_clone(votes)?)),
            Votes::Own(votes) => {
                let alloc = *votes.allocator();
                Ok(Votes::new(Vec::from_slice(alloc, votes.as_slice())?))
            }
        }
    }
}
