//! The votes that an update carries, for a report.
ghost use Rattle.std.specs.Prelude.{◌≡◌, ◌<◌, All, IfOk, length};
ghost use Rattle.rb_step.specs.Sent.{address_at, addresses_at};

use rb_valset::ValidatorSet;
use rb_votes::Voter;
use std::alloc::{AllocError, Allocator, Global};

/// The commit votes that an update carries where it carries only those that its step needs: the addresses
/// of their validators, and how many commit votes the header has.
#[derive(Drop)]
pub struct SentVotes<A: Allocator = Global> {
    pub senders: Vec<[u8; 20], A>,
    pub commits: usize,
}

/// The addresses of these voters, whose places are those of members of the set.
pub(crate) fn addresses_at<A: Allocator + Copy>(
    alloc: A,
    own: &ValidatorSet<A>,
    voters: &[Voter],
) -> Result<Vec<[u8; 20], A>, AllocError>
    requires { All (λ v. v.place < length own.now) voters.now }
    ensures { IfOk result (λ addresses. addresses.items ≡ addresses_at own.now voters.now) }
{
    let mut addresses = Vec::with_capacity(alloc, voters.len())?;
    for voter in voters {
        addresses.push(address_at(own, voter))?;
    }
    Ok(addresses)
}

#[tactic(auto, using(crate::proofs::SentTo::address_there))]
fn address_at<A: Allocator + Copy>(own: &ValidatorSet<A>, voter: &Voter) -> [u8; 20]
    requires { voter.now.place < length own.now }
    ensures { result ≡ address_at own.now voter.now }
{
    let members = own.members();
    *members[voter.place].address()
}
