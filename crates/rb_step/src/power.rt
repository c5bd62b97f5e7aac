//! How much of a set stands behind a header.
ghost use Rattle.std.specs.Prelude.{◌≡◌, ◌≤◌, ◌↔◌, IsTrue};
ghost use Rattle.rb_base.specs.Fraction.{Exceeds, two_thirds};
ghost use Rattle.rb_valset.specs.ValidatorSet.{total_of};
ghost use Rattle.rb_book.specs.Header.{IsSignedBy};
ghost use Rattle.rb_step.specs.SignedPower.{commit_voters, is_among, signed_power};

use rb_base::Fraction;
use rb_book::Header;
use rb_valset::{Validator, ValidatorSet};
use std::alloc::Allocator;

/// Whether the member's address is that of a member of the header's own set that voted to commit.
fn is_commit_voter<A: Allocator + Copy>(
    own: &ValidatorSet<A>,
    header: &Header<A>,
    member: &Validator,
) -> bool
    requires { IsSignedBy header.now own.now }
    ensures { result ≡ is_among (commit_voters own.now header.now) member.now }
{
    match own.position(member.address()) {
        Some(place) => header.votes()[place].is_commit(),
        None => false,
    }
}

/// The power of those members of a trusted set whose address is that of a commit voter of the
/// header (CometBFT light client, `VerifyCommitLightTrusting`). `own` is the header's own set.
/// Takes no memory; each member of the trusted set is looked up in the header's own set.
pub fn signed_power<A: Allocator + Copy>(
    trusted: &ValidatorSet<A>,
    own: &ValidatorSet<A>,
    header: &Header<A>,
) -> u64
    requires { IsSignedBy header.now own.now }
    ensures value { result ≡ signed_power trusted.now own.now header.now }
    ensures bound { result ≤ total_of trusted.now }
{
    let mut signed = 0;
    for member in trusted.members() {
        if is_commit_voter(own, header, member) {
            signed += member.power();
        }
    }
    signed
}

/// The power of the header's commit voters in its own set: one walk over members and votes.
fn own_signed_power<A: Allocator + Copy>(own: &ValidatorSet<A>, header: &Header<A>) -> u64
    requires { IsSignedBy header.now own.now }
    ensures { result ≡ signed_power own.now own.now header.now }
{
    let votes = header.votes();
    let mut signed = 0;
    for (place, member) in own.members().iter().enumerate() {
        if votes[place].is_commit() {
            signed += member.power();
        }
    }
    signed
}

/// Whether the header's commit voters hold more than two thirds of its own set (CometBFT light
/// client, `VerifyCommitLight`).
pub fn is_signed_by_two_thirds<A: Allocator + Copy>(
    header: &Header<A>,
    own: &ValidatorSet<A>,
) -> bool
    requires { IsSignedBy header.now own.now }
    ensures { IsTrue result ↔ Exceeds (signed_power own.now own.now header.now) (total_of own.now) two_thirds }
{
    Fraction::two_thirds().is_exceeded_by(own_signed_power(own, header), own.total())
}
