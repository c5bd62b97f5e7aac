//! Whether more than two thirds of a header's own set signed it.
ghost use Rattle.std.specs.Prelude.{◌≡◌, ◌↔◌, IsTrue, option_map, slice_get};
ghost use Rattle.rb_import_check.specs.Signed.{IsSignedBy, counts, counts_at, is_bad, is_for_block, is_good, lets_count, signed_power};

use crate::chain::Commit;
use crate::verdicts::is_among;
use rb_base::Fraction;
use rb_import_answers::{BlockIdFlag, CommitVerdict, Signature};
use rb_valset::ValidatorSet;

/// Which votes of a commit count.
#[derive(Clone, Copy)]
pub enum Signatures {
    /// Each vote for the block that no verdict calls bad.
    AsGiven,
    /// Each vote for the block that a verdict calls good.
    Verified,
}

/// Whether more than two thirds of a set's power voted for the block of a commit (CometBFT light client,
/// `VerifyCommitLight`), in votes that count.
#[tactic(auto, unfolding(crate::specs::Signed::IsSignedBy))]
pub(crate) fn is_signed_by(signatures: Signatures, commit: &Commit<'_>, set: &ValidatorSet) -> bool
    ensures { IsTrue result ↔ IsSignedBy signatures commit.now set.now }
{
    Fraction::two_thirds().is_exceeded_by(signed_power(signatures, commit, set), set.total())
}

/// The power of the members whose votes count.
fn signed_power(signatures: Signatures, commit: &Commit<'_>, set: &ValidatorSet) -> u64
    ensures { result ≡ signed_power signatures (option_map (λ v. v.now) commit.now.verdict) commit.now.header.now.signatures.items set.now }
{
    let mut signed = 0;
    for (place, member) in set.members().iter().enumerate() {
        if counts_at(signatures, commit, place) {
            signed += member.power();
        }
    }
    signed
}

/// Whether a commit has a signature at a place that counts.
fn counts_at(signatures: Signatures, commit: &Commit<'_>, place: usize) -> bool
    ensures { result ≡ counts_at signatures (option_map (λ v. v.now) commit.now.verdict) place (slice_get commit.now.header.now.signatures.items place) }
{
    match commit.header.signatures.get(place) {
        Some(signature) => counts(signatures, commit.verdict, place as u64, signature),
        None => false,
    }
}

/// Whether the signature at a place is a vote for the block that the verdict on its commit lets count.
fn counts(
    signatures: Signatures,
    verdict: Option<&CommitVerdict>,
    place: u64,
    signature: &Signature,
) -> bool
    ensures { result ≡ counts signatures (option_map (λ v. v.now) verdict.entry) place signature.now }
{
    is_for_block(signature.flag) && lets_count(signatures, verdict, place)
}

fn is_for_block(flag: BlockIdFlag) -> bool
    ensures { result ≡ is_for_block flag }
{
    matches!(flag, BlockIdFlag::Commit)
}

/// Whether the verdict on a commit lets the vote at a place count.
fn lets_count(signatures: Signatures, verdict: Option<&CommitVerdict>, place: u64) -> bool
    ensures { result ≡ lets_count signatures (option_map (λ v. v.now) verdict.entry) place }
{
    match signatures {
        Signatures::AsGiven => !is_bad(verdict, place),
        Signatures::Verified => is_good(verdict, place),
    }
}

/// Whether a verdict calls the vote at a place bad.
pub fn is_bad(verdict: Option<&CommitVerdict>, place: u64) -> bool
    ensures { result ≡ is_bad (option_map (λ v. v.now) verdict.entry) place }
{
    match verdict {
        Some(verdict) => is_among(verdict.bad.as_slice(), place),
        None => false,
    }
}

/// Whether a verdict calls the vote at a place good: it is neither bad nor unchecked.
fn is_good(verdict: Option<&CommitVerdict>, place: u64) -> bool
    ensures { result ≡ is_good (option_map (λ v. v.now) verdict.entry) place }
{
    match verdict {
        Some(verdict) => {
            !(is_among(verdict.bad.as_slice(), place)
                || is_among(verdict.unchecked.as_slice(), place))
        }
        None => false,
    }
}
