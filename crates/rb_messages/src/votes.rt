//! The votes that an update needs, in a commit.
ghost use Rattle.std.specs.Prelude.{◌≡◌};
ghost use Rattle.std.specs.List.{find};
ghost use Rattle.std.specs.Option.{option_copied, option_map};
ghost use Rattle.rb_step.specs.Sent.{sent_view};
ghost use Rattle.rb_messages.specs.Votes.{has_vote, is_vote_of, lacks_vote, missing_vote};

use rb_import_answers::CommitVote;
use rb_step::SentVotes;

/// The validator of the first vote that an update needs and a commit lacks; none of an update that carries all votes.
pub(crate) fn missing_vote(votes: &Option<SentVotes>, entries: &[CommitVote]) -> Option<[u8; 20]>
    ensures { result ≡ missing_vote entries.now (option_map sent_view votes.now) }
{
    match votes {
        Some(votes) => first_lacking(votes.senders.as_slice(), entries).copied(),
        None => None,
    }
}

/// The first of these validators whose vote for the block a commit lacks.
fn first_lacking<'v>(validators: &'v [[u8; 20]], entries: &[CommitVote]) -> Option<&'v [u8; 20]>
    ensures { option_copied result ≡ find (lacks_vote entries.now) validators.entry.now }
{
    validators
        .iter()
        .find(|validator| lacks_vote(entries, validator))
}

fn lacks_vote(entries: &[CommitVote], validator: &[u8; 20]) -> bool
    ensures { result ≡ lacks_vote entries.now validator.now }
{
    !has_vote(entries, validator)
}

/// Whether a commit has the vote for the block of a validator.
fn has_vote(entries: &[CommitVote], validator: &[u8; 20]) -> bool
    ensures { result ≡ has_vote entries.now validator.now }
{
    entries.iter().any(|entry| is_vote_of(validator, entry))
}

/// Whether a part of a commit is the vote for the block of a validator.
fn is_vote_of(validator: &[u8; 20], entry: &CommitVote) -> bool
    ensures { result ≡ is_vote_of validator.now entry.now }
{
    match entry {
        CommitVote::Commit(cast) => cast.address == *validator,
        CommitVote::Absent | CommitVote::Nil(_) => false,
    }
}
