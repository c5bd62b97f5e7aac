//! Verdicts on the signatures of commits, as `tools/verify_commits` writes them.
ghost use Rattle.std.specs.Prelude.{◌≡◌, ◌<◌, [], IfOk, map};
ghost use Rattle.serde_json.specs.View.{items_view, view};
ghost use Rattle.rb_import_json.specs.FieldErrors.{Reads, Gives};
ghost use Rattle.rb_import_json.specs.Fields.{object_view};
ghost use Rattle.rb_import_answers.specs.Verdicts.{all_verdicts, place, places, rising, verdict, verdict_view, verdicts, verdicts_view, version};

use rb_base::ChainId;
use rb_import_json::{AnswerError, FieldError, FieldErrorName, Key, Object, Segment};
use serde_json::Value;
use std::alloc::Global;

/// The version of verdicts that is read.
const VERSION: u64 = 1;

/// The verdict on a commit: the SHA-256 of the file that has the commit, how many entries its `signatures` have, how
/// many of these are valid, and the places of those that aren't and of those that nobody could check, from 0 on and
/// rising.
#[derive(Debug, Drop)]
pub struct CommitVerdict {
    pub digest: [u8; 32],
    pub votes: u64,
    pub good: u64,
    pub bad: Vec<u64>,
    pub unchecked: Vec<u64>,
}

/// Verdicts on commits of a chain, and who verified them.
#[derive(Drop)]
pub struct Verdicts {
    pub chain: ChainId,
    pub verifier: String,
    pub commits: Vec<CommitVerdict>,
}

/// Reads verdicts.
#[tactic(auto, using(rb_import_json::proofs::Steps::steps), unfolding(crate::specs::Verdicts::verdicts))]
pub(crate) fn read_verdicts(alloc: Global, answer: &Object<'_>) -> Result<Verdicts, AnswerError>
    ensures { Gives (λ v. verdicts_view v) result (verdicts (object_view answer.now)) }
{
    let all = answer.object(Key::Verdicts, Segment::Verdicts)?;
    judge_version(&all)?;
    let chain = all.chain(Key::Chain)?;
    let verifier = String::from_str(alloc, all.text(Key::Verifier)?)?;
    let commits = read_all(alloc, all.items(Key::Commits)?)?;
    Ok(Verdicts {
        chain,
        verifier,
        commits,
    })
}

/// Refuses verdicts of another version.
#[tactic(auto, using(rb_import_json::proofs::Steps::steps), unfolding(crate::specs::Verdicts::version))]
fn judge_version(all: &Object<'_>) -> Result<(), FieldError>
    ensures { Reads (λ u. u) result (version (object_view all.now)) }
{
    if all.count(Key::Version)? == VERSION {
        Ok(())
    } else {
        Err(all.flaw(Key::Version, FieldErrorName::BadVersion))
    }
}

#[tactic(auto, using(rb_import_json::proofs::Steps::steps))]
fn read_all(alloc: Global, items: &[Value]) -> Result<Vec<CommitVerdict>, AnswerError>
    ensures { Gives (λ v. map verdict_view v.items) result (all_verdicts 0 [] (items_view items.now)) }
{
    let mut all = Vec::new(alloc);
    for (index, value) in items.iter().enumerate() {
        let entry = Object::element(value, Segment::Verdict, index);
        all.push(read_verdict(alloc, &entry)?)?;
    }
    Ok(all)
}

#[tactic(auto, using(rb_import_json::proofs::Steps::steps), unfolding(crate::specs::Verdicts::verdict))]
fn read_verdict(alloc: Global, entry: &Object<'_>) -> Result<CommitVerdict, AnswerError>
    ensures { Gives (λ v. verdict_view v) result (verdict (object_view entry.now)) }
{
    let digest = entry.hash(Key::Sha256)?;
    let votes = entry.count(Key::Votes)?;
    let good = entry.count(Key::Good)?;
    let bad = read_places(alloc, entry, Key::Bad, votes)?;
    let unchecked = read_places(alloc, entry, Key::Unchecked, votes)?;
    Ok(CommitVerdict {
        digest,
        votes,
        good,
        bad,
        unchecked,
    })
}

/// Reads places among so many votes.
#[tactic(auto, using(rb_import_json::proofs::Steps::steps), unfolding(crate::specs::Verdicts::places))]
fn read_places(
    alloc: Global,
    entry: &Object<'_>,
    key: Key,
    votes: u64,
) -> Result<Vec<u64>, AnswerError>
    ensures { Gives (λ v. v.items) result (places key votes (object_view entry.now)) }
{
    read_rising(alloc, entry, key, votes, entry.items(key)?)
}

#[tactic(auto, using(rb_import_json::proofs::Steps::steps))]
fn read_rising(
    alloc: Global,
    entry: &Object<'_>,
    key: Key,
    votes: u64,
    items: &[Value],
) -> Result<Vec<u64>, AnswerError>
    ensures { Gives (λ v. v.items) result (rising (object_view entry.now) key votes 0 [] (items_view items.now)) }
{
    let mut places = Vec::new(alloc);
    let mut least = 0;
    for value in items {
        let place = read_place(entry, key, votes, least, value)?;
        places.push(place)?;
        least = place + 1;
    }
    Ok(places)
}

/// Reads the place of a vote, which is this one or a later one.
#[tactic(auto, using(rb_import_json::proofs::Steps::steps), unfolding(crate::specs::Verdicts::place))]
fn read_place(
    entry: &Object<'_>,
    key: Key,
    votes: u64,
    least: u64,
    value: &Value,
) -> Result<u64, FieldError>
    ensures place { Reads (λ n. n) result (place (object_view entry.now) key votes least (view value.now)) }
    ensures bound { IfOk result (λ n. n < votes) }
{
    match value.as_u64() {
        Some(place) if least <= place && place < votes => Ok(place),
        _ => Err(entry.flaw(key, FieldErrorName::BadPlace)),
    }
}
