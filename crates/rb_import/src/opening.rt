//! The line that a script of answers begins with: who verified signatures.
ghost use Rattle.std.specs.Prelude.{◌≡◌, ◌++◌, ◌∷◌, [], List, IfOk, option_map, slice_get, string_bytes};
ghost use Rattle.rb_import_check.specs.declared.chain.Commit.{Commit};
ghost use Rattle.rb_import_check.specs.Verdicts.{verdicts_of};
ghost use Rattle.rb_import.specs.Openings.{credit, hold_verdicts, opening_of, seen_commits, verifier_of, words_of, words_with};
ghost use Rattle.rb_import.specs.Tallies.{IsTally};

use rb_import_answers::{NodeAnswer, Verdicts, plain_text};
use rb_import_check::{Commit, Saved, SavedAnswers, has_verdicts};
use rb_import_merge::SeenSetup;
use std::alloc::{AllocError, Global};

/// The line where no answer holds verdicts.
const WARNING: &str =
    "# Signatures were not verified: headers and votes stand as the nodes gave them.\n";

/// The line that the script of these answers begins with.
#[tactic(auto, unfolding(crate::specs::Openings::opening_of))]
pub fn opening_of(
    alloc: Global,
    answers: &SavedAnswers,
    seen: &SeenSetup<'_>,
) -> Result<String, AllocError>
    ensures { IfOk result (λ line. string_bytes line ≡ opening_of answers.now seen.now) }
{
    if hold_verdicts(answers) {
        let line = credited(alloc, answers, seen)?;
        Ok(line)
    } else {
        let line = String::from_str(alloc, WARNING)?;
        Ok(line)
    }
}

/// The line that says who verified signatures.
fn credited(
    alloc: Global,
    answers: &SavedAnswers,
    seen: &SeenSetup<'_>,
) -> Result<String, AllocError>
    ensures { IfOk result (λ line. string_bytes line ≡ credit (words_of answers.now seen.now)) }
{
    let words = words_of(alloc, answers, seen)?;
    let line = credit(alloc, &words)?;
    Ok(line)
}

/// Whether answers on a chain hold verdicts.
fn hold_verdicts(answers: &SavedAnswers) -> bool
    ensures { result ≡ hold_verdicts answers.now }
{
    answers
        .chains
        .iter()
        .any(|saved| has_verdicts(saved.as_slice()))
}

/// The line with these words.
fn credit(alloc: Global, words: &String) -> Result<String, AllocError>
    ensures { IfOk result (λ line. string_bytes line ≡ credit (string_bytes words.now)) }
{
    let mut line = String::from_str(alloc, "# signatures: ")?;
    line.push_str(words.as_str())?;
    line.push_str("\n")?;
    Ok(line)
}

/// How many commits were verified, how many of their votes are good, bad and not checkable, and who verified them: as much of that
/// as the line shows.
fn words_of(
    alloc: Global,
    answers: &SavedAnswers,
    seen: &SeenSetup<'_>,
) -> Result<String, AllocError>
    ensures { IfOk result (λ words. string_bytes words ≡ words_of answers.now seen.now) }
{
    let tally = tally_of(seen);
    let verifier = verifier_of(answers);
    let words = words_with(alloc, tally, verifier)?;
    let plain = plain_text(alloc, words.as_str())?;
    Ok(plain)
}

/// A tally and who verified it, in words.
fn words_with(alloc: Global, tally: Tally, verifier: &str) -> Result<String, AllocError>
    ensures { IfOk result (λ words. string_bytes words ≡ words_with tally.commits tally.verified tally.good tally.bad tally.unchecked verifier.now) }
{
    let Tally {
        commits,
        verified,
        good,
        bad,
        unchecked,
    } = tally;
    let words = format!(in alloc;
        "{verified} of {commits} commits verified: {good} good, {bad} bad, {unchecked} not checkable; by {verifier}"
    )?;
    Ok(words)
}

/// How many commits a script has headers of, how many of these were verified, and how many of their votes are good, bad
/// and not checkable.
#[derive(Clone, Copy)]
struct Tally {
    commits: usize,
    verified: usize,
    good: u64,
    bad: usize,
    unchecked: usize,
}

/// The tally of the commits that were seen.
fn tally_of(seen: &SeenSetup<'_>) -> Tally
    ensures { IsTally (seen_commits seen.now) result }
{
    let mut tally = Tally {
        commits: 0,
        verified: 0,
        good: 0,
        bad: 0,
        unchecked: 0,
    };
    for chain in &seen.chains {
        tally = with_commits(tally, chain.commits.as_slice());
    }
    tally
}

/// The tally with more commits.
fn with_commits(tally: Tally, commits: &[Commit<'_>]) -> Tally
    ensures { (counted : List Commit) → IsTally counted tally → IsTally (counted ++ commits.now) result }
{
    let mut whole = tally;
    for commit in commits {
        whole = with_commit(whole, commit);
    }
    whole
}

/// The tally with a commit more.
fn with_commit(tally: Tally, commit: &Commit<'_>) -> Tally
    ensures { (counted : List Commit) → IsTally counted tally → IsTally (counted ++ commit.now ∷ []) result }
{
    let commits = tally.commits.saturating_add(1);
    match commit.verdict {
        Some(verdict) => Tally {
            commits,
            verified: tally.verified.saturating_add(1),
            good: tally.good.saturating_add(verdict.good),
            bad: tally.bad.saturating_add(verdict.bad.len()),
            unchecked: tally.unchecked.saturating_add(verdict.unchecked.len()),
        },
        None => Tally { commits, ..tally },
    }
}

/// Who verified the first of the chains that have verdicts.
fn verifier_of(answers: &SavedAnswers) -> &str
    ensures { result.now ≡ verifier_of answers.now }
{
    for saved in &answers.chains {
        if let Some(verdicts) = first_verdicts(saved.as_slice()) {
            return verdicts.verifier.as_str();
        }
    }
    "nobody"
}

/// The first verdicts that answers hold.
fn first_verdicts(answers: &[Saved]) -> Option<&Verdicts>
    ensures { option_map (λ v. v.now) result ≡ slice_get (verdicts_of answers.now) 0 }
{
    for saved in answers {
        if let NodeAnswer::Verdicts(verdicts) = &saved.answer {
            return Some(verdicts);
        }
    }
    None
}
