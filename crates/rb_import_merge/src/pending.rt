//! Which of a path's packets are pending, where answers tell of it.
ghost use Rattle.std.specs.Prelude.{◌≡◌, ◌==◌, None, false, IfErr, OnOk, option_map};
ghost use Rattle.std.specs.List.{list_any};
ghost use Rattle.rb_import_check.specs.Errors.{IsToldOf};
ghost use Rattle.rb_import_merge.specs.Committed.{IsOfLastPage};
ghost use Rattle.rb_import_merge.specs.Pending.{committed, committed_in, first_of, has_commitment, has_last_page, is_commitments, is_last, is_last_in, is_of_unreceived, is_pending, lack_last_page, least_in, least_of, pending_in, tell_commitments, tell_unreceived, tells_commitments, tells_unreceived, unreceived, unreceived_in, with_sequence};

use rb_import_answers::{NodeAnswer, Pending};
use rb_import_check::{CheckErrorName, ImportError, Saved};
use rb_import_setup::PathSetup;

/// Whether a packet of a path may be pending, by its sequence: the source holds a commitment to it, as the answers tell, or
/// none of them tells of commitments.
pub fn is_pending(answers: &[Saved], sequence: u64) -> bool
    ensures { result ≡ is_pending answers.now sequence }
{
    !tell_commitments(answers) || has_commitment(answers, sequence)
}

/// Whether one of the answers tells of a commitment to the packet of this sequence.
fn has_commitment(answers: &[Saved], sequence: u64) -> bool
    ensures { result ≡ has_commitment answers.now sequence }
{
    answers.iter().any(|saved| has_sequence(committed_in(&saved.answer), sequence))
}

/// Whether a sequence is among these.
fn has_sequence(sequences: &[u64], sequence: u64) -> bool
    ensures { result ≡ list_any (λ n. n == sequence) sequences.now }
{
    sequences.iter().any(|other| *other == sequence)
}

/// Whether one of the answers tells of commitments.
pub fn tell_commitments(answers: &[Saved]) -> bool
    ensures { result ≡ tell_commitments answers.now }
{
    answers.iter().any(|saved| tells_commitments(&saved.answer))
}

/// What an answer tells of pending packets, if it does.
fn pending_in(answer: &NodeAnswer) -> Option<&Pending>
    ensures { option_map (λ p. p.now) result ≡ pending_in answer.now }
{
    match answer {
        NodeAnswer::Pending(pending) => Some(pending),
        _ => None,
    }
}

/// Whether an answer tells of commitments.
fn tells_commitments(answer: &NodeAnswer) -> bool
    ensures { result ≡ tells_commitments answer.now }
{
    match pending_in(answer) {
        Some(pending) => is_commitments(pending),
        None => false,
    }
}

fn is_commitments(pending: &Pending) -> bool
    ensures { result ≡ is_commitments pending.now }
{
    match pending {
        Pending::Commitments(_) => true,
        Pending::Unreceived(_) | Pending::Acknowledgements(_) => false,
    }
}

/// The sequences of the packets to which the source holds a commitment, as an answer tells.
pub fn committed_in(answer: &NodeAnswer) -> &[u64]
    ensures { result.now ≡ committed_in answer.now }
{
    match pending_in(answer) {
        Some(pending) => committed(pending),
        None => &[],
    }
}

fn committed(pending: &Pending) -> &[u64]
    ensures { result.now ≡ committed pending.now }
{
    match pending {
        Pending::Commitments(page) => page.sequences.as_slice(),
        Pending::Unreceived(_) | Pending::Acknowledgements(_) => &[],
    }
}

/// Whether an answer is the last page of commitments.
fn is_last_in(answer: &NodeAnswer) -> bool
    ensures { result ≡ is_last_in answer.now }
{
    match pending_in(answer) {
        Some(pending) => is_last(pending),
        None => false,
    }
}

fn is_last(pending: &Pending) -> bool
    ensures { result ≡ is_last pending.now }
{
    match pending {
        Pending::Commitments(page) => page.is_last,
        Pending::Unreceived(_) | Pending::Acknowledgements(_) => false,
    }
}

/// Whether an answer tells which packets weren't received.
fn tells_unreceived(answer: &NodeAnswer) -> bool
    ensures { result ≡ tells_unreceived answer.now }
{
    match pending_in(answer) {
        Some(pending) => is_of_unreceived(pending),
        None => false,
    }
}

fn is_of_unreceived(pending: &Pending) -> bool
    ensures { result ≡ is_of_unreceived pending.now }
{
    match pending {
        Pending::Unreceived(_) => true,
        Pending::Commitments(_) | Pending::Acknowledgements(_) => false,
    }
}

/// The sequences of the packets that weren't received, as an answer tells.
pub fn unreceived_in(answer: &NodeAnswer) -> &[u64]
    ensures { result.now ≡ unreceived_in answer.now }
{
    match pending_in(answer) {
        Some(pending) => unreceived(pending),
        None => &[],
    }
}

fn unreceived(pending: &Pending) -> &[u64]
    ensures { result.now ≡ unreceived pending.now }
{
    match pending {
        Pending::Unreceived(sequences) => sequences.as_slice(),
        Pending::Commitments(_) | Pending::Acknowledgements(_) => &[],
    }
}

/// Whether one of the answers tells which packets weren't received.
pub fn tell_unreceived(answers: &[Saved]) -> bool
    ensures { result ≡ tell_unreceived answers.now }
{
    answers.iter().any(|saved| tells_unreceived(&saved.answer))
}

/// The sequence below which all packets of a path are finished and cleared: where answers tell of commitments, the least
/// sequence of these that isn't below the setup's `first`, if there is one; else the setup's `first`.
pub fn first_of(setup: &PathSetup, answers: &[Saved]) -> u64
    ensures { result ≡ first_of setup.now answers.now }
{
    let first = setup.config.first.get();
    match least_of(first, answers) {
        Some(least) => least,
        None => first,
    }
}

/// The least sequence of a commitment that isn't below a first one.
fn least_of(first: u64, answers: &[Saved]) -> Option<u64>
    ensures { result ≡ least_of first None answers.now }
{
    let mut least = None;
    for saved in answers {
        least = least_in(first, least, committed_in(&saved.answer));
    }
    least
}

/// The least of one that was met and these sequences that isn't below a first one.
fn least_in(first: u64, met: Option<u64>, sequences: &[u64]) -> Option<u64>
    ensures { result ≡ least_in first met sequences.now }
{
    let mut least = met;
    for sequence in sequences {
        least = with_sequence(first, least, *sequence);
    }
    least
}

/// The lesser of one that was met and a sequence, if that isn't below a first one.
fn with_sequence(first: u64, met: Option<u64>, sequence: u64) -> Option<u64>
    ensures { result ≡ with_sequence first met sequence }
{
    if sequence < first {
        return met;
    }
    match met {
        Some(least) => Some(if least <= sequence { least } else { sequence }),
        None => Some(sequence),
    }
}

/// Whether one of the answers is the last page of commitments.
fn has_last_page(answers: &[Saved]) -> bool
    ensures { result ≡ has_last_page answers.now }
{
    answers.iter().any(|saved| is_last_in(&saved.answer))
}

/// Whether answers tell of commitments, and the last page of them isn't there.
fn lack_last_page(answers: &[Saved]) -> bool
    ensures { result ≡ lack_last_page answers.now }
{
    tell_commitments(answers) && !has_last_page(answers)
}

/// Refuses commitments without their last page.
pub fn judge_last_page<'a>(id: &'a str, answers: &[Saved]) -> Result<(), ImportError<'a>>
    ensures accepted { OnOk result (lack_last_page answers.now ≡ false) }
    ensures refused { IfErr result (IsOfLastPage answers.now) }
    ensures told { IfErr result (IsToldOf id.entry.now) }
{
    if lack_last_page(answers) {
        return Err(ImportError::of(CheckErrorName::MissingCommitments, id));
    }
    Ok(())
}
