//! The sequences that answers on pending packets tell of, sorted once, so that each is found by a search.
ghost use Rattle.std.specs.Prelude.{◌≡◌, ◌==◌, ℕ, IfOk};
ghost use Rattle.std.specs.List.{flat_map, list_any};
ghost use Rattle.std.specs.List.Sorted.{IsPermutation, IsSorted};
ghost use Rattle.std.specs.Ordering.{nat_cmp};
ghost use Rattle.rb_import_merge.specs.Pending.{committed_in, has_commitment, is_pending, lacks_receipt, tell_commitments, unreceived_in};

use crate::pending::{committed_in, tell_commitments, unreceived_in};
use rb_import_check::Saved;
use std::alloc::{AllocError, Global};

/// Sequences of packets, sorted.
#[derive(Drop)]
pub struct Sequences {
    pub sorted: Vec<u64>,
    ghost order: { IsSorted nat_cmp sorted.items },
}

impl Sequences {
    ghost use Rattle.std.specs.Prelude.{◌≡◌, ◌==◌};
    ghost use Rattle.std.specs.List.{list_any};

    /// Whether a sequence is one of these.
    pub fn has(&self, sequence: u64) -> bool
        ensures { result ≡ list_any (λ n. n == sequence) self.now.sorted.items }
    {
        self.sorted.binary_search(&sequence).is_ok()
    }
}

/// Which of a path's packets may be pending, as answers tell.
#[derive(Drop)]
pub struct PendingPackets<'a> {
    pub answers: &'a [Saved],
    has_commitments: bool,
    committed: Sequences,
    ghost told: { has_commitments ≡ tell_commitments answers.now },
    ghost those: { (n : ℕ) → list_any (λ m. m == n) committed.sorted.items ≡ has_commitment answers.now n },
}

impl PendingPackets<'_> {
    ghost use Rattle.std.specs.Prelude.{◌≡◌};
    ghost use Rattle.rb_import_merge.specs.Pending.{is_pending};

    /// Whether the packet of a sequence may be pending.
    pub fn has(&self, sequence: u64) -> bool
        ensures { result ≡ is_pending self.now.answers.now sequence }
    {
        !self.has_commitments || self.committed.has(sequence)
    }
}

/// Which of a path's packets may be pending.
pub fn pending_packets(alloc: Global, answers: &[Saved]) -> Result<PendingPackets<'_>, AllocError>
    ensures { IfOk result (λ pending. pending.answers.now ≡ answers.now) }
{
    let all = all_committed(alloc, answers)?;
    let pending = PendingPackets {
        answers,
        has_commitments: tell_commitments(answers),
        committed: in_order(all),
    };
    Ok(pending)
}

/// The sequences of the packets that weren't received, as the answers tell.
pub fn unreceived_of(alloc: Global, answers: &[Saved]) -> Result<Sequences, AllocError>
    ensures { IfOk result (λ unreceived. (n : ℕ) → list_any (λ m. m == n) unreceived.sorted.items ≡ lacks_receipt answers.now n) }
{
    let all = all_unreceived(alloc, answers)?;
    Ok(in_order(all))
}

/// These sequences, sorted.
fn in_order(sequences: Vec<u64>) -> Sequences
    ensures { IsPermutation sequences.items result.sorted.items }
{
    let mut sorted = sequences;
    sorted.sort_unstable();
    Sequences { sorted }
}

/// The sequences of the packets to which the source holds a commitment, as the answers tell, in their order.
fn all_committed(alloc: Global, answers: &[Saved]) -> Result<Vec<u64>, AllocError>
    ensures { IfOk result (λ all. all.items ≡ flat_map (λ s. committed_in s.answer) answers.now) }
{
    let mut all = Vec::new(alloc);
    for saved in answers {
        all.extend_from_slice(committed_in(&saved.answer))?;
    }
    Ok(all)
}

/// The sequences of the packets that weren't received, as the answers tell, in their order.
fn all_unreceived(alloc: Global, answers: &[Saved]) -> Result<Vec<u64>, AllocError>
    ensures { IfOk result (λ all. all.items ≡ flat_map (λ s. unreceived_in s.answer) answers.now) }
{
    let mut all = Vec::new(alloc);
    for saved in answers {
        all.extend_from_slice(unreceived_in(&saved.answer))?;
    }
    Ok(all)
}
