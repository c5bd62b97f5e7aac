//! The facts by which steps of a client are judged.
ghost use Rattle.std.specs.List.Sorted.{IsNonDecreasingBy};

use crate::chain::ChainAnswers;
use rb_base::{Options, Window};
use rb_import_answers::ConsensusState;
use std::alloc::Global;

/// A client to update in a window: its options, its consensus states by rising height, and the answers of the
/// chain that it tracks.
#[derive(Clone, Copy)]
pub struct Steps<'b, 'a> {
    pub alloc: Global,
    pub options: Options,
    pub window: Window,
    pub records: &'b [&'a ConsensusState],
    pub chain: &'b ChainAnswers<'a>,
    ghost rising: { IsNonDecreasingBy (λ r. r.now.height) records.now },
}
