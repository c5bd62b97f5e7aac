//! Notices of answers to queries that aren't needed.
ghost use Rattle.std.specs.Prelude.{◌≡◌};
ghost use Rattle.rb_import_notices.specs.Passed.{has_others, is_other, others_of_chain, others_of_client, others_of_path};

use crate::notice::Notice;
use rb_import_answers::{NodeAnswer, OtherQuery};
use rb_import_check::{Saved, SavedAnswers};
use rb_import_merge::answers_at;
use std::fmt;

/// How many answers are to each query that isn't needed and that some are to. Shown as what ends a line.
#[derive(Clone, Copy)]
pub struct Others<'a> {
    pub answers: &'a [Saved],
}

impl fmt::Display for Others<'_> {
    fn fmt<W: fmt::Write>(&self, f: &mut fmt::Formatter<W>) -> fmt::Result {
        let mut separator = " ";
        for query in &OtherQuery::ALL {
            let path = query.path();
            let count = count_of(self.answers, path);
            if count > 0 {
                write!(f, "{separator}{count} of {path}")?;
                separator = ", ";
            }
        }
        Ok(())
    }
}

/// How many answers are to the query of this path.
fn count_of(answers: &[Saved], path: &str) -> usize {
    answers
        .iter()
        .filter(|saved| is_to(&saved.answer, path))
        .count()
}

/// Whether an answer is to the query of this path.
fn is_to(answer: &NodeAnswer, path: &str) -> bool {
    match answer {
        NodeAnswer::Other(query) => query.path() == path,
        _ => false,
    }
}

/// The chain at a place, where some of its answers aren't needed.
pub fn others_of_chain(answers: &SavedAnswers, chain: usize) -> Option<Notice>
    ensures { result ≡ others_of_chain answers.now chain }
{
    let is_due = has_others(answers_at(&answers.chains, chain));
    is_due.then_some(Notice::OthersOfChain { chain })
}

/// The client at a place, where some of its answers aren't.
pub fn others_of_client(answers: &SavedAnswers, client: usize) -> Option<Notice>
    ensures { result ≡ others_of_client answers.now client }
{
    let is_due = has_others(answers_at(&answers.clients, client));
    is_due.then_some(Notice::OthersOfClient { client })
}

/// The path at a place, where some of its answers aren't.
pub fn others_of_path(answers: &SavedAnswers, path: usize) -> Option<Notice>
    ensures { result ≡ others_of_path answers.now path }
{
    let is_due = has_others(answers_at(&answers.paths, path));
    is_due.then_some(Notice::OthersOfPath { path })
}

/// Whether one of these answers is to a query that isn't needed.
fn has_others(answers: &[Saved]) -> bool
    ensures { result ≡ has_others answers.now }
{
    answers.iter().any(|saved| is_other(&saved.answer))
}

fn is_other(answer: &NodeAnswer) -> bool
    ensures { result ≡ is_other answer.now }
{
    matches!(answer, NodeAnswer::Other(_))
}
