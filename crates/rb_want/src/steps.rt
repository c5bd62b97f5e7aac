//! Steps of a client, judged by the answers that are there.
ghost use Rattle.std.specs.Prelude.{◌≡◌, ◌≢◌, ◌⊎◌, ◌↔◌, ◌++◌, false, true, List, All, IfNone, IfOk, IfSome, OnOk, Some, map};
ghost use Rattle.std.specs.List.Sorted.{IsNonDecreasingBy};
ghost use Rattle.std.specs.Option.{option_to_list};
ghost use Rattle.rb_book.specs.Header.{IsSignedBy, Names};
ghost use Rattle.rb_step.specs.StepRule.{AcceptsWithin, step_of};
ghost use Rattle.rb_want_requests.specs.declared.request.Query.{Query};
ghost use Rattle.rb_want.specs.Judgements.{AreByRule, IsRefusal, IsSaidOf, LacksHeader, LacksSet, LacksTrust, MayBeSigned, MayBeTrusted, MayHaveSet};
ghost use Rattle.rb_want.specs.Steps.{HoldsWithin, IsRecordAt, IsStoredAt, IsVerdictOn, header_of, record_of, record_of_state, vote_of};
ghost use Rattle.rb_want.specs.Waiting.{HasNoRecord, WaitsFor, WaitsForHeader, WaitsForNext, WaitsForSet, page_asked};

use crate::judged::Steps;
use rb_base::{Height, Options, Window};
use rb_book::{Header, Record, Vote};
use rb_import_answers::{BlockIdFlag, ConsensusState, Signature, SignedHeader};
use rb_step::laws::{answer_applies, window_is_by_ends};
use rb_step::{Reason, Verdict, verify};
use rb_valset::ValidatorSet;
use rb_want_requests::{Judge, Query, StepJudgement};
use std::alloc::{AllocError, Global};

/// The most requests that a step waits for at once: for the set that its trusted record names, for its header, and for the
/// header's set.
const MOST_LACKS: usize = 3;

impl Judge for Steps<'_, '_> {
    ghost use Rattle.rb_want.specs.Judgements.{AreByRule};

    ghost judges = { AreByRule };

    #[tactic(auto, using(crate::proofs::Judging::by_rule))]
    fn judge(&self, trusted: Height, height: Height) -> Result<StepJudgement, AllocError> {
        match self.verdict_on(trusted, height)? {
            Some(verdict) => Ok(judgement_of(verdict)),
            None => self.judgement_without(trusted, height),
        }
    }
}

/// What a verdict of the step rule says of a step, and of others from its trusted height.
fn judgement_of(verdict: Verdict) -> StepJudgement
    ensures accepted { result ≡ StepJudgement.Accepted → verdict ≡ Verdict.Success }
    ensures refused { result ≡ StepJudgement.Refused → IsRefusal verdict }
    ensures never { result ≡ StepJudgement.Never → (verdict ≡ Verdict.Invalid Reason.Expired) ⊎ (verdict ≡ Verdict.Invalid Reason.TrustedSetUnknown) }
    ensures decided { (result ≢ StepJudgement.Gone) × (result ≢ StepJudgement.Unknown) }
{
    match verdict {
        Verdict::Success => StepJudgement::Accepted,
        Verdict::Invalid(Reason::Expired | Reason::TrustedSetUnknown) => StepJudgement::Never,
        Verdict::Invalid(_) | Verdict::NotEnoughTrust { .. } => StepJudgement::Refused,
    }
}

impl<'b, 'a> Steps<'b, 'a> {
    /// The record of a height: one that is stored, or else that of the header.
    fn record_at(&self, height: Height) -> Option<Record>
        ensures found { IfSome result (IsRecordAt self.now height) }
        ensures none { IfNone result (HasNoRecord self.now height) }
    {
        match stored_at(self.records, height) {
            Some(state) => Some(record_of_state(state)),
            None => match self.chain.header_at(height) {
                Some(header) => Some(record_of(header)),
                None => None,
            },
        }
    }

    /// The step rule's answer to a step in the window, if the answers judge it.
    #[tactic(auto, using(crate::proofs::Judging::lacking))]
    pub fn verdict_on(&self, trusted: Height, height: Height) -> Result<Option<Verdict>, AllocError>
        ensures { IfOk result (IsSaidOf self.now trusted height) }
    {
        let Some(record) = self.record_at(trusted) else {
            return Ok(None);
        };
        let Some(next) = self.chain.set_with(record.next()) else {
            return Ok(None);
        };
        let Some(signed) = self.chain.header_at(height) else {
            return Ok(None);
        };
        let Some(own) = self.chain.set_with(&signed.set) else {
            return Ok(None);
        };
        let header = header_of(self.alloc, signed)?;
        if !record.names(next) || !header.is_of(own) {
            return Ok(None);
        }
        Ok(Some(verdict_in(
            &self.options,
            &self.window,
            trusted,
            &record,
            next,
            &header,
            own,
        )))
    }

    /// How a step is judged on which there is no verdict: `Never` where the trusted record or the set that it names isn't
    /// given, `Gone` where the header or its set isn't.
    fn judgement_without(
        &self,
        trusted: Height,
        height: Height,
    ) -> Result<StepJudgement, AllocError>
        ensures { IfOk result (AreByRule self.now trusted height) }
    {
        if !self.may_be_trusted(trusted)? {
            return Ok(StepJudgement::Never);
        }
        if !self.may_come(height)? {
            return Ok(StepJudgement::Gone);
        }
        let lacks = self.lacks(trusted, height)?;
        if lacks.is_empty() {
            return Ok(StepJudgement::Gone);
        }
        Ok(StepJudgement::Unknown)
    }

    /// Whether the record of a height is there, and the set that it names is there or may still come.
    fn may_be_trusted(&self, trusted: Height) -> Result<bool, AllocError>
        ensures lacks { IfOk result (λ answer. answer ≡ false → LacksTrust self.now trusted) }
        ensures may { IfOk result (λ answer. answer ≡ true → MayBeTrusted self.now trusted) }
    {
        let Some(record) = self.record_at(trusted) else {
            return Ok(false);
        };
        self.may_have_set(record.next(), trusted.get() + 1)
    }

    /// Whether the header of a height and its set are there or may still come.
    fn may_come(&self, height: Height) -> Result<bool, AllocError>
        ensures lacks { IfOk result (λ answer. answer ≡ false → LacksHeader self.now height) }
        ensures may { IfOk result (λ answer. answer ≡ true → MayBeSigned self.now height) }
    {
        let Some(signed) = self.chain.header_at(height) else {
            return self.chain.is_open(self.alloc, Query::Commit(height));
        };
        self.may_have_set(&signed.set, height.get())
    }

    /// Whether the set of this hash is there, or the validators of a height may still come.
    fn may_have_set(&self, hash: &[u8; 32], height: u64) -> Result<bool, AllocError>
        ensures lacks { IfOk result (λ answer. answer ≡ false → LacksSet self.now hash.now height) }
        ensures may { IfOk result (λ answer. answer ≡ true → MayHaveSet self.now hash.now height) }
    {
        if self.chain.has_set(hash) {
            return Ok(true);
        }
        match self.page_at(height) {
            Some(query) => self.chain.is_open(self.alloc, query),
            None => Ok(false),
        }
    }

    /// The next page of the validators of a height, unless all are there.
    #[tactic(auto, using(crate::proofs::Waiting::paging))]
    fn page_at(&self, height: u64) -> Option<Query>
        ensures { option_to_list result ≡ page_asked self.now height }
    {
        match Height::new(height) {
            Some(height) => self.chain.next_page_at(height),
            None => None,
        }
    }

    /// The queries whose answers are missing to judge a step.
    pub fn lacks(&self, trusted: Height, height: Height) -> Result<Vec<Query>, AllocError>
        ensures { IfOk result (λ lacks. WaitsFor self.now trusted height lacks.items) }
    {
        let mut lacks = Vec::with_capacity(self.alloc, MOST_LACKS)?;
        self.add_next(&mut lacks, trusted)?;
        self.add_header(&mut lacks, height)?;
        Ok(lacks)
    }

    /// Adds the next page of the set that the record of a trusted height names, if that isn't there.
    fn add_next(&self, lacks: &mut Vec<Query>, trusted: Height) -> Result<(), AllocError>
        ensures { OnOk result ((asked : List Query) × WaitsForNext self.now trusted asked × (lacks.new.items ≡ lacks.old.items ++ asked)) }
    {
        let Some(record) = self.record_at(trusted) else {
            return Ok(());
        };
        self.add_set(lacks, record.next(), trusted.get() + 1)
    }

    /// Adds the header of a height, and the next page of its set, if they aren't there.
    fn add_header(&self, lacks: &mut Vec<Query>, height: Height) -> Result<(), AllocError>
        ensures { OnOk result ((asked : List Query) × WaitsForHeader self.now height asked × (lacks.new.items ≡ lacks.old.items ++ asked)) }
    {
        let Some(signed) = self.chain.header_at(height) else {
            lacks.push(Query::Commit(height))?;
            return self.add_page(lacks, height.get());
        };
        self.add_set(lacks, &signed.set, height.get())
    }

    /// Adds the next page of the validators of a height, unless the set of this hash is there.
    fn add_set(
        &self,
        lacks: &mut Vec<Query>,
        hash: &[u8; 32],
        height: u64,
    ) -> Result<(), AllocError>
        ensures { OnOk result ((asked : List Query) × WaitsForSet self.now hash.now height asked × (lacks.new.items ≡ lacks.old.items ++ asked)) }
    {
        if self.chain.has_set(hash) {
            return Ok(());
        }
        self.add_page(lacks, height)
    }

    /// Adds the next page of the validators of a height, if one isn't there.
    fn add_page(&self, lacks: &mut Vec<Query>, height: u64) -> Result<(), AllocError>
        ensures { OnOk result (lacks.new.items ≡ lacks.old.items ++ page_asked self.now height) }
    {
        if let Some(query) = self.page_at(height) {
            lacks.push(query)?;
        }
        Ok(())
    }
}

/// What a client has stored at a height, of states by rising height.
fn stored_at<'a>(records: &[&'a ConsensusState], height: Height) -> Option<&'a ConsensusState>
    requires { IsNonDecreasingBy (λ r. r.now.height) records.now }
    ensures found { IfSome result (λ state. IsStoredAt records.now height state.now) }
    ensures none { IfNone result (All (λ r. r.now.height ≢ height) records.now) }
{
    let place = records
        .binary_search_by_key(&height, |record: &&ConsensusState| record.height)
        .ok()?;
    records.get(place).copied()
}

/// The step rule's answer to a step in a window: at its first moment and, if the step is accepted then, at its
/// last.
fn verdict_in(
    options: &Options,
    window: &Window,
    trusted_height: Height,
    trusted: &Record,
    next: &ValidatorSet,
    header: &Header,
    own: &ValidatorSet,
) -> Verdict
    requires named { Names trusted.now next.now }
    requires signed { IsSignedBy header.now own.now }
    ensures success { (result ≡ Verdict.Success) ↔ AcceptsWithin options.now window.now (step_of trusted_height trusted.now (Some next.now) header.now own.now) }
    ensures holds { HoldsWithin options.now window.now (step_of trusted_height trusted.now (Some next.now) header.now own.now) result }
{
    window_is_by_ends();
    answer_applies();
    let (first, last) = (window.from(), window.until());
    match verify(
        options,
        trusted_height,
        trusted,
        Some(next),
        header,
        own,
        first,
    ) {
        Verdict::Success => {
            verify(
                options,
                trusted_height,
                trusted,
                Some(next),
                header,
                own,
                last,
            )
        }
        refusal => refusal,
    }
}

/// What a client has stored at a height.
fn record_of_state(state: &ConsensusState) -> Record
    ensures { result ≡ record_of_state state.now }
{
    Record::new(state.time, state.root, state.next)
}

/// The record that a client stores of a header.
fn record_of(header: &SignedHeader) -> Record
    ensures { result ≡ record_of header.now }
{
    Record::new(header.time, header.root, header.next)
}

/// A header with its votes, as the step rule takes it.
fn header_of(alloc: Global, signed: &SignedHeader) -> Result<Header, AllocError>
    ensures { IfOk result (λ header. header ≡ header_of signed.now) }
{
    let votes = votes_of(alloc, signed.signatures.as_slice())?;
    Ok(Header::new(signed.height, record_of(signed), signed.set, votes))
}

fn votes_of(alloc: Global, signatures: &[Signature]) -> Result<Vec<Vote>, AllocError>
    ensures { IfOk result (λ votes. votes.items ≡ map (λ s. vote_of s.flag) signatures.now) }
{
    signatures
        .iter()
        .map(|signature| vote_of(signature.flag))
        .collect(alloc)
}

fn vote_of(flag: BlockIdFlag) -> Vote
    ensures { result ≡ vote_of flag }
{
    match flag {
        BlockIdFlag::Absent => Vote::Absent,
        BlockIdFlag::Commit => Vote::Commit,
        BlockIdFlag::Nil => Vote::Nil,
    }
}
