//! What is wanted for one client.
ghost use Rattle.std.specs.Prelude.{◌≡◌, ◌==◌, ◌-◌, ◌<◌, ◌^◌, ◌∷◌, [], List, IfOk, OnOk, Some, SomeIff, if◌then◌else◌, not, map, option_map};
ghost use Rattle.std.specs.List.{list_any};
ghost use Rattle.std.specs.List.Sorted.{IsNonDecreasingBy};
ghost use Rattle.rb_want_requests.specs.declared.request.Query.TheVariants as queries;
ghost use Rattle.rb_want_requests.specs.declared.reason.Missing.TheVariants.{State, Records, LatestHeight};
ghost use Rattle.rb_want.specs.Adding.{Outcome, told_of, with_ends, with_needed, with_outcome};
ghost use Rattle.rb_want.specs.Clients.{state_in};
ghost use Rattle.rb_want.specs.Judgements.{IsSaidIf};
ghost use Rattle.rb_want.specs.Needs.{AreStepsOf, IsAskedBy, IsCaseOf, IsOutcome, IsSought, IsSoughtFrom, IsStart, aim_below, aim_ends, aim_of, ends_below, first_ends, first_needs, goal_at, goal_if, highest_of, host_request, if_refused, is_elsewhere, is_told, lacks_first, lacks_state, lacks_states, lacks_status, least_of, level_in, most_of, next_states, node_request, not_given, options_of, start_with, tracking_of};

use crate::chain::ChainAnswers;
use crate::judged::Steps;
use crate::records::ClientAnswers;
use rb_base::{ChainId, ClientId, Fraction, Height, Options, Window};
use rb_import_answers::{ConsensusState, TrustLevel, revision_of};
use rb_import_setup::{ClientSetup, ImportSetup};
use rb_script_types::{Asked, Goal};
use rb_step::Verdict;
use rb_want_requests::{
    Aim, End, Folders, Missing, NextRequests, Owner, PartKind, Query, Question, Request,
    SearchOutcome, SearchReason, has_all, is_named, next_part, search,
};
use std::alloc::{AllocError, Global};

/// Clock drifts are below this.
const DRIFT_LIMIT: u64 = 1 << 63;

/// A client in the last turn of a setup, with its answers and those of the chain that it tracks.
#[derive(Drop)]
pub struct ClientCase<'b, 'a> {
    alloc: Global,
    setup: &'a ClientSetup,
    place: usize,
    host: ChainId,
    tracks: ChainId,
    goal: Option<Goal>,
    window: Window,
    answers: ClientAnswers<'a>,
    chain: &'b ChainAnswers<'a>,
}

/// The case of the client at a place.
#[tactic(auto, unfolding(crate::specs::Needs::tracking_at))]
pub fn case_of<'b, 'a>(
    alloc: Global,
    setup: &'a ImportSetup,
    folders: &'a Folders,
    chains: &'b [ChainAnswers<'a>],
    place: usize,
    client: &'a ClientSetup,
) -> Result<Option<ClientCase<'b, 'a>>, AllocError>
    ensures { IfOk result (IsCaseOf setup.entry.now folders.entry.now.clients.items (map (λ a. a.folder.now) chains.entry.now) (place, client.entry.now)) }
{
    let (Some(turn), Some(host), Some(tracks), Some(folder), Some(chain)) = (
        setup.turns.last(),
        setup.chains.get(client.host),
        setup.chains.get(client.tracks),
        folders.clients.get(place),
        chains.get(client.tracks),
    ) else {
        return Ok(None);
    };
    let revision = revision_of(tracks.as_str());
    let window = setup.window_of(place, turn.window);
    Ok(Some(ClientCase {
        alloc,
        setup: client,
        place,
        host: *host,
        tracks: *tracks,
        goal: goal_of(turn.goals.as_slice(), place),
        window,
        answers: ClientAnswers::of(alloc, folder, revision)?,
        chain,
    }))
}

/// The goal of the client at a place.
#[tactic(auto, using(crate::proofs::Firsts::firsts))]
fn goal_of(goals: &[Asked], place: usize) -> Option<Goal>
    ensures { result ≡ goal_at place goals.now }
{
    for asked in goals {
        if let Some(goal) = goal_if(asked, place) {
            return Some(goal);
        }
    }
    None
}

/// What is asked of the client at a place.
fn goal_if(asked: &Asked, place: usize) -> Option<Goal>
    ensures { result ≡ goal_if place asked.now }
{
    if asked.client == place {
        Some(asked.goal)
    } else {
        None
    }
}

/// How a client judges headers.
#[derive(Clone, Copy)]
struct Judging {
    options: Options,
    trust: TrustLevel,
    ghost same: { trust ≡ level_in options },
}

impl<'b, 'a> ClientCase<'b, 'a> {
    fn id(&self) -> ClientId
        ensures { result ≡ self.now.setup.now.id }
    {
        self.setup.id
    }

    /// Adds what is wanted for the client.
    #[tactic(auto, using(crate::proofs::Adding::adding, crate::proofs::Adding::ending))]
    pub fn add_wanted(&self, wanted: &mut NextRequests<'_>) -> Result<(), AllocError>
        ensures outcome { OnOk result ((o : Outcome) × IsOutcome (tracking_of self.now) (map (λ r. r.now) self.now.answers.records.items) o
            × (told_of wanted.new ≡ with_outcome wanted.old.folders.now (told_of wanted.old) o)) }
        ensures folders { wanted.new.folders ≡ wanted.old.folders }
        ensures path_ends { wanted.new.path_ends ≡ wanted.old.path_ends }
    {
        if self.answers.is_other {
            let client = self.id();
            add_end(wanted, End::OtherClient { client })?;
            return Ok(());
        }
        if self.add_missing(wanted)? {
            return Ok(());
        }
        self.add_sought(wanted)
    }

    /// Adds what is missing of the client's state, its records and the chain's latest height, and tells whether something is.
    #[tactic(auto, unfolding(crate::specs::Needs::first_needs, crate::specs::Needs::first_ends), using(crate::proofs::Adding::adding, crate::proofs::Adding::ending))]
    fn add_missing(&self, wanted: &mut NextRequests<'_>) -> Result<bool, AllocError>
        ensures lacks { IfOk result (λ lacks. lacks ≡ lacks_first (tracking_of self.now)) }
        ensures requests { OnOk result (wanted.new.requests.items ≡ with_needed wanted.old.folders.now wanted.old.requests.items (first_needs (tracking_of self.now))) }
        ensures folders { wanted.new.folders ≡ wanted.old.folders }
        ensures reasons { wanted.new.reasons ≡ wanted.old.reasons }
        ensures ends { OnOk result (wanted.new.ends.items ≡ with_ends wanted.old.ends.items (first_ends (tracking_of self.now))) }
        ensures path_ends { wanted.new.path_ends ≡ wanted.old.path_ends }
    {
        let state = self.add_state(wanted)?;
        let records = self.add_states(wanted)?;
        let status = self.add_status(wanted)?;
        Ok(state || records || status)
    }

    /// Adds the client's state, if it is needed and isn't there, and tells whether that is so.
    #[tactic(auto, using(crate::proofs::Adding::adding, crate::proofs::Adding::ending))]
    fn add_state(&self, wanted: &mut NextRequests<'_>) -> Result<bool, AllocError>
        ensures lacks { IfOk result (λ lacks. lacks ≡ lacks_state (tracking_of self.now)) }
        ensures requests { OnOk result (wanted.new.requests.items ≡ with_needed wanted.old.folders.now wanted.old.requests.items
            (if lacks_state (tracking_of self.now) then host_request (tracking_of self.now) queries.ClientState ∷ [] else [])) }
        ensures folders { wanted.new.folders ≡ wanted.old.folders }
        ensures reasons { wanted.new.reasons ≡ wanted.old.reasons }
        ensures ends { OnOk result (wanted.new.ends.items ≡ with_ends wanted.old.ends.items
            (if lacks_state (tracking_of self.now) then if_refused self.now.answers.folder.now queries.ClientState (not_given (tracking_of self.now) State) else [])) }
        ensures path_ends { wanted.new.path_ends ≡ wanted.old.path_ends }
    {
        if !self.needs_state() || self.answers.state.is_some() {
            return Ok(false);
        }
        self.ask_host(wanted, Query::ClientState, Missing::State)?;
        Ok(true)
    }

    /// Adds the next page of the client's records, if one isn't there, and tells whether that is so.
    #[tactic(auto, using(crate::proofs::Adding::adding, crate::proofs::Adding::ending))]
    fn add_states(&self, wanted: &mut NextRequests<'_>) -> Result<bool, AllocError>
        ensures lacks { IfOk result (λ lacks. lacks ≡ lacks_states (tracking_of self.now)) }
        ensures requests { OnOk result (wanted.new.requests.items ≡ with_needed wanted.old.folders.now wanted.old.requests.items
            (if lacks_states (tracking_of self.now) then host_request (tracking_of self.now) (queries.ConsensusStates (next_states (tracking_of self.now))) ∷ [] else [])) }
        ensures folders { wanted.new.folders ≡ wanted.old.folders }
        ensures reasons { wanted.new.reasons ≡ wanted.old.reasons }
        ensures ends { OnOk result (wanted.new.ends.items ≡ with_ends wanted.old.ends.items
            (if lacks_states (tracking_of self.now) then if_refused self.now.answers.folder.now (queries.ConsensusStates (next_states (tracking_of self.now))) (not_given (tracking_of self.now) Records) else [])) }
        ensures path_ends { wanted.new.path_ends ≡ wanted.old.path_ends }
    {
        let contents = self.answers.folder.contents.as_slice();
        if has_all(contents, &PartKind::ConsensusStates) {
            return Ok(false);
        }
        let page = next_part(contents, &PartKind::ConsensusStates);
        self.ask_host(wanted, Query::ConsensusStates { page }, Missing::Records)?;
        Ok(true)
    }

    /// Adds the status of the chain's node, if it isn't there, and tells whether that is so.
    #[tactic(auto, using(crate::proofs::Adding::adding, crate::proofs::Adding::ending))]
    fn add_status(&self, wanted: &mut NextRequests<'_>) -> Result<bool, AllocError>
        ensures lacks { IfOk result (λ lacks. lacks ≡ lacks_status (tracking_of self.now)) }
        ensures requests { OnOk result (wanted.new.requests.items ≡ with_needed wanted.old.folders.now wanted.old.requests.items
            (if lacks_status (tracking_of self.now) then node_request (tracking_of self.now) queries.Status ∷ [] else [])) }
        ensures folders { wanted.new.folders ≡ wanted.old.folders }
        ensures reasons { wanted.new.reasons ≡ wanted.old.reasons }
        ensures ends { OnOk result (wanted.new.ends.items ≡ with_ends wanted.old.ends.items
            (if lacks_status (tracking_of self.now) then if_refused self.now.chain.now.folder.now queries.Status (not_given (tracking_of self.now) LatestHeight) else [])) }
        ensures path_ends { wanted.new.path_ends ≡ wanted.old.path_ends }
    {
        if self.chain.status.is_some() {
            return Ok(false);
        }
        self.ask_node(wanted, Query::Status)?;
        if !self.chain.is_open(self.alloc, Query::Status)? {
            add_end(wanted, self.not_given(Missing::LatestHeight))?;
        }
        Ok(true)
    }

    /// Whether the setup leaves out how the client judges headers.
    fn needs_state(&self) -> bool
        ensures { result ≡ not (is_told self.now.setup.now) }
    {
        self.setup.period.is_none() || self.setup.drift.is_none() || self.setup.trust.is_none()
    }

    /// Asks the client's host for what is missing, and tells where it refused that.
    #[tactic(auto, using(crate::proofs::Adding::adding, crate::proofs::Adding::ending))]
    fn ask_host(
        &self,
        wanted: &mut NextRequests<'_>,
        query: Query,
        missing: Missing,
    ) -> Result<(), AllocError>
        ensures requests { OnOk result (wanted.new.requests.items ≡ with_needed wanted.old.folders.now wanted.old.requests.items (host_request (tracking_of self.now) query ∷ [])) }
        ensures folders { wanted.new.folders ≡ wanted.old.folders }
        ensures reasons { wanted.new.reasons ≡ wanted.old.reasons }
        ensures ends { OnOk result (wanted.new.ends.items ≡ with_ends wanted.old.ends.items (if_refused self.now.answers.folder.now query (not_given (tracking_of self.now) missing))) }
        ensures path_ends { wanted.new.path_ends ≡ wanted.old.path_ends }
    {
        let owner = Owner::Client {
            place: self.place,
            id: self.id(),
        };
        let request = Request {
            chain: self.host,
            owner,
            query,
        };
        wanted.ask(self.alloc, &request)?;
        if is_named(self.alloc, self.answers.folder.refused.as_slice(), &query)? {
            add_end(wanted, self.not_given(missing))?;
            return Ok(());
        }
        Ok(())
    }

    /// The end of a client whose host or node refused this.
    fn not_given(&self, missing: Missing) -> End
        ensures { result ≡ not_given (tracking_of self.now) missing }
    {
        End::NotGiven {
            client: self.id(),
            missing,
        }
    }

    /// Asks a node of the chain that the client tracks.
    #[tactic(auto, using(crate::proofs::Adding::adding, crate::proofs::Adding::ending))]
    fn ask_node(&self, wanted: &mut NextRequests<'_>, query: Query) -> Result<(), AllocError>
        ensures requests { OnOk result (wanted.new.requests.items ≡ with_needed wanted.old.folders.now wanted.old.requests.items (node_request (tracking_of self.now) query ∷ [])) }
        ensures folders { wanted.new.folders ≡ wanted.old.folders }
        ensures reasons { wanted.new.reasons ≡ wanted.old.reasons }
        ensures ends { wanted.new.ends ≡ wanted.old.ends }
        ensures path_ends { wanted.new.path_ends ≡ wanted.old.path_ends }
    {
        let request = Request {
            chain: self.tracks,
            owner: Owner::Chain(self.setup.tracks),
            query,
        };
        wanted.ask(self.alloc, &request)
    }

    /// How the client judges headers, where that is in range.
    #[tactic(auto, unfolding(crate::specs::Needs::options_of))]
    fn judging(&self) -> Option<Judging>
        ensures { option_map (λ j. j.options) result ≡ options_of self.now.setup.now (state_in self.now.answers.folder.now.contents.items) }
    {
        let state = self.answers.state;
        let period = self.setup.period.or(state.map(|state| state.period))?;
        let drift = self.setup.drift.map(|drift| drift.nanoseconds());
        let drift = drift.or(state.map(|state| state.drift))?;
        let given = self.setup.trust.map(|level| TrustLevel {
            numerator: level.numerator,
            denominator: level.denominator,
        });
        let trust = given.or(state.map(|state| state.trust))?;
        let level = Fraction::new(trust.numerator, trust.denominator).ok()?;
        if drift >= DRIFT_LIMIT {
            return None;
        }
        Some(Judging {
            options: Options::new(period, drift).with_trust(level),
            trust,
        })
    }

    /// The heights that the client's search aims at: its goal, or the greatest height with final votes, the one
    /// before the node's latest. None, with an end that says why, where the chain isn't there yet.
    #[tactic(auto, unfolding(crate::specs::Needs::aim_of, crate::specs::Needs::aim_ends), using(crate::proofs::Adding::ending))]
    fn aim(&self, wanted: &mut NextRequests<'_>) -> Result<Option<Aim>, AllocError>
        ensures aim { IfOk result (λ aim. aim ≡ aim_of (tracking_of self.now) (map (λ r. r.now) self.now.answers.records.items)) }
        ensures requests { wanted.new.requests ≡ wanted.old.requests }
        ensures folders { wanted.new.folders ≡ wanted.old.folders }
        ensures reasons { wanted.new.reasons ≡ wanted.old.reasons }
        ensures ends { OnOk result (wanted.new.ends.items ≡ with_ends wanted.old.ends.items (aim_ends (tracking_of self.now) (map (λ r. r.now) self.now.answers.records.items))) }
        ensures path_ends { wanted.new.path_ends ≡ wanted.old.path_ends }
    {
        let Some(status) = self.chain.status else {
            return Ok(None);
        };
        if is_other(&status.network, self.tracks.as_str()) {
            let (client, chain) = (self.id(), self.tracks);
            add_end(wanted, End::OtherNetwork { client, chain })?;
            return Ok(None);
        }
        match final_height(status.latest) {
            Some(latest) => self.aim_below(wanted, latest),
            None => Ok(None),
        }
    }

    /// The heights that the search aims at, up to the greatest with final votes.
    #[tactic(auto, using(crate::proofs::Adding::ending))]
    fn aim_below(
        &self,
        wanted: &mut NextRequests<'_>,
        latest: Height,
    ) -> Result<Option<Aim>, AllocError>
        ensures aim { IfOk result (λ aim. aim ≡ aim_below self.now.goal (map (λ r. r.now) self.now.answers.records.items) latest) }
        ensures requests { wanted.new.requests ≡ wanted.old.requests }
        ensures folders { wanted.new.folders ≡ wanted.old.folders }
        ensures reasons { wanted.new.reasons ≡ wanted.old.reasons }
        ensures ends { OnOk result (wanted.new.ends.items ≡ with_ends wanted.old.ends.items
            (ends_below (tracking_of self.now) (map (λ r. r.now) self.now.answers.records.items) latest)) }
        ensures path_ends { wanted.new.path_ends ≡ wanted.old.path_ends }
    {
        let least = least_of(&self.goal, latest);
        if least > latest && !is_stored(self.answers.records.as_slice(), least) {
            add_end(
                wanted,
                End::GoalAhead {
                    client: self.id(),
                    goal: least,
                    latest,
                },
            )?;
            return Ok(None);
        }
        let most = most_of(&self.goal, latest);
        Ok(Some(Aim { least, most }))
    }

    /// Adds what the client's search asks for, if it can be searched.
    #[tactic(auto, using(crate::proofs::Adding::adding, crate::proofs::Adding::ending))]
    fn add_sought(&self, wanted: &mut NextRequests<'_>) -> Result<(), AllocError>
        ensures outcome { OnOk result ((o : Outcome) × IsSought (tracking_of self.now) (map (λ r. r.now) self.now.answers.records.items) o
            × (told_of wanted.new ≡ with_outcome wanted.old.folders.now (told_of wanted.old) o)) }
        ensures folders { wanted.new.folders ≡ wanted.old.folders }
        ensures path_ends { wanted.new.path_ends ≡ wanted.old.path_ends }
    {
        let client = self.id();
        let Some(judging) = self.judging() else {
            add_end(wanted, End::BadOptions { client })?;
            return Ok(());
        };
        let Some(aim) = self.aim(wanted)? else {
            return Ok(());
        };
        match first_for(self.answers.records.as_slice(), &self.goal) {
            Some(first) => self.add_search(wanted, &judging, first, &aim),
            None => {
                add_end(wanted, End::NoRecord { client })?;
                Ok(())
            }
        }
    }

    /// Adds what the client's search from a stored height asks for.
    #[tactic(auto, using(crate::proofs::Adding::adding, crate::proofs::Adding::ending))]
    fn add_search(
        &self,
        wanted: &mut NextRequests<'_>,
        judging: &Judging,
        first: Height,
        aim: &Aim,
    ) -> Result<(), AllocError>
        ensures outcome { OnOk result ((o : Outcome)
            × IsSoughtFrom (tracking_of self.now) judging.now.options aim.now (map (λ r. r.now) self.now.answers.records.items) (Some first) o
            × (told_of wanted.new ≡ with_outcome wanted.old.folders.now (told_of wanted.old) o)) }
        ensures folders { wanted.new.folders ≡ wanted.old.folders }
        ensures path_ends { wanted.new.path_ends ≡ wanted.old.path_ends }
    {
        let steps = self.steps_of(judging);
        match search(&steps, first, aim)? {
            SearchOutcome::Reached(_) => Ok(()),
            SearchOutcome::Asks(question) => self.add_question(wanted, &steps, judging, &question),
            SearchOutcome::Stuck { trusted, height } => {
                let why = SearchReason {
                    client: self.id(),
                    trusted,
                    accepted: None,
                    refused: Some(height),
                    verdict: steps.verdict_on(trusted, height)?,
                    trust: judging.trust,
                };
                add_end(wanted, End::Stuck(why))?;
                Ok(())
            }
        }
    }

    /// The client's steps, judged so.
    fn steps_of(&self, judging: &Judging) -> Steps<'_, 'a>
        ensures { AreStepsOf (tracking_of self.now) judging.now.options (map (λ r. r.now) self.now.answers.records.items) result }
    {
        Steps {
            alloc: self.alloc,
            options: judging.options,
            window: self.window,
            records: self.answers.records.as_slice(),
            chain: self.chain,
        }
    }

    /// Adds the requests that judge the step of a question, and the reason.
    fn add_question(
        &self,
        wanted: &mut NextRequests<'_>,
        steps: &Steps<'_, 'a>,
        judging: &Judging,
        question: &Question,
    ) -> Result<(), AllocError>
        ensures outcome { OnOk result ((o : Outcome) × IsAskedBy (tracking_of self.now) judging.now.options steps.now question.now o
            × (told_of wanted.new ≡ with_outcome wanted.old.folders.now (told_of wanted.old) o)) }
        ensures folders { wanted.new.folders ≡ wanted.old.folders }
        ensures path_ends { wanted.new.path_ends ≡ wanted.old.path_ends }
    {
        let before = wanted.requests.len();
        let lacks = steps.lacks(question.trusted, question.height)?;
        let verdict = verdict_if(steps, question.trusted, question.refused)?;
        self.add_queries(wanted, lacks.as_slice())?;
        if wanted.requests.len() == before {
            return Ok(());
        }
        wanted.reasons.push(SearchReason {
            client: self.id(),
            trusted: question.trusted,
            accepted: question.accepted,
            refused: question.refused,
            verdict,
            trust: judging.trust,
        })?;
        Ok(())
    }

    /// Asks a node of the chain that the client tracks for each of these.
    #[tactic(auto, using(crate::proofs::Adding::adding, crate::proofs::Adding::one_query_more))]
    fn add_queries(&self, wanted: &mut NextRequests<'_>, asked: &[Query]) -> Result<(), AllocError>
        ensures requests { OnOk result (wanted.new.requests.items ≡ with_needed wanted.old.folders.now wanted.old.requests.items (map (node_request (tracking_of self.now)) asked.now)) }
        ensures folders { wanted.new.folders ≡ wanted.old.folders }
        ensures reasons { wanted.new.reasons ≡ wanted.old.reasons }
        ensures ends { wanted.new.ends ≡ wanted.old.ends }
        ensures path_ends { wanted.new.path_ends ≡ wanted.old.path_ends }
    {
        for query in asked {
            self.ask_node(wanted, *query)?;
        }
        Ok(())
    }
}

/// The step rule's answer to the step to a refused height, if there is one.
fn verdict_if(
    steps: &Steps<'_, '_>,
    trusted: Height,
    refused: Option<Height>,
) -> Result<Option<Verdict>, AllocError>
    ensures { IfOk result (IsSaidIf steps.now trusted refused) }
{
    match refused {
        Some(height) => steps.verdict_on(trusted, height),
        None => Ok(None),
    }
}

/// Adds why no more is asked for a client.
#[tactic(auto, unfolding(crate::specs::Adding::with_ends))]
fn add_end(wanted: &mut NextRequests<'_>, end: End) -> Result<(), AllocError>
    ensures requests { wanted.new.requests ≡ wanted.old.requests }
    ensures folders { wanted.new.folders ≡ wanted.old.folders }
    ensures reasons { wanted.new.reasons ≡ wanted.old.reasons }
    ensures ends { OnOk result (wanted.new.ends.items ≡ with_ends wanted.old.ends.items (end ∷ [])) }
    ensures path_ends { wanted.new.path_ends ≡ wanted.old.path_ends }
{
    // An end may hold a height: rattle proves the push only where the function names that type.
    let _height: Option<Height> = None;
    wanted.ends.push(end)?;
    Ok(())
}

/// The least height that a goal takes, or else the latest.
fn least_of(goal: &Option<Goal>, latest: Height) -> Height
    ensures { result ≡ least_of goal.now latest }
{
    match *goal {
        Some(Goal::Exactly(height) | Goal::AtLeast(height)) => height,
        None => latest,
    }
}

/// The greatest height that a goal takes, up to the latest.
fn most_of(goal: &Option<Goal>, latest: Height) -> Height
    ensures { result ≡ most_of goal.now latest }
{
    match *goal {
        Some(Goal::Exactly(height)) => height,
        _ => latest,
    }
}

/// Whether a height is stored.
#[tactic(auto, using(crate::proofs::Starting::storing))]
fn is_stored(records: &[&ConsensusState], height: Height) -> bool
    ensures { result ≡ list_any (λ s. s.height == height) (map (λ r. r.now) records.now) }
{
    for record in records {
        if is_at(record, height) {
            return true;
        }
    }
    false
}

/// Whether a record is of a height.
fn is_at(state: &ConsensusState, height: Height) -> bool
    ensures { result ≡ (state.now.height == height) }
{
    state.height == height
}

/// Whether a node's network is named, and isn't this chain.
fn is_other(network: &Option<ChainId>, chain: &str) -> bool
    ensures { result ≡ is_elsewhere network.now chain.now }
{
    match network {
        Some(network) => network.as_str() != chain,
        None => false,
    }
}

/// The greatest height whose votes are final: a node's latest block has those that the node saw itself.
fn final_height(latest: Height) -> Option<Height>
    ensures { SomeIff result (1 < latest) (latest - 1) }
{
    Height::new(latest.get() - 1)
}

/// The greatest height of a record that a client can be updated from, of records by rising height: of those up to a goal of one height,
/// else of all.
#[tactic(auto, using(crate::proofs::Starting::start_none))]
fn first_for(records: &[&ConsensusState], goal: &Option<Goal>) -> Option<Height>
    requires { IsNonDecreasingBy (λ r. r.now.height) records.now }
    ensures { IsStart (map (λ r. r.now) records.now) (highest_of goal.now (2 ^ 63 - 1)) result }
{
    let most = highest_of(goal);
    let mut first = None;
    for record in records {
        first = start_with(first, record.height, most);
    }
    first
}

/// A height, where it is no greater than this, else the one before.
fn start_with(before: Option<Height>, height: Height, most: u64) -> Option<Height>
    ensures { result ≡ start_with most before height }
{
    if height.get() <= most {
        Some(height)
    } else {
        before
    }
}

/// The greatest height of a record from which a client can be updated to a goal.
fn highest_of(goal: &Option<Goal>) -> u64
    ensures { result ≡ highest_of goal.now (2 ^ 63 - 1) }
{
    match *goal {
        Some(Goal::Exactly(height)) => height.get(),
        _ => Height::MAX,
    }
}
