//! What a run reports.
use rb_base::{ChainId, ClientId, Height, Moment, PathId};
use rb_batch::Transaction;
use rb_plan_client::Message;
use rb_plan_types::{Cost, Labelling, Update};
use rb_script_types::{Goal, Refusal, Version};
use rb_step::SentVotes;
use std::alloc::{Allocator, Global};

/// The report of a run, turn by turn, with the script's version and the identifiers of the chains and the paths by
/// their places.
#[derive(Drop)]
pub struct Report<A: Allocator = Global> {
    pub version: Version,
    pub chains: Vec<ChainId, A>,
    pub paths: Vec<PathId, A>,
    pub turns: Vec<TurnReport<A>, A>,
}

/// What came of a turn: whether its window was refused because it goes back, the hosts whose own windows were, by
/// their places among the chains, the events that were refused, in their order, what came of each client, in script order, and of each settlement.
#[derive(Drop)]
pub struct TurnReport<A: Allocator = Global> {
    pub window_back: bool,
    pub hosts_back: Vec<usize, A>,
    pub refused: Vec<RefusedEvent, A>,
    pub clients: Vec<ClientReport<A>, A>,
    pub settlements: Vec<SettlementReport, A>,
}

/// An event that was refused, by its place among the turn's events from 0, and why.
#[derive(Clone, Copy, PartialEq, Eq)]
pub struct RefusedEvent {
    pub event: usize,
    pub refusal: Refusal,
}

/// A client in a turn, by its identifier, what came of it, and the messages that are left out since they are over
/// the gas limit alone.
#[derive(Drop)]
pub struct ClientReport<A: Allocator = Global> {
    pub id: ClientId,
    pub outcome: Outcome<A>,
    pub too_big: Vec<Message, A>,
}

/// What came of a client in a turn.
#[derive(Drop)]
pub enum Outcome<A: Allocator = Global> {
    /// The batch with this number is open, so nothing was planned.
    Held(u64),
    /// There was no goal; the moment at which the client has one next, by what is known.
    Idle(Option<Moment>),
    /// There was a goal.
    Planned(PlannedReport<A>),
}

/// A goal, what was asked for and is out of reach, if it is, the exact labelling, the plan, none where the goal can't be
/// reached, and the moment at which the client has a goal next, by what is known and once the plan is taken.
#[derive(Drop)]
pub struct PlannedReport<A: Allocator = Global> {
    pub goal: Goal,
    pub beyond: Option<Goal>,
    pub labelling: Labelling<A>,
    pub plan: Option<PlanReport<A>>,
    pub next: Option<Moment>,
}

/// The least list of updates that meets the goal, their fees and number in all, the packet messages
/// that follow them, and how they are sent.
#[derive(Drop)]
pub struct PlanReport<A: Allocator = Global> {
    pub updates: Vec<PricedUpdate<A>, A>,
    pub total: Cost,
    pub messages: Vec<Message, A>,
    pub sending: SendingReport<A>,
}

/// An update and its fee; and where the client sends only the votes that the update needs, these.
#[derive(Drop)]
pub struct PricedUpdate<A: Allocator = Global> {
    pub update: Update,
    pub fee: u64,
    pub votes: Option<SentVotes<A>>,
}

/// How messages are sent. They are numbered from 0, the updates first.
#[derive(Drop)]
pub enum SendingReport<A: Allocator = Global> {
    /// There is no message.
    Nothing,
    /// The message with this number is over the gas limit alone.
    TooBig(usize),
    /// They open a batch.
    Batch(BatchReport<A>),
}

/// A batch by its number, from 1 for each client, the height that proofs are made for, and its
/// transactions.
#[derive(Drop)]
pub struct BatchReport<A: Allocator = Global> {
    pub number: u64,
    pub proof: Height,
    pub transactions: Vec<Transaction, A>,
}

/// That so many transactions of a batch were taken, the client by its identifier and the batch by
/// its number, and why that was refused, if it was.
#[derive(Clone, Copy, PartialEq, Eq)]
pub struct SettlementReport {
    pub id: ClientId,
    pub batch: u64,
    pub done: u64,
    pub refusal: Option<Refusal>,
}
