//! Other queries that nodes answer, which import doesn't need; `want` needs what a node says of itself.
ghost use Rattle.std.specs.Prelude.{◌≡◌};
ghost use Rattle.rb_import_json.specs.Fields.{object_view};
ghost use Rattle.rb_import_answers.specs.Queries.{query_of, query_of_gateway, query_path};

use crate::status::{NodeStatus, status_of};
use rb_import_json::{Key, Object};

/// A query of CometBFT's RPC or of ibc-go's REST gateway whose answers aren't needed.
#[derive(Clone, Copy)]
pub enum OtherQuery {
    /// With the node's status, where it can be read.
    Status(Option<NodeStatus>),
    BlockResults,
    Blockchain,
    Block,
    Header,
    Transaction,
    ConsensusStateHeights,
    ConsensusState,
    ClientStatus,
    /// No query: verdicts in another file than `verdicts.json`.
    Verdicts,
}

impl OtherQuery {
    /// All of these.
    pub const ALL: [OtherQuery; 10] = [
        OtherQuery::Status(None),
        OtherQuery::BlockResults,
        OtherQuery::Blockchain,
        OtherQuery::Block,
        OtherQuery::Header,
        OtherQuery::Transaction,
        OtherQuery::ConsensusStateHeights,
        OtherQuery::ConsensusState,
        OtherQuery::ClientStatus,
        OtherQuery::Verdicts,
    ];

    /// What it asks for, as its URL says.
    pub fn path(self) -> &'static str
        ensures { result.now ≡ query_path self }
    {
        match self {
            OtherQuery::Status(_) => "/status",
            OtherQuery::BlockResults => "/block_results",
            OtherQuery::Blockchain => "/blockchain",
            OtherQuery::Block => "/block",
            OtherQuery::Header => "/header",
            OtherQuery::Transaction => "/tx",
            OtherQuery::ConsensusStateHeights => "consensus_states/ID/heights",
            OtherQuery::ConsensusState => "consensus_states/ID/revision/R/height/H",
            OtherQuery::ClientStatus => "client_status/ID",
            OtherQuery::Verdicts => "verdicts (they count only in verdicts.json)",
        }
    }
}

/// The query that an answer is to, known by one of its members.
#[tactic(auto, unfolding(crate::specs::Queries::query_of))]
pub(crate) fn query_of(answer: &Object<'_>) -> Option<OtherQuery>
    ensures { result ≡ query_of (object_view answer.now) }
{
    if answer.has(Key::SyncInfo) {
        Some(OtherQuery::Status(status_of(answer.value)))
    } else if answer.has(Key::TxsResults) {
        Some(OtherQuery::BlockResults)
    } else if answer.has(Key::BlockMetas) {
        Some(OtherQuery::Blockchain)
    } else if answer.has(Key::Block) {
        Some(OtherQuery::Block)
    } else if answer.has(Key::Header) {
        Some(OtherQuery::Header)
    } else if answer.has(Key::TxResult) {
        Some(OtherQuery::Transaction)
    } else {
        query_of_gateway(answer)
    }
}

/// The query of the gateway that an answer is to.
fn query_of_gateway(answer: &Object<'_>) -> Option<OtherQuery>
    ensures { result ≡ query_of_gateway (object_view answer.now) }
{
    if answer.has(Key::ConsensusStateHeights) {
        Some(OtherQuery::ConsensusStateHeights)
    } else if answer.has(Key::ConsensusState) {
        Some(OtherQuery::ConsensusState)
    } else if answer.has(Key::Status) {
        Some(OtherQuery::ClientStatus)
    } else {
        None
    }
}
