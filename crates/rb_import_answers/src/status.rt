//! The answer of CometBFT's `/status`: what a node says of itself.
ghost use Rattle.std.specs.Prelude.{◌≡◌};
ghost use Rattle.serde_json.specs.View.{view};
ghost use Rattle.rb_import_answers.specs.Statuses.{latest_of, network_of, status_of};

use rb_base::{ChainId, Height};
use rb_import_json::number_of;
use serde_json::Value;

/// A node's status: the height of its latest block, and the identifier of its chain, if the node names it.
#[derive(Clone, Copy)]
pub struct NodeStatus {
    pub latest: Height,
    pub network: Option<ChainId>,
}

/// The status that an answer tells.
#[tactic(auto, unfolding(crate::specs::Statuses::status_of))]
pub(crate) fn status_of(answer: &Value) -> Option<NodeStatus>
    ensures { result ≡ status_of (view answer.now) }
{
    Some(NodeStatus {
        latest: latest_of(answer)?,
        network: network_of(answer),
    })
}

/// The height of the latest block.
#[tactic(auto, using(rb_import_json::proofs::Values::heights), unfolding(crate::specs::Statuses::latest_of))]
fn latest_of(answer: &Value) -> Option<Height>
    ensures { result ≡ latest_of (view answer.now) }
{
    let text = answer
        .get("sync_info")?
        .get("latest_block_height")?
        .as_str()?;
    Height::new(number_of(text)?)
}

/// The chain that the node is one of.
#[tactic(auto, using(rb_import_json::proofs::Values::identifiers), unfolding(crate::specs::Statuses::network_of))]
fn network_of(answer: &Value) -> Option<ChainId>
    ensures { result ≡ network_of (view answer.now) }
{
    ChainId::new(answer.get("node_info")?.get("network")?.as_str()?)
}
