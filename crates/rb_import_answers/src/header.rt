//! The fields of a header.
ghost use Rattle.std.specs.Prelude.{◌≡◌};
ghost use Rattle.rb_import_answers.specs.HeaderHash.{block_id_view, header_view};
ghost use Rattle.rb_import_json.specs.FieldErrors.{Reads, Gives};
ghost use Rattle.rb_import_json.specs.Fields.{object_view};
ghost use Rattle.rb_import_answers.specs.Headers.{fields, last_block, versions};

use crate::header_fields::{BlockHeader, BlockId};
use rb_import_json::{AnswerError, FieldError, Key, Object, Segment};
use std::alloc::Global;

/// Reads the fields of a header, of which the hashes but those of its sets, and the proposer's address, may be empty.
#[tactic(auto, using(rb_import_json::proofs::Steps::steps), unfolding(crate::specs::Headers::fields))]
pub(crate) fn read_header_fields(
    alloc: Global,
    head: &Object<'_>,
) -> Result<BlockHeader, AnswerError>
    ensures { Gives (λ h. header_view h) result (fields (object_view head.now)) }
{
    let chain = head.chain(Key::ChainId)?;
    let height = head.height(Key::Height)?;
    let time = head.time(Key::Time)?;
    let app_hash = head.bytes(alloc, Key::AppHash)?;
    let validators_hash = head.hash(Key::ValidatorsHash)?;
    let next_validators_hash = head.hash(Key::NextValidatorsHash)?;
    let (block_version, app_version) = read_versions(head)?;
    let last_block = read_last_block(alloc, head)?;
    let last_commit_hash = head.bytes(alloc, Key::LastCommitHash)?;
    let data_hash = head.bytes(alloc, Key::DataHash)?;
    let consensus_hash = head.bytes(alloc, Key::ConsensusHash)?;
    let last_results_hash = head.bytes(alloc, Key::LastResultsHash)?;
    let evidence_hash = head.bytes(alloc, Key::EvidenceHash)?;
    let proposer_address = head.bytes(alloc, Key::ProposerAddress)?;
    Ok(BlockHeader {
        block_version,
        app_version,
        chain,
        height,
        time,
        last_block,
        last_commit_hash,
        data_hash,
        validators_hash,
        next_validators_hash,
        consensus_hash,
        app_hash,
        last_results_hash,
        evidence_hash,
        proposer_address,
    })
}

/// The versions of the block protocol and of the application, each 0 where it isn't there.
#[tactic(auto, using(rb_import_json::proofs::Steps::steps), unfolding(crate::specs::Headers::versions))]
fn read_versions(head: &Object<'_>) -> Result<(u64, u64), FieldError>
    ensures { Reads (λ v. v) result (versions (object_view head.now)) }
{
    let version = head.object(Key::Version, Segment::Version)?;
    let block = version.number_or_zero(Key::Block)?;
    let app = version.number_or_zero(Key::App)?;
    Ok((block, app))
}

#[tactic(auto, using(rb_import_json::proofs::Steps::steps), unfolding(crate::specs::Headers::last_block))]
fn read_last_block(alloc: Global, head: &Object<'_>) -> Result<BlockId, AnswerError>
    ensures { Gives (λ b. block_id_view b) result (last_block (object_view head.now)) }
{
    let id = head.object(Key::LastBlockId, Segment::LastBlockId)?;
    let parts = id.object(Key::Parts, Segment::Parts)?;
    let hash = id.bytes(alloc, Key::Hash)?;
    let parts_total = parts.count(Key::Total)?;
    let parts_hash = parts.bytes(alloc, Key::Hash)?;
    Ok(BlockId {
        hash,
        parts_total,
        parts_hash,
    })
}
