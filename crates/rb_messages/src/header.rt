//! A header as JSON (CometBFT, `Header`), all of whose fields its hash covers.
ghost use Rattle.std.specs.Prelude.{◌≡◌, ◌++◌, false, true, codes, OnOk, string_bytes};
ghost use Rattle.rb_import_answers.specs.HeaderHash.{header_view};
ghost use Rattle.rb_script_text.specs.Json.{json_text, more_text, name_text};
ghost use Rattle.rb_messages.specs.SignedTexts.{hashes, header_json, header_members, id_json, last_block_members, last_hashes, parts_json, set_hashes, state_hashes, versions_json};

use crate::text::{push_bytes, push_quoted, push_time};
use rb_import_answers::BlockHeader;
use rb_script_text::{push_name, push_number, push_text};
use std::alloc::AllocError;

/// Adds a header.
#[tactic(auto, unfolding(crate::specs::SignedTexts::header_json))]
pub(crate) fn push_header(text: &mut String, header: &BlockHeader) -> Result<(), AllocError>
    ensures { OnOk result (string_bytes text.new ≡ string_bytes text.old ++ json_text (header_json (header_view header.now))) }
{
    text.push_str("{")?;
    push_versions(text, header)?;
    push_members(text, header)?;
    text.push_str("}")
}

/// Adds the versions of the block protocol and of the application, as the first member.
fn push_versions(text: &mut String, header: &BlockHeader) -> Result<(), AllocError>
    ensures { OnOk result (string_bytes text.new ≡ string_bytes text.old ++ (name_text false (codes "version") ++ json_text (versions_json (header_view header.now)))) }
{
    push_name(text, false, "version")?;
    push_versions_object(text, header)
}

#[tactic(auto, unfolding(crate::specs::SignedTexts::versions_json))]
fn push_versions_object(text: &mut String, header: &BlockHeader) -> Result<(), AllocError>
    ensures { OnOk result (string_bytes text.new ≡ string_bytes text.old ++ json_text (versions_json (header_view header.now))) }
{
    text.push_str("{")?;
    push_quoted(text, false, "block", header.block_version)?;
    push_quoted(text, true, "app", header.app_version)?;
    text.push_str("}")
}

/// Adds of which chain, height and time the header is, and what stands behind them.
#[tactic(auto, unfolding(crate::specs::SignedTexts::header_members))]
fn push_members(text: &mut String, header: &BlockHeader) -> Result<(), AllocError>
    ensures { OnOk result (string_bytes text.new ≡ string_bytes text.old ++ more_text (header_members (header_view header.now))) }
{
    push_text(text, true, "chain_id", header.chain.as_str())?;
    push_quoted(text, true, "height", header.height.get())?;
    push_time(text, "time", header.time)?;
    push_last_block(text, header)
}

/// Adds the identifier of the block before, whose hashes may be empty, and the hashes.
#[tactic(auto, unfolding(crate::specs::SignedTexts::last_block_members))]
fn push_last_block(text: &mut String, header: &BlockHeader) -> Result<(), AllocError>
    ensures { OnOk result (string_bytes text.new ≡ string_bytes text.old ++ more_text (last_block_members (header_view header.now))) }
{
    let block = &header.last_block;
    push_name(text, true, "last_block_id")?;
    push_id(
        text,
        block.hash.as_slice(),
        block.parts_total,
        block.parts_hash.as_slice(),
    )?;
    push_hashes(text, header)
}

/// Adds the identifier of a block (CometBFT, `BlockID`).
#[tactic(auto, unfolding(crate::specs::SignedTexts::id_json))]
pub(crate) fn push_id(
    text: &mut String,
    hash: &[u8],
    total: u64,
    parts_hash: &[u8],
) -> Result<(), AllocError>
    ensures { OnOk result (string_bytes text.new ≡ string_bytes text.old ++ json_text (id_json (record { hash = hash.now; parts_total = total; parts_hash = parts_hash.now }))) }
{
    text.push_str("{")?;
    push_bytes(text, false, "hash", hash)?;
    push_parts(text, total, parts_hash)?;
    text.push_str("}")
}

/// Adds how many parts a block has, and their hash (CometBFT, `PartSetHeader`), as the last member.
fn push_parts(text: &mut String, total: u64, hash: &[u8]) -> Result<(), AllocError>
    ensures { OnOk result (string_bytes text.new
        ≡ string_bytes text.old ++ (name_text true (codes "part_set_header") ++ json_text (parts_json total hash.now))) }
{
    push_name(text, true, "part_set_header")?;
    push_parts_object(text, total, hash)
}

#[tactic(auto, unfolding(crate::specs::SignedTexts::parts_json))]
fn push_parts_object(text: &mut String, total: u64, hash: &[u8]) -> Result<(), AllocError>
    ensures { OnOk result (string_bytes text.new ≡ string_bytes text.old ++ json_text (parts_json total hash.now)) }
{
    text.push_str("{")?;
    push_number(text, false, "total", total)?;
    push_bytes(text, true, "hash", hash)?;
    text.push_str("}")
}

/// Adds the hashes behind the identifier of the block before, in the order of `Header`.
#[tactic(auto, unfolding(crate::specs::SignedTexts::hashes))]
fn push_hashes(text: &mut String, header: &BlockHeader) -> Result<(), AllocError>
    ensures { OnOk result (string_bytes text.new ≡ string_bytes text.old ++ more_text (hashes (header_view header.now))) }
{
    push_bytes(
        text,
        true,
        "last_commit_hash",
        header.last_commit_hash.as_slice(),
    )?;
    push_bytes(text, true, "data_hash", header.data_hash.as_slice())?;
    push_set_hashes(text, header)
}

#[tactic(auto, unfolding(crate::specs::SignedTexts::set_hashes))]
fn push_set_hashes(text: &mut String, header: &BlockHeader) -> Result<(), AllocError>
    ensures { OnOk result (string_bytes text.new ≡ string_bytes text.old ++ more_text (set_hashes (header_view header.now))) }
{
    push_bytes(text, true, "validators_hash", &header.validators_hash)?;
    push_bytes(
        text,
        true,
        "next_validators_hash",
        &header.next_validators_hash,
    )?;
    push_state_hashes(text, header)
}

#[tactic(auto, unfolding(crate::specs::SignedTexts::state_hashes))]
fn push_state_hashes(text: &mut String, header: &BlockHeader) -> Result<(), AllocError>
    ensures { OnOk result (string_bytes text.new ≡ string_bytes text.old ++ more_text (state_hashes (header_view header.now))) }
{
    push_bytes(
        text,
        true,
        "consensus_hash",
        header.consensus_hash.as_slice(),
    )?;
    push_bytes(text, true, "app_hash", header.app_hash.as_slice())?;
    push_last_hashes(text, header)
}

#[tactic(auto, unfolding(crate::specs::SignedTexts::last_hashes))]
fn push_last_hashes(text: &mut String, header: &BlockHeader) -> Result<(), AllocError>
    ensures { OnOk result (string_bytes text.new ≡ string_bytes text.old ++ more_text (last_hashes (header_view header.now))) }
{
    push_bytes(
        text,
        true,
        "last_results_hash",
        header.last_results_hash.as_slice(),
    )?;
    push_bytes(text, true, "evidence_hash", header.evidence_hash.as_slice())?;
    push_bytes(
        text,
        true,
        "proposer_address",
        header.proposer_address.as_slice(),
    )
}
