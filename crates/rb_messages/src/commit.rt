//! A commit as JSON (CometBFT, `Commit`), with the votes that an update carries.
ghost use Rattle.std.specs.Prelude.{◌≡◌, ◌++◌, map, OnOk, string_bytes};
ghost use Rattle.std.specs.Option.{option_map};
ghost use Rattle.std.specs.Str.{bytes_eq};
ghost use Rattle.rb_step.specs.Sent.{sent_view};
ghost use Rattle.rb_import_answers.specs.Headers.{signed_view};
ghost use Rattle.rb_script_text.specs.Json.{array, json_text, more_text};
ghost use Rattle.rb_messages.specs.SignedTexts.{absent_json, carried_json, cast_json, commit_json, entry_json, is_carried, is_sender, unsigned_members, round_members, signed_members};

use crate::header::push_id;
use crate::text::{push_bytes, push_quoted, push_time};
use rb_import_answers::{Cast, CommitVote, SignedHeader};
use rb_script_text::{push_comma, push_name, push_number, push_text};
use rb_step::SentVotes;
use std::alloc::AllocError;

/// Adds the commit of a header. All votes stand in it, or, where the update carries only those that it needs, these alone:
/// the others are absent.
#[tactic(auto, unfolding(crate::specs::SignedTexts::commit_json))]
pub(crate) fn push_commit(
    text: &mut String,
    votes: &Option<SentVotes>,
    signed: &SignedHeader,
) -> Result<(), AllocError>
    ensures { OnOk result (string_bytes text.new ≡ string_bytes text.old ++ json_text (commit_json (option_map sent_view votes.now) (signed_view signed.now))) }
{
    text.push_str("{")?;
    push_quoted(text, false, "height", signed.height.get())?;
    push_round(text, votes, signed)?;
    text.push_str("}")
}

/// Adds the round, what was voted for, and the votes.
#[tactic(auto, unfolding(crate::specs::SignedTexts::round_members))]
fn push_round(
    text: &mut String,
    votes: &Option<SentVotes>,
    signed: &SignedHeader,
) -> Result<(), AllocError>
    ensures { OnOk result (string_bytes text.new ≡ string_bytes text.old ++ more_text (round_members (option_map sent_view votes.now) (signed_view signed.now))) }
{
    push_number(text, true, "round", signed.round)?;
    push_name(text, true, "block_id")?;
    push_id(text, &signed.block, signed.parts_total, &signed.parts_hash)?;
    push_name(text, true, "signatures")?;
    push_entries(text, votes, signed.votes.as_slice())
}

/// Adds the parts of validators, in order.
fn push_entries(
    text: &mut String,
    votes: &Option<SentVotes>,
    entries: &[CommitVote],
) -> Result<(), AllocError>
    ensures { OnOk result (string_bytes text.new
        ≡ string_bytes text.old ++ json_text (array (map (carried_json (option_map sent_view votes.now)) entries.now))) }
{
    text.push_str("[")?;
    for (place, entry) in entries.iter().enumerate() {
        push_comma(text, place > 0)?;
        push_carried(text, votes, entry)?;
    }
    text.push_str("]")
}

/// Adds a validator's part, which is absent where the update doesn't carry it.
#[tactic(auto, unfolding(crate::specs::SignedTexts::carried_json))]
fn push_carried(
    text: &mut String,
    votes: &Option<SentVotes>,
    entry: &CommitVote,
) -> Result<(), AllocError>
    ensures { OnOk result (string_bytes text.new ≡ string_bytes text.old ++ json_text (carried_json (option_map sent_view votes.now) entry.now)) }
{
    if is_carried(votes, entry) {
        push_entry(text, entry)
    } else {
        push_absent(text)
    }
}

/// Whether an update carries a validator's part: each where it carries all votes, else the commit votes that it needs.
fn is_carried(votes: &Option<SentVotes>, entry: &CommitVote) -> bool
    ensures { result ≡ is_carried (option_map sent_view votes.now) entry.now }
{
    let Some(votes) = votes else {
        return true;
    };
    match entry {
        CommitVote::Commit(cast) => is_sender(votes, &cast.address),
        CommitVote::Absent | CommitVote::Nil(_) => false,
    }
}

/// Whether the vote of this address is one of those that an update needs.
fn is_sender(votes: &SentVotes, address: &[u8; 20]) -> bool
    ensures { result ≡ is_sender (sent_view votes.now) address.now }
{
    votes
        .senders
        .iter()
        .any(|sender| is_address(sender, address))
}

fn is_address(sender: &[u8; 20], address: &[u8; 20]) -> bool
    ensures { result ≡ bytes_eq sender.now address.now }
{
    sender == address
}

fn push_entry(text: &mut String, entry: &CommitVote) -> Result<(), AllocError>
    ensures { OnOk result (string_bytes text.new ≡ string_bytes text.old ++ json_text (entry_json entry.now)) }
{
    match entry {
        CommitVote::Absent => push_absent(text),
        CommitVote::Commit(cast) => push_cast(text, "BLOCK_ID_FLAG_COMMIT", cast),
        CommitVote::Nil(cast) => push_cast(text, "BLOCK_ID_FLAG_NIL", cast),
    }
}

/// Adds a vote that isn't there.
#[tactic(auto, unfolding(crate::specs::SignedTexts::absent_json))]
fn push_absent(text: &mut String) -> Result<(), AllocError>
    ensures { OnOk result (string_bytes text.new ≡ string_bytes text.old ++ json_text absent_json) }
{
    text.push_str("{")?;
    push_text(text, false, "block_id_flag", "BLOCK_ID_FLAG_ABSENT")?;
    push_unsigned(text)?;
    text.push_str("}")
}

/// Adds that there is no address, no time and no signature.
#[tactic(auto, unfolding(crate::specs::SignedTexts::unsigned_members))]
fn push_unsigned(text: &mut String) -> Result<(), AllocError>
    ensures { OnOk result (string_bytes text.new ≡ string_bytes text.old ++ more_text unsigned_members) }
{
    push_text(text, true, "validator_address", "")?;
    push_text(text, true, "timestamp", "0001-01-01T00:00:00Z")?;
    push_text(text, true, "signature", "")
}

/// Adds a vote with the name of its flag.
#[tactic(auto, unfolding(crate::specs::SignedTexts::cast_json))]
fn push_cast(text: &mut String, flag: &str, cast: &Cast) -> Result<(), AllocError>
    ensures { OnOk result (string_bytes text.new ≡ string_bytes text.old ++ json_text (cast_json flag.now cast.now)) }
{
    text.push_str("{")?;
    push_text(text, false, "block_id_flag", flag)?;
    push_signed(text, cast)?;
    text.push_str("}")
}

/// Adds who signed, when, and the signature.
fn push_signed(text: &mut String, cast: &Cast) -> Result<(), AllocError>
    ensures { OnOk result (string_bytes text.new ≡ string_bytes text.old ++ more_text (signed_members cast.now)) }
{
    push_bytes(text, true, "validator_address", &cast.address)?;
    push_time(text, "timestamp", cast.time)?;
    push_bytes(text, true, "signature", &cast.signature)
}
