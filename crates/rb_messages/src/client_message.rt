//! The text of a client message (ICS 7, `Header`).
ghost use Rattle.std.specs.Prelude.{◌≡◌, ◌++◌, false, true, codes, IfOk, OnOk, string_bytes};
ghost use Rattle.std.specs.Option.{option_map};
ghost use Rattle.rb_import_answers.specs.Headers.{signed_view};
ghost use Rattle.rb_script_text.specs.Json.{json_text, more_text, name_text};
ghost use Rattle.rb_step.specs.Sent.{sent_view};
ghost use Rattle.rb_messages.specs.MessageTexts.{height_json, message_json, message_members, message_text};
ghost use Rattle.rb_messages.specs.SignedTexts.{commit_json, header_json, signed_header_json};

use crate::commit::push_commit;
use crate::header::push_header;
use crate::text::push_quoted;
use crate::validators::push_set;
use rb_base::Height;
use rb_import_answers::SignedHeader;
use rb_script_text::{push_name, push_text};
use rb_step::SentVotes;
use rb_valset::ValidatorSet;
use std::alloc::{AllocError, Global};

/// A message, of a signed header with the votes that the update carries, its set, and a trusted height with the set that is
/// trusted.
#[tactic(auto, unfolding(crate::specs::MessageTexts::message_text))]
pub(crate) fn message_text(
    alloc: Global,
    votes: &Option<SentVotes>,
    signed: &SignedHeader,
    own: &ValidatorSet,
    revision: u64,
    height: Height,
    trusted: &ValidatorSet,
) -> Result<String, AllocError>
    ensures { IfOk result (λ text. string_bytes text ≡ message_text (option_map sent_view votes.now) (signed_view signed.now) own.now revision height trusted.now) }
{
    let mut text = String::new(alloc);
    push_message(&mut text, votes, signed, own, revision, height, trusted)?;
    text.push_str("\n")?;
    Ok(text)
}

#[tactic(auto, unfolding(crate::specs::MessageTexts::message_json))]
fn push_message(
    text: &mut String,
    votes: &Option<SentVotes>,
    signed: &SignedHeader,
    own: &ValidatorSet,
    revision: u64,
    height: Height,
    trusted: &ValidatorSet,
) -> Result<(), AllocError>
    ensures { OnOk result (string_bytes text.new
        ≡ string_bytes text.old ++ json_text (message_json (option_map sent_view votes.now) (signed_view signed.now) own.now revision height trusted.now)) }
{
    text.push_str("{")?;
    push_text(
        text,
        false,
        "@type",
        "/ibc.lightclients.tendermint.v1.Header",
    )?;
    push_members(text, votes, signed, own, revision, height, trusted)?;
    text.push_str("}")
}

/// Adds what stands behind the type.
#[tactic(auto, unfolding(crate::specs::MessageTexts::message_members))]
fn push_members(
    text: &mut String,
    votes: &Option<SentVotes>,
    signed: &SignedHeader,
    own: &ValidatorSet,
    revision: u64,
    height: Height,
    trusted: &ValidatorSet,
) -> Result<(), AllocError>
    ensures { OnOk result (string_bytes text.new
        ≡ string_bytes text.old ++ more_text (message_members (option_map sent_view votes.now) (signed_view signed.now) own.now revision height trusted.now)) }
{
    push_name(text, true, "signed_header")?;
    push_signed_header(text, votes, signed)?;
    push_set(text, "validator_set", own, &signed.proposer)?;
    push_name(text, true, "trusted_height")?;
    push_height(text, revision, height.get())?;
    push_set(text, "trusted_validators", trusted, &signed.proposer)
}

/// Adds a signed header with the votes that the update carries.
#[tactic(auto, unfolding(crate::specs::SignedTexts::signed_header_json))]
fn push_signed_header(
    text: &mut String,
    votes: &Option<SentVotes>,
    signed: &SignedHeader,
) -> Result<(), AllocError>
    ensures { OnOk result (string_bytes text.new ≡ string_bytes text.old ++ json_text (signed_header_json (option_map sent_view votes.now) (signed_view signed.now))) }
{
    text.push_str("{")?;
    push_header_member(text, signed)?;
    push_commit_member(text, votes, signed)?;
    text.push_str("}")
}

fn push_header_member(text: &mut String, signed: &SignedHeader) -> Result<(), AllocError>
    ensures { OnOk result (string_bytes text.new ≡ string_bytes text.old ++ (name_text false (codes "header") ++ json_text (header_json (signed_view signed.now).fields))) }
{
    push_name(text, false, "header")?;
    push_header(text, &signed.fields)
}

fn push_commit_member(
    text: &mut String,
    votes: &Option<SentVotes>,
    signed: &SignedHeader,
) -> Result<(), AllocError>
    ensures { OnOk result (string_bytes text.new
        ≡ string_bytes text.old ++ (name_text true (codes "commit") ++ json_text (commit_json (option_map sent_view votes.now) (signed_view signed.now)))) }
{
    push_name(text, true, "commit")?;
    push_commit(text, votes, signed)
}

/// Adds a height, with the revision of its chain (ICS 2).
#[tactic(auto, unfolding(crate::specs::MessageTexts::height_json))]
fn push_height(text: &mut String, revision: u64, height: u64) -> Result<(), AllocError>
    ensures { OnOk result (string_bytes text.new ≡ string_bytes text.old ++ json_text (height_json revision height)) }
{
    text.push_str("{")?;
    push_quoted(text, false, "revision_number", revision)?;
    push_quoted(text, true, "revision_height", height)?;
    text.push_str("}")
}
