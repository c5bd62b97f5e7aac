//! What a node says of an error that it answers.
ghost use Rattle.std.specs.Prelude.{◌≡◌, ◌≤◌, ◌++◌, ℕ, [], length, List, All, Some, IfOk, OnOk, option_map, string_bytes};
ghost use Rattle.std.specs.Str.{chars};
ghost use Rattle.serde_json.specs.Find.{as_str};
ghost use Rattle.serde_json.specs.View.{view};
ghost use Rattle.rb_import_json.specs.Fields.{object_view};
ghost use Rattle.rb_import_answers.specs.Answers.{json};
ghost use Rattle.rb_import_answers.specs.Said.{IsPlain, after_colon, error_of, error_says, plain, plain_text, records_type, said, said_type, says, says_type, text_of, type_at, type_of, with_text};

use rb_import_json::{Key, Object, Segment};
use serde_json::Value;
use std::alloc::{AllocError, Global};

/// How many characters are shown of what a node said.
const MAX_SAID: usize = 200;

/// What the answer with an error says of it: the `message` of CometBFT's `error` with its `data`, or that `error` where it
/// is a text, or the REST gateway's `message`. The first 200 characters stand there, and each that isn't printable ASCII, or is `"` or `\`,
/// is replaced by `?`. The text is empty where the answer says nothing.
pub fn said_in(alloc: Global, bytes: &[u8]) -> Result<String, AllocError>
    ensures text { IfOk result (λ text. string_bytes text ≡ plain_text (said bytes.now)) }
    ensures plain { IfOk result (λ text. All IsPlain (string_bytes text)) }
    ensures short { IfOk result (λ text. length (string_bytes text) ≤ 200) }
{
    let answer = json_of(alloc, bytes)?;
    let text = said_by(alloc, &answer)?;
    Ok(text)
}

/// What the answer on a client says of its type: that of its state, or of its first record, in the form of `said_in`. The
/// text is empty where the answer names none.
pub fn type_in(alloc: Global, bytes: &[u8]) -> Result<String, AllocError>
    ensures text { IfOk result (λ text. string_bytes text ≡ plain_text (said_type bytes.now)) }
    ensures plain { IfOk result (λ text. All IsPlain (string_bytes text)) }
    ensures short { IfOk result (λ text. length (string_bytes text) ≤ 200) }
{
    let answer = json_of(alloc, bytes)?;
    let text = plain_text(alloc, type_text(&answer))?;
    Ok(text)
}

/// The type that an answer on a client names; nothing where it names none.
fn type_text(answer: &Option<Value>) -> &str
    ensures { chars result.now ≡ says_type (option_map view answer.now) }
{
    match answer {
        Some(answer) => match type_of(answer) {
            Some(text) => text,
            None => "",
        },
        None => "",
    }
}

/// The type that an answer on a client names.
#[tactic(auto, unfolding(crate::specs::Said::type_of))]
fn type_of(answer: &Value) -> Option<&str>
    ensures { option_map (λ text. text.now) result ≡ type_of (view answer.now) }
{
    let answer = Object::new(answer, Segment::Answer);
    match type_at(&answer, Key::ClientState) {
        Some(text) => Some(text),
        None => records_type(&answer),
    }
}

/// The type of the first of a client's records.
#[tactic(auto, using(rb_import_json::proofs::Steps::steps), unfolding(crate::specs::Said::records_type))]
fn records_type<'a>(answer: &Object<'a>) -> Option<&'a str>
    ensures { option_map (λ text. text.now) result ≡ records_type (object_view answer.now) }
{
    let records = answer.items(Key::ConsensusStates).ok()?;
    let record = Object::element(records.first()?, Segment::ConsensusStates, 0);
    type_at(&record, Key::ConsensusState)
}

/// The type of a client's state, or of a record's.
#[tactic(auto, using(rb_import_json::proofs::Steps::steps), unfolding(crate::specs::Said::type_at))]
fn type_at<'a>(answer: &Object<'a>, key: Key) -> Option<&'a str>
    ensures { option_map (λ text. text.now) result ≡ type_at key (object_view answer.now) }
{
    let state = answer.inner(key).ok()?;
    state.text(Key::TypeUrl).ok()
}

/// The first 200 characters of a text, of which each that isn't printable ASCII, or is `"` or `\`, is replaced by `?`.
pub fn plain_text(alloc: Global, text: &str) -> Result<String, AllocError>
    ensures text { IfOk result (λ plain. string_bytes plain ≡ plain_text (chars text.now)) }
    ensures plain { IfOk result (λ plain. All IsPlain (string_bytes plain)) }
    ensures short { IfOk result (λ plain. length (string_bytes plain) ≤ 200) }
{
    let mut plain = String::new(alloc);
    push_plain(&mut plain, text)?;
    Ok(plain)
}

/// The JSON that these bytes are, if they are any.
#[tactic(auto, unfolding(crate::specs::Answers::json))]
fn json_of(alloc: Global, bytes: &[u8]) -> Result<Option<Value>, AllocError>
    ensures { IfOk result (λ value. option_map view value ≡ json bytes.now) }
{
    match Value::from_slice(alloc, bytes) {
        Ok(value) => Ok(Some(value)),
        Err(error) if error.is_memory() => Err(AllocError),
        Err(_) => Ok(None),
    }
}

/// What an answer says of its error; nothing where there is none.
#[tactic(auto, using(crate::proofs::PlainTexts::none_yet))]
fn said_by(alloc: Global, answer: &Option<Value>) -> Result<String, AllocError>
    ensures { IfOk result (λ text. string_bytes text ≡ plain_text (says (option_map view answer.now))) }
{
    match answer {
        Some(answer) => error_text(alloc, answer),
        None => Ok(String::new(alloc)),
    }
}

/// What an answer says of its error.
#[tactic(auto, using(crate::proofs::PlainTexts::none_yet))]
fn error_text(alloc: Global, answer: &Value) -> Result<String, AllocError>
    ensures { IfOk result (λ text. string_bytes text ≡ plain_text (says (Some (view answer.now)))) }
{
    let mut text = String::new(alloc);
    push_error(&mut text, answer)?;
    Ok(text)
}

/// Adds what an answer says of its error.
fn push_error(text: &mut String, answer: &Value) -> Result<(), AllocError>
    requires { string_bytes text.old ≡ plain_text [] }
    ensures { OnOk result (string_bytes text.new ≡ plain_text (error_says (as_str (error_of (view answer.now))) (error_of (view answer.now)))) }
{
    let error = answer.get("error").unwrap_or(answer);
    if let Some(whole) = error.as_str() {
        return push_plain(text, whole);
    }
    push_member(text, error, "message")?;
    push_member(text, error, "data")
}

/// Adds the text of a member, behind a colon where something stands already.
fn push_member(text: &mut String, error: &Value, name: &str) -> Result<(), AllocError>
    ensures { (before : List ℕ) → string_bytes text.old ≡ plain_text before
        → OnOk result (string_bytes text.new ≡ plain_text (with_text before (text_of name.now (view error.now)))) }
{
    match text_of(error, name) {
        Some(member) => push_text(text, member),
        None => Ok(()),
    }
}

/// The text of a member, where it is one.
fn text_of<'a>(error: &'a Value, name: &str) -> Option<&'a str>
    ensures { option_map (λ text. text.now) result ≡ text_of name.now (view error.now) }
{
    error.get(name)?.as_str()
}

/// Adds a text, behind a colon where something stands already.
fn push_text(text: &mut String, more: &str) -> Result<(), AllocError>
    ensures { (before : List ℕ) → string_bytes text.old ≡ plain_text before
        → OnOk result (string_bytes text.new ≡ plain_text (after_colon before (chars more.now))) }
{
    if text.is_empty() {
        return push_plain(text, more);
    }
    push_plain(text, ": ")?;
    push_plain(text, more)
}

/// Adds the first characters of a text, as many as there is room for.
fn push_plain(text: &mut String, more: &str) -> Result<(), AllocError>
    ensures { (before : List ℕ) → string_bytes text.old ≡ plain_text before
        → OnOk result (string_bytes text.new ≡ plain_text (before ++ chars more.now)) }
{
    let room = MAX_SAID.saturating_sub(text.len());
    for character in more.chars().take(room) {
        text.push(plain(character))?;
    }
    Ok(())
}

/// A character as it may stand in quotes: one that isn't printable ASCII, or is `"` or `\`, as `?`.
#[tactic(auto, unfolding(crate::specs::Said::plain))]
fn plain(character: char) -> char
    ensures { result ≡ plain character }
{
    match character {
        '"' | '\\' => '?',
        ' '..='~' => character,
        _ => '?',
    }
}
