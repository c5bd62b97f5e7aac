//! The events of a turn.
ghost use Rattle.std.specs.Prelude.{◌≡◌, ◌<◌, [], Some, true, codes, is_some, length, not, IfSome};
ghost use Rattle.std.specs.List.{list_any};
ghost use Rattle.toml.specs.View.{view, items_view};
ghost use Rattle.rb_script_toml.specs.Faults.{Gives};
ghost use Rattle.rb_script_toml.specs.Fields.{field_view, section_view, only, needs, next_in_sequence, in_sequence};
ghost use Rattle.rb_script_read.specs.Ready.{AreReady, validators_at};
ghost use Rattle.rb_script_read.specs.Sets.{validators};
ghost use Rattle.rb_script_read.specs.TurnNames.{names_now};
ghost use Rattle.rb_script_read.specs.Events.{kind, vote_of, votes, votes_after, set_seen, set_keys, header_seen, header_keys, stored_seen, stored_keys, tracked_by, event};
ghost use Rattle.rb_script_config.specs.Setups.{setup_view};

use crate::names::{needed_set_hash, needed_set_name};
use crate::packet::{read_ack, read_cleared, read_closed, read_received, read_sent};
use crate::ready::{ReadySet, take_set};
use crate::set::needed_validators;
use crate::turn_names::TurnNames;
use rb_base::ChainId;
use rb_book::{Header, Record, Vote};
use rb_script_config::{Directory, Setup, reference};
use rb_script_toml::{FaultName, Field, RunError, Section, element_path, section_at};
use rb_script_types::{ClientConfig, Observation};
use rb_valset::Known;
use toml::Value;

/// The kinds of event.
#[derive(Clone, Copy)]
pub enum EventKind {
    Set,
    Header,
    Stored,
    Sent,
    Received,
    Ack,
    Cleared,
    Closed,
}

#[tactic(auto, using(rb_script_toml::proofs::Steps::steps), unfolding(crate::specs::Events::kind))]
fn read_kind(field: &Field<'_>) -> Result<EventKind, RunError>
    ensures { Gives (λ k. k) result (kind (field_view field.now)) }
{
    match field.text()? {
        "set" => Ok(EventKind::Set),
        "header" => Ok(EventKind::Header),
        "stored" => Ok(EventKind::Stored),
        "sent" => Ok(EventKind::Sent),
        "received" => Ok(EventKind::Received),
        "ack" => Ok(EventKind::Ack),
        "cleared" => Ok(EventKind::Cleared),
        "closed" => Ok(EventKind::Closed),
        _ => Err(field.fault(FaultName::BadKind)),
    }
}

#[tactic(auto, using(rb_script_toml::proofs::Steps::steps))]
fn needed_kind(section: &Section<'_>) -> Result<EventKind, RunError>
    ensures { Gives (λ k. k) result (needs (codes "kind") kind (section_view section.now)) }
{
    read_kind(&section.required("kind")?)
}

/// Whether a letter is that of a vote.
fn is_vote(letter: u8) -> bool
    ensures { result ≡ is_some (vote_of letter) }
{
    (letter == b'C') | (letter == b'N') | (letter == b'A') | (letter == b'B')
}

/// The vote of a letter. No jump depends on the letter, so that mixed votes cost no more than others.
fn vote_of(letter: u8) -> Vote
    requires { is_some (vote_of letter) ≡ true }
    ensures { vote_of letter ≡ Some result }
{
    let mut vote = Vote::Commit;
    if letter == b'N' {
        vote = Vote::Nil;
    }
    if letter == b'A' {
        vote = Vote::Absent;
    }
    if letter == b'B' {
        vote = Vote::Bad;
    }
    vote
}

/// Whether some letter is no vote's. All are looked at, many in a step.
fn has_other(letters: &[u8]) -> bool
    ensures { result ≡ list_any (λ letter. not (is_some (vote_of letter))) letters.now }
{
    let mut has_other = false;
    for letter in letters {
        has_other |= !is_vote(*letter);
    }
    has_other
}

/// The votes that these letters are.
#[tactic(auto, using(rb_script_toml::proofs::Steps::steps))]
fn votes_of(field: &Field<'_>, letters: &[u8]) -> Result<Vec<Vote>, RunError>
    ensures { Gives (λ v. v.items) result (votes_after (field_view field.now).path [] letters.now) }
{
    if has_other(letters) {
        return Err(field.fault(FaultName::BadVotes));
    }
    let mut votes = vec![in field.alloc; Vote::Commit; letters.len()]?;
    for place in 0..letters.len() {
        votes[place] = vote_of(letters[place]);
    }
    Ok(votes)
}

#[tactic(auto, using(rb_script_toml::proofs::Steps::steps), unfolding(crate::specs::Events::votes))]
fn read_votes(field: &Field<'_>) -> Result<Vec<Vote>, RunError>
    ensures { Gives (λ v. v.items) result (votes (field_view field.now)) }
{
    let letters = field.text()?;
    votes_of(field, letters.as_bytes())
}

#[tactic(auto, using(rb_script_toml::proofs::Steps::steps))]
fn needed_votes(section: &Section<'_>) -> Result<Vec<Vote>, RunError>
    ensures { Gives (λ v. v.items) result (needs (codes "votes") votes (section_view section.now)) }
{
    read_votes(&section.required("votes")?)
}

fn only_set_keys(section: &Section<'_>) -> Result<(), RunError>
    ensures { Gives (λ u. u) result (only set_keys (section_view section.now)) }
{
    section.only(&["kind", "chain", "name", "validators"])
}

#[tactic(auto, using(rb_script_toml::proofs::Steps::steps), unfolding(crate::specs::Events::set_seen))]
fn read_set(
    section: &Section<'_>,
    chains: &Directory<ChainId>,
    names: &mut TurnNames<'_>,
    ready: Option<ReadySet>,
) -> Result<Observation, RunError>
    requires ready { IfSome ready (λ r. Gives (λ s. s) r.set (needs (codes "validators") validators (section_view section.now))) }
    ensures read { Gives (λ e. (e, names_now names.new)) result (set_seen chains.now (names_now names.old) (section_view section.now)) }
    ensures earlier { names.new.earlier.now ≡ names.old.earlier.now }
{
    only_set_keys(section)?;
    let chain = reference(section, "chain", chains)?;
    let name = needed_set_name(section, chain, names)?;
    let set = match ready {
        Some(ready) => ready.set?,
        None => needed_validators(section, &mut Known::new(section.alloc))?,
    };
    names.add(chain, name, *set.hash())?;
    Ok(Observation::SetSeen { chain, set })
}

fn only_header_keys(section: &Section<'_>) -> Result<(), RunError>
    ensures { Gives (λ u. u) result (only header_keys (section_view section.now)) }
{
    section.only(&[
        "kind", "chain", "height", "time", "root", "set", "next", "votes",
    ])
}

#[tactic(auto, using(rb_script_toml::proofs::Steps::steps), unfolding(crate::specs::Events::header_seen))]
fn read_header(
    section: &Section<'_>,
    chains: &Directory<ChainId>,
    names: &TurnNames<'_>,
) -> Result<Observation, RunError>
    ensures { Gives (λ e. e) result (header_seen chains.now (names_now names.now) (section_view section.now)) }
{
    only_header_keys(section)?;
    let chain = reference(section, "chain", chains)?;
    let height = section.height("height")?;
    let time = section.time("time")?;
    let root = section.hash_or_zero("root")?;
    let set = needed_set_hash(section, "set", chain, names)?;
    let next = needed_set_hash(section, "next", chain, names)?;
    let votes = needed_votes(section)?;
    let header = Header::new(height, Record::new(time, root, next), set, votes);
    Ok(Observation::HeaderSeen { chain, header })
}

fn only_stored_keys(section: &Section<'_>) -> Result<(), RunError>
    ensures { Gives (λ u. u) result (only stored_keys (section_view section.now)) }
{
    section.only(&["kind", "client", "height", "time", "root", "next"])
}

/// The chain that a client tracks.
fn tracked_by(clients: &Directory<ClientConfig>, client: usize) -> usize
    requires { client < length clients.now }
    ensures { result ≡ tracked_by clients.now client }
{
    clients.as_slice()[client].tracks
}

#[tactic(auto, using(rb_script_toml::proofs::Steps::steps), unfolding(crate::specs::Events::stored_seen))]
fn read_stored(
    section: &Section<'_>,
    clients: &Directory<ClientConfig>,
    names: &TurnNames<'_>,
) -> Result<Observation, RunError>
    ensures { Gives (λ e. e) result (stored_seen clients.now (names_now names.now) (section_view section.now)) }
{
    only_stored_keys(section)?;
    let client = reference(section, "client", clients)?;
    let height = section.height("height")?;
    let time = section.time("time")?;
    let root = section.hash_or_zero("root")?;
    let chain = tracked_by(clients, client);
    let next = needed_set_hash(section, "next", chain, names)?;
    let record = Record::new(time, root, next);
    Ok(Observation::StoredSeen {
        client,
        height,
        record,
    })
}

#[tactic(auto, using(rb_script_toml::proofs::Steps::steps, crate::proofs::EventsLemmas::events), unfolding(crate::specs::Events::event))]
fn read_event(
    section: &Section<'_>,
    setup: &Setup,
    names: &mut TurnNames<'_>,
    ready: Option<ReadySet>,
) -> Result<Observation, RunError>
    requires ready { IfSome ready (λ r. Gives (λ s. s) r.set (needs (codes "validators") validators (section_view section.now))) }
    ensures read { Gives (λ e. (e, names_now names.new)) result (event (setup_view setup.now) (names_now names.old) (section_view section.now)) }
    ensures earlier { names.new.earlier.now ≡ names.old.earlier.now }
{
    match needed_kind(section)? {
        EventKind::Set => read_set(section, &setup.chains, names, ready),
        EventKind::Header => read_header(section, &setup.chains, names),
        EventKind::Stored => read_stored(section, &setup.clients, names),
        EventKind::Sent => read_sent(setup.version, section, &setup.paths),
        EventKind::Received => read_received(section, &setup.paths),
        EventKind::Ack => read_ack(setup.version, section, &setup.paths),
        EventKind::Cleared => read_cleared(section, &setup.paths),
        EventKind::Closed => read_closed(section, &setup.paths),
    }
}

#[tactic(auto, using(rb_script_toml::proofs::Steps::steps))]
pub(crate) fn read_event_at(
    path: &str,
    index: usize,
    value: &Value,
    setup: &Setup,
    names: &mut TurnNames<'_>,
    ready: Option<ReadySet>,
) -> Result<Observation, RunError>
    requires ready { IfSome ready (λ r. Gives (λ s. s) r.set (validators_at path.now index (view value.now))) }
    ensures read { Gives (λ e. (e, names_now names.new)) result (next_in_sequence (event (setup_view setup.now)) path.now index (names_now names.old) (view value.now)) }
    ensures earlier { names.new.earlier.now ≡ names.old.earlier.now }
{
    let alloc = names.alloc;
    let path = element_path(alloc, path, index)?;
    let section = section_at(alloc, path.as_str(), value)?;
    read_event(&section, setup, names, ready)
}

/// Reads the events of a turn, each after the names that were given before it. Some sets may be ready.
#[tactic(auto, using(crate::proofs::ReadyLemmas::readies))]
pub fn read_events(
    path: &str,
    items: &[Value],
    setup: &Setup,
    names: &mut TurnNames<'_>,
    mut ready: Vec<ReadySet>,
) -> Result<Vec<Observation>, RunError>
    requires ready { AreReady path.now (items_view items.now) ready.items }
    ensures read { Gives (λ v. (v.items, names_now names.new)) result (in_sequence (event (setup_view setup.now)) path.now (names_now names.old) [] (items_view items.now)) }
    ensures earlier { names.new.earlier.now ≡ names.old.earlier.now }
{
    let mut events = Vec::with_capacity(names.alloc, items.len())?;
    for value in items {
        let place = events.len();
        let set = take_set(&mut ready, place);
        let event = read_event_at(path, place, value, setup, names, set)?;
        events.push(event)?;
    }
    Ok(events)
}
