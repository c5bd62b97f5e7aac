//! Where a path's packets go.
ghost use Rattle.std.specs.Prelude.{◌≡◌, MatchOption, option_map};
ghost use Rattle.rb_import_merge.specs.Counterparties.{AreCounterparties, HasSeveral};
ghost use Rattle.rb_import_merge.specs.Packets.{counterparty, events_in, events_of, first_dest, is_other, is_sending};

use crate::packets::{counts_as, is_source};
use rb_import_answers::{NodeAnswer, PacketEvent, PacketKind};
use rb_import_check::Saved;
use rb_import_setup::PathSetup;

/// Of the destinations that packets of a path's source were sent to the one that is taken, and another one; each is
/// a port and a channel as `port/channel`.
#[derive(Clone, Copy)]
pub struct Counterparties<'a> {
    pub taken: &'a str,
    pub other: &'a str,
}

/// The destination of the path's packets: the counterparty that the setup names, or else the destination of the first
/// of them that was sent.
pub fn counterparty<'a>(setup: &'a PathSetup, answers: &'a [Saved]) -> Option<&'a str>
    ensures { option_map (λ end. end.now) result ≡ counterparty setup.now (events_of answers.now) }
{
    match &setup.counterparty {
        Some(named) => Some(named.as_str()),
        None => first_dest(setup, None, answers),
    }
}

/// The destination that is taken, and another one, where the setup names no counterparty and a path's answers tell of
/// packets that were sent from its source to several.
pub fn several_counterparties<'a>(
    setup: &PathSetup,
    answers: &'a [Saved],
) -> Option<Counterparties<'a>>
    ensures { MatchOption result (¬ HasSeveral setup.now (events_of answers.now)) (λ c. HasSeveral setup.now (events_of answers.now) × AreCounterparties setup.now (events_of answers.now) c) }
{
    if setup.counterparty.is_some() {
        return None;
    }
    let taken = first_dest(setup, None, answers)?;
    let other = first_dest(setup, Some(taken), answers)?;
    Some(Counterparties { taken, other })
}

/// The destination of the first packet that was sent from the path's source to another one than this.
#[tactic(auto, using(crate::proofs::Sendings::searching))]
fn first_dest<'a>(setup: &PathSetup, but: Option<&str>, answers: &'a [Saved]) -> Option<&'a str>
    ensures { option_map (λ dest. dest.now) result ≡ first_dest setup.now (option_map (λ b. b.now) but.entry) (events_of answers.now) }
{
    for saved in answers {
        if let Some(dest) = first_dest_in(setup, but, events_in(&saved.answer)) {
            return Some(dest);
        }
    }
    None
}

/// The same of these events.
fn first_dest_in<'a>(
    setup: &PathSetup,
    but: Option<&str>,
    events: &'a [PacketEvent],
) -> Option<&'a str>
    ensures { option_map (λ dest. dest.now) result ≡ first_dest setup.now (option_map (λ b. b.now) but.entry) events.now }
{
    for event in events {
        if is_other(but, event.dest.as_str()) && is_sending(setup, event) {
            return Some(event.dest.as_str());
        }
    }
    None
}

/// The events that an answer tells of.
pub fn events_in(answer: &NodeAnswer) -> &[PacketEvent]
    ensures { result.now ≡ events_in answer.now }
{
    match answer {
        NodeAnswer::Transactions(page) => page.events.as_slice(),
        _ => &[],
    }
}

/// Whether a destination is another than this one, if there is this one.
fn is_other(but: Option<&str>, dest: &str) -> bool
    ensures { result ≡ is_other (option_map (λ b. b.now) but.entry) dest.now }
{
    match but {
        Some(one) => one != dest,
        None => true,
    }
}

/// Whether an event tells that a packet of the path's source was sent.
fn is_sending(setup: &PathSetup, event: &PacketEvent) -> bool
    ensures { result ≡ is_sending setup.now event.now }
{
    counts_as(event.kind, PacketKind::Sent) && is_source(setup, event.source.as_str())
}
