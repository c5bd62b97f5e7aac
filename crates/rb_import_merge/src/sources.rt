//! Where the packets come from that a path's answers tell of.
ghost use Rattle.std.specs.Prelude.{◌≡◌, ◌⊎◌, Some, None, MatchOption, option_map, true, false};
ghost use Rattle.rb_import_merge.specs.Sources.{AreSources, LacksSource, first_source, source_of, tell_from, tells_from};

use crate::counterparties::events_in;
use rb_import_answers::PacketEvent;
use rb_import_check::Saved;
use rb_import_setup::PathSetup;

/// The source that a setup names for a path, and that of the first packet that the answers tell of, which is another
/// one; each is a port and a channel as `port/channel`.
#[derive(Clone, Copy)]
pub struct OtherSource<'a> {
    pub named: &'a str,
    pub told: &'a str,
}

/// The source that the setup names and that of the first packet, where a path's answers tell of packets, but of none
/// from the named one.
pub fn other_source<'a>(setup: &'a PathSetup, answers: &'a [Saved]) -> Option<OtherSource<'a>>
    ensures { MatchOption result (¬ LacksSource setup.entry.now answers.entry.now) (λ s. LacksSource setup.entry.now answers.entry.now × AreSources setup.entry.now answers.entry.now s) }
{
    match &setup.source_channel {
        Some(named) => other_than(named.as_str(), answers),
        None => None,
    }
}

/// This source and that of the first packet, where the answers tell of packets, but of none from this one.
fn other_than<'a>(named: &'a str, answers: &'a [Saved]) -> Option<OtherSource<'a>>
    ensures { MatchOption result ((tell_from named.entry.now answers.entry.now ≡ true) ⊎ (first_source answers.entry.now ≡ None)) (λ s. (tell_from named.entry.now answers.entry.now ≡ false) × (s.named.now ≡ named.entry.now) × (first_source answers.entry.now ≡ Some s.told.now)) }
{
    if tell_from(answers, named) {
        return None;
    }
    let told = first_source(answers)?;
    Some(OtherSource { named, told })
}

/// Whether one of the answers tells of a packet from this source.
fn tell_from(answers: &[Saved], source: &str) -> bool
    ensures { result ≡ tell_from source.now answers.now }
{
    answers.iter().any(|saved| tells_from(saved, source))
}

/// Whether an answer tells of a packet from this source.
fn tells_from(saved: &Saved, source: &str) -> bool
    ensures { result ≡ tells_from source.now saved.now }
{
    events_in(&saved.answer)
        .iter()
        .any(|event| event.source.as_str() == source)
}

/// The source of the first packet that the answers tell of.
fn first_source<'a>(answers: &'a [Saved]) -> Option<&'a str>
    ensures { option_map (λ source. source.now) result ≡ first_source answers.now }
{
    for saved in answers {
        if let Some(source) = source_of(events_in(&saved.answer)) {
            return Some(source);
        }
    }
    None
}

/// The source of the first of these packets.
fn source_of<'a>(events: &'a [PacketEvent]) -> Option<&'a str>
    ensures { option_map (λ source. source.now) result ≡ source_of events.now }
{
    match events.first() {
        Some(event) => Some(event.source.as_str()),
        None => None,
    }
}
