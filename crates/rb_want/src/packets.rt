//! Pending packets, by the answers in the folder of a path.
ghost use Rattle.std.specs.Prelude.{◌≡◌, IfOk, ◌&&◌, find};
ghost use Rattle.std.specs.Option.{option_copied};
ghost use Rattle.std.specs.List.{flat_map, list_any};
ghost use Rattle.std.specs.List.Sorted.{IsNonDecreasing};
ghost use Rattle.std.specs.Str.{bytes_eq};
ghost use Rattle.rb_want_requests.specs.PacketPaths.{pending_in};
ghost use Rattle.rb_want_requests.specs.Pending.{committed_in};
ghost use Rattle.rb_want.specs.Packets.{AreOf, acknowledged_of, are_complete, has, have_parts, is_ack_written, is_acknowledged, is_received, is_sent_to_wait, may_wait, parts_in, parts_of, sent_block, sent_in, tells_ack_written, tells_sent_to_wait, unreceived_of, written_block, written_in};

use rb_base::Height;
use rb_import_answers::{PacketEvent, PacketKind};
use rb_want_requests::{Content, Folder, PartKind, SEQUENCES_A_PART, next_part};
use std::alloc::{AllocError, Global};

/// The pending packets of a path: the sequences of the commitments, in the order of the answers; the sequences that weren't
/// received, and those with an acknowledgement, by rising sequence; and whether all parts have both answers.
#[derive(Drop)]
pub struct PacketAnswers<'a> {
    pub folder: &'a Folder,
    pub pending: Vec<u64>,
    unreceived: Vec<u64>,
    acknowledged: Vec<u64>,
    is_complete: bool,
    ghost committed: { pending.items ≡ pending_in folder.now.contents.items },
    ghost not_received: { AreOf (flat_map unreceived_of folder.now.contents.items) unreceived.items },
    ghost written: { AreOf (flat_map acknowledged_of folder.now.contents.items) acknowledged.items },
    ghost answered: { is_complete ≡ are_complete folder.now.contents.items },
}

impl<'a> PacketAnswers<'a> {
    /// The pending packets by the answers in the folder of a path.
    pub fn of(alloc: Global, folder: &'a Folder) -> Result<PacketAnswers<'a>, AllocError>
        ensures { IfOk result (λ answers. answers.folder.now ≡ folder.entry.now) }
    {
        let contents = folder.contents.as_slice();
        let pending = pending_in(alloc, contents)?;
        let is_complete = are_complete(contents, parts_of(pending.as_slice()));
        Ok(PacketAnswers {
            folder,
            pending,
            unreceived: sorted(unreceived_in(alloc, contents)?),
            acknowledged: sorted(acknowledged_in(alloc, contents)?),
            is_complete,
        })
    }

    /// How many parts the pending packets have.
    pub fn parts(&self) -> u64
        ensures { result ≡ parts_in self.now.folder.now.contents.items }
    {
        parts_of(self.pending.as_slice())
    }

    /// Whether a pending packet was received.
    pub fn is_received(&self, sequence: u64) -> bool
        ensures { result ≡ is_received self.now.folder.now.contents.items sequence }
    {
        self.is_complete && !has(self.unreceived.as_slice(), sequence)
    }

    /// Whether the acknowledgement of a pending packet was written.
    pub fn is_acknowledged(&self, sequence: u64) -> bool
        ensures { result ≡ is_acknowledged self.now.folder.now.contents.items sequence }
    {
        self.is_complete && has(self.acknowledged.as_slice(), sequence)
    }
}

/// How many parts these pending packets have.
fn parts_of(pending: &[u64]) -> u64
    ensures { result ≡ parts_of pending.now }
{
    (pending.len() as u64).div_ceil(SEQUENCES_A_PART)
}

/// Whether so many parts of the pending packets have their answers: which weren't received, and which acknowledgements were
/// written.
fn are_complete(contents: &[Content], parts: u64) -> bool
    ensures { result ≡ have_parts parts contents.now }
{
    parts < next_part(contents, &PartKind::Unreceived)
        && parts < next_part(contents, &PartKind::Acknowledgements)
}

/// Whether a sequence is among these, which rise.
fn has(sequences: &[u64], sequence: u64) -> bool
    requires { IsNonDecreasing sequences.now }
    ensures { result ≡ has sequence sequences.now }
{
    sequences.binary_search(&sequence).is_ok()
}

/// These sequences by rising sequence.
fn sorted(mut sequences: Vec<u64>) -> Vec<u64>
    ensures { AreOf sequences.items result.items }
{
    sequences.sort_unstable();
    sequences
}

/// The sequences of the commitments that answers tell of.
fn pending_in(alloc: Global, contents: &[Content]) -> Result<Vec<u64>, AllocError>
    ensures { IfOk result (λ sequences. sequences.items ≡ pending_in contents.now) }
{
    let mut sequences = Vec::new(alloc);
    for content in contents {
        sequences.extend_from_slice(committed_in(content))?;
    }
    Ok(sequences)
}

/// The sequences of the packets that answers tell weren't received.
fn unreceived_in(alloc: Global, contents: &[Content]) -> Result<Vec<u64>, AllocError>
    ensures { IfOk result (λ sequences. sequences.items ≡ flat_map unreceived_of contents.now) }
{
    let mut sequences = Vec::new(alloc);
    for content in contents {
        sequences.extend_from_slice(unreceived_of(content))?;
    }
    Ok(sequences)
}

/// The sequences of the packets of which answers tell that the acknowledgement was written.
fn acknowledged_in(alloc: Global, contents: &[Content]) -> Result<Vec<u64>, AllocError>
    ensures { IfOk result (λ sequences. sequences.items ≡ flat_map acknowledged_of contents.now) }
{
    let mut sequences = Vec::new(alloc);
    for content in contents {
        sequences.extend_from_slice(acknowledged_of(content))?;
    }
    Ok(sequences)
}

fn committed_in(content: &Content) -> &[u64]
    ensures { result.now ≡ committed_in content.now }
{
    match content {
        Content::Commitments { page, .. } => page.sequences.as_slice(),
        _ => &[],
    }
}

fn unreceived_of(content: &Content) -> &[u64]
    ensures { result.now ≡ unreceived_of content.now }
{
    match content {
        Content::Unreceived { sequences, .. } => sequences.as_slice(),
        _ => &[],
    }
}

fn acknowledged_of(content: &Content) -> &[u64]
    ensures { result.now ≡ acknowledged_of content.now }
{
    match content {
        Content::Acknowledgements { sequences, .. } => sequences.as_slice(),
        _ => &[],
    }
}

/// Whether an answer tells that the acknowledgement of a packet was written, by its sequence and its source as `port/channel`.
pub fn tell_ack_written(contents: &[Content], source: &str, sequence: u64) -> bool
    ensures { result ≡ list_any (tells_ack_written source.now sequence) contents.now }
{
    contents
        .iter()
        .any(|content| tells_ack_written(content, source, sequence))
}

fn tells_ack_written(content: &Content, source: &str, sequence: u64) -> bool
    ensures { result ≡ tells_ack_written source.now sequence content.now }
{
    match content {
        Content::Search(page) => is_ack_among(page.events.as_slice(), source, sequence),
        _ => false,
    }
}

fn is_ack_among(events: &[PacketEvent], source: &str, sequence: u64) -> bool
    ensures { result ≡ list_any (is_ack_written source.now sequence) events.now }
{
    events
        .iter()
        .any(|event| is_ack_written(event, source, sequence))
}

fn is_ack_written(event: &PacketEvent, source: &str, sequence: u64) -> bool
    ensures { result ≡ is_ack_written source.now sequence event.now }
{
    matches!(event.kind, PacketKind::AckWritten)
        && event.sequence == sequence
        && event.source.as_str() == source
}

/// Whether a packet has no timeout height. One that has waits for no other packet, since the times of blocks to come are not
/// known.
fn may_wait(event: &PacketEvent) -> bool
    ensures { result ≡ may_wait event.now }
{
    event.timeout_height.revision == 0 && event.timeout_height.height == 0
}

fn is_sent_to_wait(event: &PacketEvent, source: &str, sequence: u64) -> bool
    ensures { result ≡ is_sent_to_wait source.now sequence event.now }
{
    matches!(event.kind, PacketKind::Sent)
        && event.sequence == sequence
        && event.source.as_str() == source
        && may_wait(event)
}

fn is_any_sent_to_wait(events: &[PacketEvent], source: &str, sequence: u64) -> bool
    ensures { result ≡ list_any (is_sent_to_wait source.now sequence) events.now }
{
    events
        .iter()
        .any(|event| is_sent_to_wait(event, source, sequence))
}

fn tells_sent_to_wait(content: &Content, source: &str, sequence: u64) -> bool
    ensures { result ≡ tells_sent_to_wait source.now sequence content.now }
{
    match content {
        Content::Search(page) => is_any_sent_to_wait(page.events.as_slice(), source, sequence),
        _ => false,
    }
}

/// The first answer that tells the sending of a packet whose receive may wait.
fn first_sending<'a>(contents: &'a [Content], source: &str, sequence: u64) -> Option<&'a Content>
    ensures { option_copied result ≡ find (tells_sent_to_wait source.now sequence) contents.entry.now }
{
    contents
        .iter()
        .find(|content| tells_sent_to_wait(content, source, sequence))
}

/// The first event by which a packet was sent whose receive may wait.
fn sent_among<'a>(events: &'a [PacketEvent], source: &str, sequence: u64) -> Option<&'a PacketEvent>
    ensures { option_copied result ≡ find (is_sent_to_wait source.now sequence) events.entry.now }
{
    events
        .iter()
        .find(|event| is_sent_to_wait(event, source, sequence))
}

fn sent_in(content: &Content, source: &str, sequence: u64) -> Option<Height>
    ensures { result ≡ sent_in source.now sequence content.now }
{
    match content {
        Content::Search(page) => {
            Some(sent_among(page.events.as_slice(), source, sequence)?.block)
        }
        _ => None,
    }
}

/// In which block a packet was sent whose receive may wait, by its sequence and its source as `port/channel`.
pub fn sent_block(contents: &[Content], source: &str, sequence: u64) -> Option<Height>
    ensures { result ≡ sent_block source.now sequence contents.now }
{
    sent_in(first_sending(contents, source, sequence)?, source, sequence)
}

/// The first answer that tells the writing of a packet's acknowledgement.
fn first_writing<'a>(contents: &'a [Content], source: &str, sequence: u64) -> Option<&'a Content>
    ensures { option_copied result ≡ find (tells_ack_written source.now sequence) contents.entry.now }
{
    contents
        .iter()
        .find(|content| tells_ack_written(content, source, sequence))
}

/// The first event by which the acknowledgement of a packet was written.
fn written_among<'a>(
    events: &'a [PacketEvent],
    source: &str,
    sequence: u64,
) -> Option<&'a PacketEvent>
    ensures { option_copied result ≡ find (is_ack_written source.now sequence) events.entry.now }
{
    events
        .iter()
        .find(|event| is_ack_written(event, source, sequence))
}

fn written_in(content: &Content, source: &str, sequence: u64) -> Option<Height>
    ensures { result ≡ written_in source.now sequence content.now }
{
    match content {
        Content::Search(page) => {
            Some(written_among(page.events.as_slice(), source, sequence)?.block)
        }
        _ => None,
    }
}

/// In which block the acknowledgement of a packet was written, by its sequence and its source as `port/channel`.
pub fn written_block(contents: &[Content], source: &str, sequence: u64) -> Option<Height>
    ensures { result ≡ written_block source.now sequence contents.now }
{
    written_in(first_writing(contents, source, sequence)?, source, sequence)
}
