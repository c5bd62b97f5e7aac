//! Packets of a path that are left out, since the answers don't tell what became of them.
ghost use Rattle.std.specs.Prelude.{◌≡◌, ◌≤◌, ◌≢◌, ◌&&◌, ◌++◌, ◌==◌, nat_le, ℕ, None, true, All, Contains, IfOk, OnOk, filter, map, not};
ghost use Rattle.std.specs.List.{dedup, list_any};
ghost use Rattle.std.specs.List.Sorted.{IsPermutation, IsSorted, IsStrictlyIncreasing, IsStrictlySortedBy};
ghost use Rattle.rb_import_merge.specs.LeftOut.{AreLeftOut, HasEntry, IsLeftOutFor, entries, first_if_ordered, is_told_received, lack, lack_from, left_out_by, of_one_sequence, sequence_cmp, sequence_of, shown_by, shows, tell_receipts, tells_receipts, was_told};
ghost use Rattle.rb_import_answers.specs.declared.packets.PacketKind.{PacketKind};
ghost use Rattle.rb_import_merge.specs.Committed.{was};
ghost use Rattle.rb_import_merge.specs.Lowest.{packet_cmp};
ghost use Rattle.rb_import_merge.specs.Packets.{HaveEvents, IsOfFile};
ghost use Rattle.rb_import_merge.specs.Pending.{committed_in, lacks_receipt, tell_commitments, tell_unreceived};

use crate::packets::{SeenPacket, is_silent, tells_of, was};
use crate::pending::{committed_in, tell_commitments, tell_unreceived};
use crate::sequences::{Sequences, unreceived_of};
use rb_import_answers::PacketKind;
use rb_import_check::Saved;
use rb_import_setup::PathSetup;
use rb_scan::Order;
use std::alloc::{AllocError, Global};

/// What a packet of a path lacks, so that it is left out.
#[derive(Clone, Copy)]
pub enum PacketLack {
    /// It was received, acknowledged or cleared, or has a commitment, and no answer tells of its sending.
    Send,
    /// Its acknowledgement was written, or it isn't among the unreceived ones, and no answer tells of its receiving.
    Receive,
    /// It was sent, and no answer tells whether it was received.
    Receipt,
}

/// A packet of a path that is left out: its sequence, what it lacks, and the file of an answer that tells of it.
#[derive(Clone, Copy)]
pub struct LeftOutPacket<'a> {
    pub sequence: u64,
    pub lack: PacketLack,
    pub file: &'a str,
}

/// A path, its answers, and the events of packets that they tell of, by kind and sequence; whether answers tell which packets
/// were received, and whether they tell which of the pending packets weren't; and the sequences of those.
#[derive(Drop)]
struct PathEvents<'a, 'b> {
    setup: &'a PathSetup,
    answers: &'a [Saved],
    events: &'b [SeenPacket<'a>],
    has_receipts: bool,
    has_pending: bool,
    unreceived: Sequences,
    ghost order: { IsSorted packet_cmp events.now },
    ghost those: { (kind : PacketKind) (n : ℕ) → was kind n events.now ≡ was_told setup.now answers.now kind n },
    ghost receipts: { has_receipts ≡ tell_receipts answers.now },
    ghost pending: { has_pending ≡ (tell_commitments answers.now && tell_unreceived answers.now) },
    ghost missing: { (n : ℕ) → list_any (λ m. m == n) unreceived.sorted.items ≡ lacks_receipt answers.now n },
}

/// The packets of a path that are left out, by rising sequence: on an UNORDERED path those that lack something; on an
/// ORDERED path the first one that does, which stands for all of higher sequences. The events stand by kind and sequence.
pub fn left_out_of<'a>(
    alloc: Global,
    setup: &'a PathSetup,
    answers: &'a [Saved],
    events: &[SeenPacket<'a>],
) -> Result<Vec<LeftOutPacket<'a>>, AllocError>
    requires order { IsStrictlySortedBy packet_cmp events.now }
    requires those { HaveEvents setup.now answers.now events.now }
    requires files { All (IsOfFile answers.now) events.now }
    ensures { IfOk result (λ left. AreLeftOut setup.now answers.now left.items) }
{
    let unreceived = unreceived_of(alloc, answers)?;
    let told = PathEvents {
        setup,
        answers,
        events,
        has_receipts: tell_receipts(answers),
        has_pending: tell_pending(answers),
        unreceived,
    };
    let mut lacking = told.of_events(alloc)?;
    told.add_of_commitments(&mut lacking)?;
    let rising = by_sequence(lacking)?;
    Ok(first_if_ordered(setup.config.order, rising))
}

impl<'a> PathEvents<'a, '_> {
    /// What the packet of a sequence lacks, if it lacks something.
    fn lack_of(&self, sequence: u64) -> Option<PacketLack>
        ensures { result ≡ lack self.now.setup.now self.now.answers.now sequence }
    {
        if !self.was(PacketKind::Sent, sequence) {
            Some(PacketLack::Send)
        } else if self.was(PacketKind::Received, sequence) {
            None
        } else if self.was(PacketKind::AckWritten, sequence) || self.is_received(sequence) {
            Some(PacketLack::Receive)
        } else if self.has_receipts
            || self.was(PacketKind::Cleared, sequence)
            || self.was(PacketKind::TimedOut, sequence)
        {
            None
        } else {
            Some(PacketLack::Receipt)
        }
    }

    /// Whether the answers tell of an event of this kind of the packet of a sequence.
    fn was(&self, kind: PacketKind, sequence: u64) -> bool
        ensures { result ≡ was_told self.now.setup.now self.now.answers.now kind sequence }
    {
        was(self.events, kind, sequence)
    }

    /// Whether the packet of a sequence was received, as answers on the pending packets tell.
    fn is_received(&self, sequence: u64) -> bool
        ensures { result ≡ is_told_received self.now.answers.now sequence }
    {
        self.has_pending && !self.unreceived.has(sequence)
    }

    /// What a packet lacks, if this event of it shows that.
    fn shown_by(&self, seen: &SeenPacket<'_>) -> Option<PacketLack>
        ensures { result ≡ shown_by seen.now.event.now.kind (lack self.now.setup.now self.now.answers.now seen.now.event.now.sequence) }
    {
        let lack = self.lack_of(seen.event.sequence)?;
        if shows(lack, seen.event.kind) {
            Some(lack)
        } else {
            None
        }
    }

    /// The packets that lack something, as an event of theirs shows.
    fn of_events(&self, alloc: Global) -> Result<Vec<LeftOutPacket<'a>>, AllocError>
        requires those { HaveEvents self.now.setup.now self.now.answers.now self.now.events.now }
        requires files { All (IsOfFile self.now.answers.now) self.now.events.now }
        ensures reasons { IfOk result (λ lacking. All (IsLeftOutFor self.now.setup.now self.now.answers.now) lacking.items) }
        ensures all { IfOk result (λ lacking. All (λ p. shown_by p.event.now.kind (lack self.now.setup.now self.now.answers.now p.event.now.sequence) ≢ None → HasEntry p.event.now.sequence lacking.items) self.now.events.now) }
    {
        let mut lacking = Vec::new(alloc);
        for seen in self.events {
            let lack = self.shown_by(seen);
            add_lacking(seen.event.sequence, lack, seen.file, &mut lacking)?;
        }
        Ok(lacking)
    }

    /// Adds the packets with a commitment that lack something.
    fn add_of_commitments(&self, lacking: &mut Vec<LeftOutPacket<'a>>) -> Result<(), AllocError>
        ensures reasons { OnOk result (All (IsLeftOutFor self.now.setup.now self.now.answers.now) lacking.old.items → All (IsLeftOutFor self.now.setup.now self.now.answers.now) lacking.new.items) }
        ensures kept { OnOk result ((n : ℕ) → HasEntry n lacking.old.items → HasEntry n lacking.new.items) }
        ensures all { OnOk result (All (λ s. All (λ n. self.now.setup.now.config.first ≤ n → lack self.now.setup.now self.now.answers.now n ≢ None → HasEntry n lacking.new.items) (committed_in s.answer)) self.now.answers.now) }
    {
        for saved in self.answers {
            self.add_committed(saved, lacking)?;
        }
        Ok(())
    }

    /// Adds the packets that lack something among those with a commitment, as one of the answers tells.
    fn add_committed(
        &self,
        saved: &'a Saved,
        lacking: &mut Vec<LeftOutPacket<'a>>,
    ) -> Result<(), AllocError>
        ensures reasons { OnOk result (Contains self.now.answers.now saved.entry.now → All (IsLeftOutFor self.now.setup.now self.now.answers.now) lacking.old.items → All (IsLeftOutFor self.now.setup.now self.now.answers.now) lacking.new.items) }
        ensures kept { OnOk result ((n : ℕ) → HasEntry n lacking.old.items → HasEntry n lacking.new.items) }
        ensures all { OnOk result (All (λ n. self.now.setup.now.config.first ≤ n → lack self.now.setup.now self.now.answers.now n ≢ None → HasEntry n lacking.new.items) (committed_in saved.entry.now.answer)) }
    {
        let file = saved.file.as_str();
        for sequence in committed_in(&saved.answer) {
            let lack = self.lack_from_first(*sequence);
            add_lacking(*sequence, lack, file, lacking)?;
        }
        Ok(())
    }

    /// What the packet of a sequence lacks, unless that is below the path's first one.
    fn lack_from_first(&self, sequence: u64) -> Option<PacketLack>
        ensures { result ≡ lack_from self.now.setup.now.config.first sequence (lack self.now.setup.now self.now.answers.now sequence) }
    {
        if sequence < self.setup.config.first.get() {
            None
        } else {
            self.lack_of(sequence)
        }
    }
}

/// Adds the packet of a sequence with what it lacks, if it lacks something.
#[tactic(auto, using(crate::proofs::Leaving::entries_none))]
fn add_lacking<'a>(
    sequence: u64,
    lack: Option<PacketLack>,
    file: &'a str,
    lacking: &mut Vec<LeftOutPacket<'a>>,
) -> Result<(), AllocError>
    ensures { OnOk result (lacking.new.items ≡ lacking.old.items ++ entries sequence lack file.entry) }
{
    match lack {
        Some(lack) => lacking.push(LeftOutPacket {
            sequence,
            lack,
            file,
        })?,
        None => {}
    }
    Ok(())
}

/// Whether answers tell which packets were received: of a path's commitments and of those of them that weren't received; or
/// of packets that were received, or a search found nothing.
fn tell_receipts(answers: &[Saved]) -> bool
    ensures { result ≡ tell_receipts answers.now }
{
    if tell_commitments(answers) {
        tell_unreceived(answers)
    } else {
        some_tells_receipts(answers)
    }
}

/// Whether one of the answers tells of packets that were received, or is of a search that found nothing.
fn some_tells_receipts(answers: &[Saved]) -> bool
    ensures { result ≡ list_any tells_receipts answers.now }
{
    answers.iter().any(|saved| tells_receipts(saved))
}

/// Whether answers tell which packets are pending, and which of these weren't received.
fn tell_pending(answers: &[Saved]) -> bool
    ensures { result ≡ (tell_commitments answers.now && tell_unreceived answers.now) }
{
    tell_commitments(answers) && tell_unreceived(answers)
}

/// Whether an answer tells of packets that were received, or is of a search that found nothing.
#[tactic(auto, unfolding(crate::specs::LeftOut::tells_receipts))]
fn tells_receipts(saved: &Saved) -> bool
    ensures { result ≡ tells_receipts saved.now }
{
    tells_of(&saved.answer, PacketKind::Received) || is_silent(saved)
}

/// Whether an event of a kind shows that its packet lacks this.
fn shows(lack: PacketLack, kind: PacketKind) -> bool
    ensures { result ≡ shows lack kind }
{
    match (lack, kind) {
        (PacketLack::Send, _)
        | (PacketLack::Receive, PacketKind::AckWritten)
        | (PacketLack::Receipt, PacketKind::Sent) => true,
        _ => false,
    }
}

/// These packets by rising sequence, each once.
fn by_sequence<'a>(lacking: Vec<LeftOutPacket<'a>>) -> Result<Vec<LeftOutPacket<'a>>, AllocError>
    ensures among { IfOk result (λ rising. All (Contains lacking.entry.items) rising.items) }
    ensures all { IfOk result (λ rising. All (λ l. HasEntry l.sequence rising.items) lacking.entry.items) }
    ensures rising { IfOk result (λ rising. IsStrictlyIncreasing (map sequence_of rising.items)) }
{
    let sorted = in_order(lacking)?;
    Ok(firsts_of(sorted))
}

/// These packets by sequence.
fn in_order<'a>(lacking: Vec<LeftOutPacket<'a>>) -> Result<Vec<LeftOutPacket<'a>>, AllocError>
    ensures same { IfOk result (λ sorted. IsPermutation lacking.entry.items sorted.items) }
    ensures order { IfOk result (λ sorted. IsSorted sequence_cmp sorted.items) }
{
    let mut sorted = lacking;
    sorted.sort_by_key(|packet: &LeftOutPacket| packet.sequence)?;
    Ok(sorted)
}

/// The first of each run of packets of one sequence.
fn firsts_of<'a>(lacking: Vec<LeftOutPacket<'a>>) -> Vec<LeftOutPacket<'a>>
    ensures { result.items ≡ dedup of_one_sequence lacking.entry.items }
{
    let mut firsts = lacking;
    firsts.dedup_by_key(|packet: &mut LeftOutPacket| packet.sequence);
    firsts
}

/// On an ORDERED path the first of these packets, on an UNORDERED one all.
fn first_if_ordered<'a>(order: Order, rising: Vec<LeftOutPacket<'a>>) -> Vec<LeftOutPacket<'a>>
    ensures { result.items ≡ first_if_ordered order rising.entry.items }
{
    let mut left_out = rising;
    match order {
        Order::Ordered => left_out.truncate(1),
        Order::Unordered => {}
    }
    left_out
}

/// Those of these packets that stay beside the ones that are left out, which stand by rising sequence.
pub fn staying_of<'a>(
    order: Order,
    left_out: &[LeftOutPacket<'_>],
    packets: Vec<SeenPacket<'a>>,
) -> Vec<SeenPacket<'a>>
    requires { IsStrictlyIncreasing (map sequence_of left_out.now) }
    ensures { result.items ≡ filter (λ p. not (left_out_by order left_out.now p.event.now.sequence)) packets.entry.items }
{
    let mut staying = packets;
    staying.retain(|seen: &SeenPacket| !is_left_out(order, left_out, seen.event.sequence));
    staying
}

/// Whether the packet of a sequence is left out, by those that are, which stand by rising sequence.
fn is_left_out(order: Order, left_out: &[LeftOutPacket<'_>], sequence: u64) -> bool
    ensures { IsStrictlyIncreasing (map sequence_of left_out.now) → result ≡ left_out_by order left_out.now sequence }
{
    match order {
        Order::Ordered => is_behind(left_out, sequence),
        Order::Unordered => is_among(left_out, sequence),
    }
}

/// Whether one of these packets has this sequence or a lower one.
fn is_behind(left_out: &[LeftOutPacket<'_>], sequence: u64) -> bool
    ensures { result ≡ list_any (λ l. nat_le l.sequence sequence) left_out.now }
{
    left_out.iter().any(|packet| packet.sequence <= sequence)
}

/// Whether one of these packets, which stand by rising sequence, has this sequence.
fn is_among(left_out: &[LeftOutPacket<'_>], sequence: u64) -> bool
    ensures { IsStrictlyIncreasing (map sequence_of left_out.now) → result ≡ list_any (λ l. l.sequence == sequence) left_out.now }
{
    left_out
        .binary_search_by_key(&sequence, |packet: &LeftOutPacket| packet.sequence)
        .is_ok()
}
