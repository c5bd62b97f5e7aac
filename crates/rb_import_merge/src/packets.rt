//! What was seen of a path's packets.
ghost use Rattle.std.specs.Prelude.{◌≡◌, [], ◌∷◌, ◌++◌, if◌then◌else◌, true, false, None, All, Any, IfOk, IfErr, IfSome, IsSomeAnd, OnOk, count_by, filter, map, option_map, string_bytes};
ghost use Rattle.std.specs.List.{flat_map, list_any};
ghost use Rattle.std.specs.List.Sorted.{IsPermutation, IsSorted, IsStrictlySortedBy};
ghost use Rattle.rb_import_check.specs.Errors.{IsTold, IsToldOf};
ghost use Rattle.rb_import_merge.specs.Committed.{was};
ghost use Rattle.rb_import_merge.specs.Lowest.{kind_cmp, packet_cmp};
ghost use Rattle.rb_import_merge.specs.Packets.{AreFromOne, IsOfFile, IsOfPath, IsOfOtherFolder, HaveEvents, Expires, ExpiresAt, expiry_at, within_heights, is_on_packets, is_source, is_dest, is_wanted, counts_as, is_silent, lacks, one_if, some_timed_out, tells_of, events_of, filed_event, seen_events};
ghost use Rattle.rb_import_merge.specs.Named.{NamesOfPath};
ghost use Rattle.rb_import_merge.specs.Pending.{lack_last_page, tells_done};
ghost use Rattle.rb_import_merge.specs.Refusals.{HasReasonOfPath, IsFromOther};
ghost use Rattle.rb_import_merge.specs.Totals.{IsCutShort, count_in, count_with, filed_page, filed_pages_of, is_whole, pages_of};

use crate::counterparties::counterparty;
use crate::lowest::{lowest_of, place_of};
use crate::pending::judge_last_page;
use crate::sequences::{PendingPackets, pending_packets};
use rb_base::{ChainId, Height};
use rb_import_answers::{
    NodeAnswer, PacketEvent, PacketKind, PacketPage, Pending, RevisionHeight, revision_of,
};
use rb_import_check::{CheckErrorName, ImportError, Saved};
use rb_import_setup::PathSetup;
use std::alloc::{AllocError, Global};

/// An event of a packet, its file, and the height of the destination's chain from which on the packet isn't
/// received any more (0: none).
#[derive(Clone, Copy)]
pub struct SeenPacket<'a> {
    pub file: &'a str,
    pub event: &'a PacketEvent,
    pub expiry: u64,
}

/// The height of the first block (CometBFT).
const FIRST_HEIGHT: u64 = 1;

/// Of what a path's answers tell nothing: that packets were sent, that they were received, that they were cleared;
/// and how many answers tell of no packet at all, as those of a search that found nothing.
#[derive(Clone, Copy)]
pub struct Searches {
    pub lacks_sent: bool,
    pub lacks_received: bool,
    pub lacks_cleared: bool,
    pub empty: usize,
}

impl Searches {
    ghost use Rattle.std.specs.Prelude.{◌<◌, ◌↔◌, IsTrue};
    ghost use Rattle.rb_import_merge.specs.Packets.{lacking};

    /// Whether a search isn't there: fewer answers are empty than kinds of events are lacking.
    pub fn are_missing(&self) -> bool
        ensures { IsTrue result ↔ (self.now.empty < lacking self.now) }
    {
        let lacking = one_if(self.lacks_sent)
            + one_if(self.lacks_received)
            + one_if(self.lacks_cleared);
        self.empty < lacking
    }
}

fn one_if(holds: bool) -> usize
    ensures { result ≡ one_if holds }
{
    if holds { 1 } else { 0 }
}

/// A page of transactions, and its file.
#[derive(Clone, Copy)]
struct Page<'a> {
    file: &'a str,
    page: &'a PacketPage,
}

/// The events of a path's packets that its answers tell of, from its first sequence on: those that were sent, received,
/// acknowledged and cleared, by kind and sequence; where answers tell of commitments, of the pending packets alone. Of several
/// of one kind and sequence the one of the lowest block; two that tell of one sending and differ are refused.
pub fn path_events<'a>(
    alloc: Global,
    setup: &'a PathSetup,
    dest: &ChainId,
    answers: &'a [Saved],
) -> Result<Vec<SeenPacket<'a>>, ImportError<'a>>
    ensures path { IfOk result (λ packets. All (IsOfPath setup.entry.now answers.entry.now) packets.items) }
    ensures events { IfOk result (λ packets. HaveEvents setup.entry.now answers.entry.now packets.items) }
    ensures files { IfOk result (λ packets. All (IsOfFile answers.entry.now) packets.items) }
    ensures expiry { IfOk result (λ packets. All (Expires dest.now) packets.items) }
    ensures source { IfOk result (λ packets. setup.entry.now.source_channel ≡ None → AreFromOne packets.items) }
    ensures order { IfOk result (λ packets. IsStrictlySortedBy packet_cmp packets.items) }
    ensures last_page { OnOk result (lack_last_page answers.entry.now ≡ false) }
    ensures answers { OnOk result (All (λ s. is_on_packets s.answer ≡ true) answers.entry.now) }
    ensures whole { OnOk result (All (λ p. is_whole p.total (pages_of answers.entry.now) ≡ true) (pages_of answers.entry.now)) }
    ensures reason { IfErr result (HasReasonOfPath setup.entry.now answers.entry.now) }
    ensures named { IfErr result (NamesOfPath setup.entry.now answers.entry.now) }
    ensures told { IfErr result (IsToldOf setup.entry.now.config.id) }
{
    let id = setup.config.id.as_str();
    judge_kinds(id, answers)?;
    let pages = pages_of(alloc, answers)?;
    judge_totals(id, pages.as_slice())?;
    let all = all_events(alloc, revision_of(dest.as_str()), pages.as_slice())?;
    let end = counterparty(setup, answers);
    let wanted = wanted_of(alloc, setup, end, answers, all.as_slice())?;
    let lowest = lowest_of(id, wanted)?;
    judge_last_page(id, answers)?;
    Ok(lowest)
}

/// These packets by kind, block and sequence.
pub fn by_block<'a>(packets: Vec<SeenPacket<'a>>) -> Result<Vec<SeenPacket<'a>>, AllocError>
    ensures same { IfOk result (λ sorted. IsPermutation packets.entry.items sorted.items) }
    ensures order { IfOk result (λ sorted. IsSorted kind_cmp sorted.items) }
{
    let mut sorted = packets;
    sorted.sort_by_key(|seen: &SeenPacket| {
        (
            place_of(seen.event.kind),
            seen.event.block.get(),
            seen.event.sequence,
        )
    })?;
    Ok(sorted)
}

/// The height of a chain of this revision from which on a packet with this timeout isn't received any more;
/// 0 is none.
pub fn expiry_at(revision: u64, timeout: RevisionHeight) -> u64
    ensures { result ≡ expiry_at revision timeout }
{
    if timeout.revision == 0 && timeout.height == 0 || revision < timeout.revision {
        0
    } else if timeout.revision < revision {
        FIRST_HEIGHT
    } else {
        within_heights(timeout.height)
    }
}

/// The block's height that is nearest to a number.
fn within_heights(number: u64) -> u64
    ensures { result ≡ within_heights number }
{
    if number < FIRST_HEIGHT {
        FIRST_HEIGHT
    } else if number <= Height::MAX {
        number
    } else {
        Height::MAX
    }
}

/// Of what a path's answers tell nothing.
pub fn searches_of(answers: &[Saved]) -> Searches
    ensures sent { result.lacks_sent ≡ lacks PacketKind.Sent answers.now }
    ensures received { result.lacks_received ≡ lacks PacketKind.Received answers.now }
    ensures cleared { result.lacks_cleared ≡ lacks PacketKind.Cleared answers.now }
    ensures empty { result.empty ≡ count_by is_silent answers.now }
{
    Searches {
        lacks_sent: lacks(answers, PacketKind::Sent),
        lacks_received: lacks(answers, PacketKind::Received),
        lacks_cleared: lacks(answers, PacketKind::Cleared),
        empty: count_empty(answers),
    }
}

/// How many answers tell of no packet.
#[tactic(auto, using(crate::proofs::Counts::counting))]
fn count_empty(answers: &[Saved]) -> usize
    ensures { result ≡ count_by is_silent answers.now }
{
    let mut count: usize = 0;
    for saved in answers {
        if is_silent(saved) {
            count += 1;
        }
    }
    count
}

/// Whether no answer tells of an event of this kind.
fn lacks(answers: &[Saved], kind: PacketKind) -> bool
    ensures { result ≡ lacks kind answers.now }
{
    !tell_of(answers, kind)
}

/// Whether some answer tells of an event of this kind.
fn tell_of(answers: &[Saved], kind: PacketKind) -> bool
    ensures { result ≡ list_any (λ s. tells_of kind s.answer) answers.now }
{
    answers.iter().any(|saved| tells_of(&saved.answer, kind))
}

/// Whether an answer tells of an event of this kind, or of which packets that was done.
pub fn tells_of(answer: &NodeAnswer, kind: PacketKind) -> bool
    ensures { result ≡ tells_of kind answer.now }
{
    match answer {
        NodeAnswer::Transactions(page) => has_kind(page.events.as_slice(), kind),
        NodeAnswer::Pending(pending) => tells_done(pending, kind),
        _ => false,
    }
}

/// Whether an answer on pending packets tells of which packets this was done.
fn tells_done(pending: &Pending, kind: PacketKind) -> bool
    ensures { result ≡ tells_done kind pending.now }
{
    match (kind, pending) {
        (PacketKind::Sent, Pending::Commitments(_))
        | (PacketKind::Cleared, Pending::Commitments(_))
        | (PacketKind::Received, Pending::Unreceived(_))
        | (PacketKind::AckWritten, Pending::Acknowledgements(_)) => true,
        _ => false,
    }
}

/// Whether one of these events is of this kind.
fn has_kind(events: &[PacketEvent], kind: PacketKind) -> bool
    ensures { result ≡ list_any (λ e. counts_as e.kind kind) events.now }
{
    events.iter().any(|event| counts_as(event.kind, kind))
}

/// Whether an event of a kind counts as one of another: a packet that timed out is cleared.
pub fn counts_as(kind: PacketKind, other: PacketKind) -> bool
    ensures { result ≡ counts_as kind other }
{
    match (kind, other) {
        (PacketKind::Sent, PacketKind::Sent)
        | (PacketKind::Received, PacketKind::Received)
        | (PacketKind::AckWritten, PacketKind::AckWritten)
        | (PacketKind::Cleared, PacketKind::Cleared)
        | (PacketKind::TimedOut, PacketKind::Cleared)
        | (PacketKind::TimedOut, PacketKind::TimedOut) => true,
        _ => false,
    }
}

/// Whether one of these packets timed out.
pub fn some_timed_out(packets: &[SeenPacket<'_>]) -> bool
    ensures { result ≡ some_timed_out packets.now }
{
    packets
        .iter()
        .any(|seen| counts_as(seen.event.kind, PacketKind::TimedOut))
}

/// Whether an answer tells of no packet.
#[tactic(auto, unfolding(crate::specs::Packets::is_silent))]
pub fn is_silent(saved: &Saved) -> bool
    ensures { result ≡ is_silent saved.now }
{
    match &saved.answer {
        NodeAnswer::Transactions(page) => page.events.is_empty(),
        _ => false,
    }
}

/// Refuses the first answer that is neither on packets nor of a kind that isn't needed: it belongs into another folder.
fn judge_kinds<'a>(id: &'a str, answers: &'a [Saved]) -> Result<(), ImportError<'a>>
    ensures accepted { OnOk result (All (λ s. is_on_packets s.answer ≡ true) answers.entry.now) }
    ensures refused { IfErr result (IsOfOtherFolder answers.entry.now) }
    ensures told { IfErr result (IsToldOf id.entry.now) }
{
    for saved in answers {
        if !is_on_packets(&saved.answer) {
            let file = saved.file.as_str();
            return Err(ImportError::in_file(CheckErrorName::WrongFolder, id, file));
        }
    }
    Ok(())
}

/// Whether a path may have an answer.
fn is_on_packets(answer: &NodeAnswer) -> bool
    ensures { result ≡ is_on_packets answer.now }
{
    match answer {
        NodeAnswer::Transactions(_) | NodeAnswer::Pending(_) | NodeAnswer::Other(_) => true,
        _ => false,
    }
}

/// The pages of transactions among a path's answers.
#[tactic(auto, using(rb_import_check::proofs::Sorting::taking))]
fn pages_of(alloc: Global, answers: &[Saved]) -> Result<Vec<Page<'_>>, AllocError>
    ensures pages { IfOk result (λ pages. map (λ p. p.page.now) pages.items ≡ pages_of answers.now) }
    ensures files { IfOk result (λ pages. map filed_page pages.items ≡ filed_pages_of answers.now) }
{
    let mut pages = Vec::new(alloc);
    for saved in answers {
        if let NodeAnswer::Transactions(page) = &saved.answer {
            let file = saved.file.as_str();
            pages.push(Page { file, page })?;
        }
    }
    Ok(pages)
}

/// Refuses the first page whose transactions aren't all of some searches: the pages with one total are those of
/// searches with that total.
fn judge_totals<'a>(id: &'a str, pages: &[Page<'a>]) -> Result<(), ImportError<'a>>
    ensures accepted { OnOk result (All (λ p. is_whole p.page.now.total (map (λ q. q.page.now) pages.now) ≡ true) pages.now) }
    ensures refused { IfErr result (IsCutShort pages.now) }
    ensures told { IfErr result (IsToldOf id.entry.now) }
{
    for page in pages {
        let total = page.page.total;
        if !is_whole(total, pages) {
            return Err(ImportError::at(CheckErrorName::MissingTransactions, id, total, page.file));
        }
    }
    Ok(())
}

/// Whether the pages with this total are those of whole searches.
fn is_whole(total: u64, pages: &[Page]) -> bool
    ensures { result ≡ is_whole total (map (λ p. p.page.now) pages.now) }
{
    let count = count_with(total, pages);
    if total == 0 {
        count == 0
    } else {
        count % total == 0
    }
}

/// How many transactions stand on the pages with this total, up to 2^64 - 1.
fn count_with(total: u64, pages: &[Page]) -> u64
    ensures { result ≡ count_with total (map (λ p. p.page.now) pages.now) }
{
    let mut count: u64 = 0;
    for page in pages {
        count = count.saturating_add(count_in(total, page.page));
    }
    count
}

/// How many transactions stand on a page, if it has this total.
fn count_in(total: u64, page: &PacketPage) -> u64
    ensures { result ≡ count_in total page.now }
{
    if page.total == total {
        page.count as u64
    } else {
        0
    }
}

/// The events of these pages, for a destination of this revision.
#[tactic(auto, using(rb_import_check::proofs::Sorting::taking, crate::proofs::Seeing::expiring))]
fn all_events<'a>(
    alloc: Global,
    revision: u64,
    pages: &[Page<'a>],
) -> Result<Vec<SeenPacket<'a>>, AllocError>
    ensures events { IfOk result (λ all. seen_events all.items ≡ flat_map (λ p. p.page.now.events.items) pages.now) }
    ensures files { IfOk result (λ all. map filed_event all.items ≡ flat_map (λ p. map (λ e. (e, p.file.now)) p.page.now.events.items) pages.now) }
    ensures expiry { IfOk result (λ all. All (ExpiresAt revision) all.items) }
{
    let mut all = Vec::new(alloc);
    for page in pages {
        add_events(revision, *page, &mut all)?;
    }
    Ok(all)
}

#[tactic(auto, using(crate::proofs::Seeing::expiring))]
fn add_events<'a>(
    revision: u64,
    page: Page<'a>,
    all: &mut Vec<SeenPacket<'a>>,
) -> Result<(), AllocError>
    ensures events { OnOk result (seen_events all.new.items ≡ seen_events all.old.items ++ page.entry.page.now.events.items) }
    ensures files { OnOk result (map filed_event all.new.items ≡ map filed_event all.old.items ++ map (λ e. (e, page.entry.file.now)) page.entry.page.now.events.items) }
    ensures expiry { All (ExpiresAt revision) all.old.items → All (ExpiresAt revision) all.new.items }
{
    let file = page.file;
    let events = page.page.events.as_slice();
    for event in events {
        let expiry = expiry_at(revision, event.timeout_height);
        all.push(SeenPacket {
            file,
            event,
            expiry,
        })?;
    }
    Ok(())
}

/// Whether a packet's source is the one that the setup names, if it names one.
pub fn is_source(setup: &PathSetup, source: &str) -> bool
    ensures { result ≡ is_source setup.now.source_channel source.now }
{
    match &setup.source_channel {
        Some(wanted) => wanted.as_str() == source,
        None => true,
    }
}

/// Whether a packet's destination is this one, where it is known.
fn is_dest(end: Option<&str>, dest: &str) -> bool
    ensures { result ≡ is_dest (option_map (λ e. e.now) end.entry) dest.now }
{
    match end {
        Some(wanted) => wanted == dest,
        None => true,
    }
}

/// Those of the events that are of the path's packets, from its first sequence on.
#[tactic(auto, using(crate::proofs::Seeing::wanting))]
fn wanted_of<'a>(
    alloc: Global,
    setup: &'a PathSetup,
    end: Option<&str>,
    answers: &[Saved],
    all: &[SeenPacket<'a>],
) -> Result<Vec<SeenPacket<'a>>, ImportError<'a>>
    ensures source { IfOk result (λ wanted. setup.entry.now.source_channel ≡ None → AreFromOne wanted.items) }
    ensures wanted { IfOk result (λ wanted. wanted.items ≡ filter (λ s. is_wanted setup.entry.now (option_map (λ e. e.now) end.entry) answers.now s.event.now) all.now) }
    ensures other { IfErr result (λ e. IsTold CheckErrorName.TwoChannels ((setup.entry.now.source_channel ≡ None) × Any (λ p. Any (IsFromOther e p) all.now) (filter (λ s. is_wanted setup.entry.now (option_map (λ e. e.now) end.entry) answers.now s.event.now) all.now)) e) }
    ensures told { IfErr result (IsToldOf setup.entry.now.config.id) }
{
    let pending = pending_packets(alloc, answers)?;
    let mut wanted = Vec::new(alloc);
    for seen in all {
        add_wanted(setup, end, &pending, *seen, &mut wanted)?;
    }
    Ok(wanted)
}

/// Adds a packet, if it is wanted.
fn add_wanted<'a>(
    setup: &'a PathSetup,
    end: Option<&str>,
    pending: &PendingPackets<'_>,
    seen: SeenPacket<'a>,
    wanted: &mut Vec<SeenPacket<'a>>,
) -> Result<(), ImportError<'a>>
    ensures source { OnOk result (setup.entry.now.source_channel ≡ None → AreFromOne wanted.old.items → AreFromOne wanted.new.items) }
    ensures wanted { OnOk result (wanted.new.items ≡ wanted.old.items ++ (if is_wanted setup.entry.now (option_map (λ e. e.now) end.entry) pending.now.answers.now seen.entry.event.now then seen.entry ∷ [] else [])) }
    ensures other { IfErr result (λ e. IsTold CheckErrorName.TwoChannels ((setup.entry.now.source_channel ≡ None) × Any (λ p. IsFromOther e p seen.entry) wanted.old.items) e) }
    ensures told { IfErr result (IsToldOf setup.entry.now.config.id) }
{
    if is_wanted(setup, end, pending, wanted.first(), &seen)? {
        wanted.push(seen)?;
    }
    Ok(())
}

/// Whether a packet is the path's, its sequence the first one or a later one, and it may be pending. Where the setup names no
/// source, all packets that are taken have to be of one.
fn is_wanted<'a>(
    setup: &'a PathSetup,
    end: Option<&str>,
    pending: &PendingPackets<'_>,
    first: Option<&SeenPacket<'a>>,
    seen: &SeenPacket<'a>,
) -> Result<bool, ImportError<'a>>
    ensures source { OnOk result (setup.entry.now.source_channel ≡ None → IfSome first.entry (λ first. string_bytes first.now.event.now.source ≡ string_bytes seen.now.event.now.source)) }
    ensures wanted { IfOk result (λ is. is ≡ is_wanted setup.entry.now (option_map (λ e. e.now) end.entry) pending.now.answers.now seen.now.event.now) }
    ensures other { IfErr result (λ e. IsTold CheckErrorName.TwoChannels ((setup.entry.now.source_channel ≡ None) × IsSomeAnd first.entry (λ first. IsFromOther e first.now seen.now)) e) }
    ensures told { IfErr result (IsToldOf setup.entry.now.config.id) }
{
    let source = seen.event.source.as_str();
    match (&setup.source_channel, first) {
        (None, Some(first)) if first.event.source.as_str() != source => {
            let name = CheckErrorName::TwoChannels;
            let sequence = seen.event.sequence;
            Err(ImportError::between(
                name,
                setup.config.id.as_str(),
                sequence,
                first.file,
                seen.file,
            ))
        }
        _ => Ok(
            is_source(setup, source)
                && is_dest(end, seen.event.dest.as_str())
                && setup.config.first.get() <= seen.event.sequence
                && pending.has(seen.event.sequence),
        ),
    }
}

/// Whether there is an event of this kind with this sequence, among packets that stand by kind and sequence.
pub fn was(packets: &[SeenPacket], kind: PacketKind, sequence: u64) -> bool
    ensures { IsSorted packet_cmp packets.now → result ≡ was kind sequence packets.now }
{
    packets
        .binary_search_by_key(&(place_of(kind), sequence), |seen: &SeenPacket| {
            (place_of(seen.event.kind), seen.event.sequence)
        })
        .is_ok()
}
