//! What was seen of a path's packets: those that are taken, and those that are left out.
ghost use Rattle.std.specs.Prelude.{◌≡◌, None, true, All, IfOk, IfErr, OnOk};
ghost use Rattle.std.specs.List.Sorted.{IsSorted};
ghost use Rattle.rb_import_check.specs.Errors.{IsToldOf};
ghost use Rattle.rb_import_merge.specs.Committed.{HaveCommitted};
ghost use Rattle.rb_import_merge.specs.LeftOut.{AreLeftOut, HasSurplus, HaveTaken, was_timed_out};
ghost use Rattle.rb_import_merge.specs.Lowest.{kind_cmp};
ghost use Rattle.rb_import_merge.specs.Named.{NamesOfPath};
ghost use Rattle.rb_import_merge.specs.Packets.{AreFromOne, Expires, IsOfFile, IsOfPath, is_on_packets};
ghost use Rattle.rb_import_merge.specs.Refusals.{HasReasonOfPath};
ghost use Rattle.rb_import_merge.specs.Totals.{is_whole, pages_of};
ghost use Rattle.rb_import_merge.specs.Ways.{HasBefore};

use crate::left_out::{LeftOutPacket, left_out_of, staying_of};
use crate::packets::{SeenPacket, by_block, path_events, some_timed_out};
use crate::surplus::{Surplus, fitting_of, surplus_of};
use rb_base::ChainId;
use rb_import_check::{ImportError, Saved};
use rb_import_setup::PathSetup;
use std::alloc::Global;

/// What was seen of a path: the events of its packets by kind, block and sequence; which packets are left out, since the
/// answers don't tell what became of them, by rising sequence (on an ORDERED path one stands for all of higher sequences);
/// for which there is no room; and whether one of its packets timed out, left out or not.
#[derive(Drop)]
pub struct SeenPath<'a> {
    pub packets: Vec<SeenPacket<'a>>,
    pub left_out: Vec<LeftOutPacket<'a>>,
    pub surplus: Option<Surplus>,
    pub timed_out: bool,
}

/// What was seen of a path's packets from its first sequence on in its answers: the events of those that were sent, received,
/// acknowledged and cleared; where answers tell of commitments, of the pending packets alone. Of several of one kind and
/// sequence the one of the lowest block. A packet is left out where answers don't tell of its sending, of its receiving or
/// whether it was received, on an ORDERED path with those behind it; and then all but the first 4,096 are.
pub fn seen_path<'a>(
    alloc: Global,
    setup: &'a PathSetup,
    dest: &ChainId,
    answers: &'a [Saved],
) -> Result<SeenPath<'a>, ImportError<'a>>
    ensures path { IfOk result (λ seen. All (IsOfPath setup.entry.now answers.entry.now) seen.packets.items) }
    ensures events { IfOk result (λ seen. HaveTaken setup.entry.now answers.entry.now seen.surplus seen.packets.items) }
    ensures files { IfOk result (λ seen. All (IsOfFile answers.entry.now) seen.packets.items) }
    ensures expiry { IfOk result (λ seen. All (Expires dest.now) seen.packets.items) }
    ensures source { IfOk result (λ seen. setup.entry.now.source_channel ≡ None → AreFromOne seen.packets.items) }
    ensures before { IfOk result (λ seen. All (HasBefore seen.packets.items) seen.packets.items) }
    ensures pending { IfOk result (λ seen. HaveCommitted setup.entry.now answers.entry.now seen.surplus seen.packets.items) }
    ensures order { IfOk result (λ seen. IsSorted kind_cmp seen.packets.items) }
    ensures left_out { IfOk result (λ seen. AreLeftOut setup.entry.now answers.entry.now seen.left_out.items) }
    ensures surplus { IfOk result (λ seen. HasSurplus setup.entry.now answers.entry.now seen.surplus) }
    ensures timed_out { IfOk result (λ seen. seen.timed_out ≡ was_timed_out setup.entry.now answers.entry.now) }
    ensures answers { OnOk result (All (λ s. is_on_packets s.answer ≡ true) answers.entry.now) }
    ensures whole { OnOk result (All (λ p. is_whole p.total (pages_of answers.entry.now) ≡ true) (pages_of answers.entry.now)) }
    ensures reason { IfErr result (HasReasonOfPath setup.entry.now answers.entry.now) }
    ensures named { IfErr result (NamesOfPath setup.entry.now answers.entry.now) }
    ensures told { IfErr result (IsToldOf setup.entry.now.config.id) }
{
    let events = path_events(alloc, setup, dest, answers)?;
    let left_out = left_out_of(alloc, setup, answers, events.as_slice())?;
    let timed_out = some_timed_out(events.as_slice());
    let staying = staying_of(setup.config.order, left_out.as_slice(), events);
    let surplus = surplus_of(alloc, staying.as_slice())?;
    let packets = by_block(fitting_of(surplus, staying))?;
    Ok(SeenPath {
        packets,
        left_out,
        surplus,
        timed_out,
    })
}
