//! The requests for one path: which of its packets are pending, where they were sent, received and
//! acknowledged, and since when they wait.
ghost use Rattle.std.specs.Prelude.{◌≡◌, ◌∷◌, [], nat_le, IfOk, OnOk, string_bytes};
ghost use Rattle.std.specs.List.{flat_map, range_with_len};
ghost use Rattle.rb_script_types.specs.Channels.{end_text};
ghost use Rattle.rb_want_requests.specs.PacketPaths.{pending_in};
ghost use Rattle.rb_want.specs.Adding.{with_needed, with_path_ends};
ghost use Rattle.rb_want.specs.Packets.{lacks_ack, parts_in};
ghost use Rattle.rb_want.specs.Paths.{IsCaseAt, block_needs, packet_needs, part_ends, part_needs, path_ends, path_needs, path_view, sent_time_needs, side_ends, side_request, time_needs, written_time_needs};

use crate::packets::{PacketAnswers, sent_block, tell_ack_written, written_block};
use rb_base::{ChainId, Height, PathId};
use rb_import_setup::{ImportSetup, PathSetup};
use rb_script_types::{ChannelEnd, Waits};
use rb_want_requests::{
    Folder, Folders, NextRequests, Owner, PartKind, PathEnd, Query, Request, has_all, is_named,
    next_part,
};
use std::alloc::{AllocError, Global};

/// An end of a path's channel, and its chain, which has a place in the setup.
#[derive(Clone, Copy)]
struct Side {
    place: usize,
    chain: ChainId,
    end: ChannelEnd,
}

/// A path of a setup that names both ends of its channel, with its answers.
#[derive(Drop)]
pub struct PathCase<'a> {
    alloc: Global,
    place: usize,
    id: PathId,
    first: u64,
    waits: Waits,
    source: Side,
    destination: Side,
    answers: PacketAnswers<'a>,
}

/// The case of the path at a place; none where the setup doesn't name both ends of its channel.
#[tactic(auto, unfolding(crate::specs::Paths::named_path))]
pub fn path_case_of<'a>(
    alloc: Global,
    setup: &ImportSetup,
    folders: &'a Folders,
    place: usize,
    path: &PathSetup,
) -> Result<Option<PathCase<'a>>, AllocError>
    ensures named { IfOk result (IsCaseAt setup.now.chains.items folders.now.paths.items (place, path.now)) }
{
    let config = &path.config;
    let Some(channel) = &config.channel else {
        return Ok(None);
    };
    let (Some(counterparty), Some(source), Some(destination), Some(folder)) = (
        channel.counterparty,
        setup.chains.get(config.source),
        setup.chains.get(config.destination),
        folders.paths.get(place),
    ) else {
        return Ok(None);
    };
    Ok(Some(PathCase {
        alloc,
        place,
        id: config.id,
        first: config.first.get(),
        waits: config.waits,
        source: Side {
            place: config.source,
            chain: *source,
            end: channel.source,
        },
        destination: Side {
            place: config.destination,
            chain: *destination,
            end: counterparty,
        },
        answers: PacketAnswers::of(alloc, folder)?,
    }))
}

impl PathCase<'_> {
    /// Adds the requests for the path: its commitments; then which of these packets were received, and which
    /// acknowledgements were written; then where each was sent, received and acknowledged; then since when each waits.
    #[tactic(auto, unfolding(crate::specs::Paths::path_needs, crate::specs::Paths::path_ends), using(crate::proofs::Adding::adding, crate::proofs::Adding::path_ending))]
    pub fn add_wanted(&self, wanted: &mut NextRequests<'_>) -> Result<(), AllocError>
        ensures requests { OnOk result (wanted.new.requests.items ≡ with_needed wanted.old.folders.now wanted.old.requests.items (path_needs (path_view self.now) self.now.answers.folder.now)) }
        ensures folders { wanted.new.folders ≡ wanted.old.folders }
        ensures reasons { wanted.new.reasons ≡ wanted.old.reasons }
        ensures ends { wanted.new.ends ≡ wanted.old.ends }
        ensures path_ends { OnOk result (wanted.new.path_ends.items ≡ with_path_ends wanted.old.path_ends.items (path_ends (path_view self.now) self.now.answers.folder.now)) }
    {
        let contents = self.answers.folder.contents.as_slice();
        if !has_all(contents, &PartKind::Commitments) {
            let page = next_part(contents, &PartKind::Commitments);
            return self.need(wanted, &self.source, Query::Commitments { page });
        }
        self.add_parts(wanted)?;
        self.add_packets(wanted)?;
        self.add_times(wanted)
    }

    /// Adds what became of each part of the pending packets.
    #[tactic(auto, using(crate::proofs::Adding::adding, crate::proofs::Adding::path_ending))]
    fn add_parts(&self, wanted: &mut NextRequests<'_>) -> Result<(), AllocError>
        ensures requests { OnOk result (wanted.new.requests.items ≡ with_needed wanted.old.folders.now wanted.old.requests.items
            (flat_map (part_needs (path_view self.now)) (range_with_len 1 (parts_in self.now.answers.folder.now.contents.items)))) }
        ensures folders { wanted.new.folders ≡ wanted.old.folders }
        ensures reasons { wanted.new.reasons ≡ wanted.old.reasons }
        ensures ends { wanted.new.ends ≡ wanted.old.ends }
        ensures path_ends { OnOk result (wanted.new.path_ends.items ≡ with_path_ends wanted.old.path_ends.items
            (flat_map (part_ends (path_view self.now) self.now.answers.folder.now) (range_with_len 1 (parts_in self.now.answers.folder.now.contents.items)))) }
    {
        for before in 0..self.answers.parts() {
            self.add_part(wanted, before + 1)?;
        }
        Ok(())
    }

    /// Adds what became of a part of the pending packets.
    #[tactic(auto, using(crate::proofs::Adding::adding, crate::proofs::Adding::path_ending))]
    fn add_part(&self, wanted: &mut NextRequests<'_>, part: u64) -> Result<(), AllocError>
        ensures requests { OnOk result (wanted.new.requests.items ≡ with_needed wanted.old.folders.now wanted.old.requests.items (part_needs (path_view self.now) part)) }
        ensures folders { wanted.new.folders ≡ wanted.old.folders }
        ensures reasons { wanted.new.reasons ≡ wanted.old.reasons }
        ensures ends { wanted.new.ends ≡ wanted.old.ends }
        ensures path_ends { OnOk result (wanted.new.path_ends.items ≡ with_path_ends wanted.old.path_ends.items (part_ends (path_view self.now) self.now.answers.folder.now part)) }
    {
        self.need(wanted, &self.destination, Query::Unreceived { part })?;
        self.need(wanted, &self.destination, Query::Acknowledgements { part })
    }

    /// Adds where each pending packet was sent, received and acknowledged.
    #[tactic(auto, using(crate::proofs::Adding::adding, crate::proofs::Adding::path_ending))]
    fn add_packets(&self, wanted: &mut NextRequests<'_>) -> Result<(), AllocError>
        ensures requests { OnOk result (wanted.new.requests.items ≡ with_needed wanted.old.folders.now wanted.old.requests.items
            (flat_map (packet_needs (path_view self.now) self.now.answers.folder.now) (pending_in self.now.answers.folder.now.contents.items))) }
        ensures folders { wanted.new.folders ≡ wanted.old.folders }
        ensures reasons { wanted.new.reasons ≡ wanted.old.reasons }
        ensures ends { wanted.new.ends ≡ wanted.old.ends }
        ensures path_ends { wanted.new.path_ends ≡ wanted.old.path_ends }
    {
        for sequence in &self.answers.pending {
            self.add_packet(wanted, *sequence)?;
        }
        Ok(())
    }

    /// Whether the path has to do with the packet of a sequence.
    fn has_to_do_with(&self, sequence: u64) -> bool
        ensures { result ≡ nat_le self.now.first sequence }
    {
        self.first <= sequence
    }

    /// Adds the search for the sending of a pending packet of the path and, once it has an answer, for its
    /// receiving and its acknowledgement.
    #[tactic(auto, unfolding(crate::specs::Paths::packet_needs), using(crate::proofs::Adding::adding, crate::proofs::Adding::path_ending))]
    fn add_packet(&self, wanted: &mut NextRequests<'_>, sequence: u64) -> Result<(), AllocError>
        ensures requests { OnOk result (wanted.new.requests.items ≡ with_needed wanted.old.folders.now wanted.old.requests.items (packet_needs (path_view self.now) self.now.answers.folder.now sequence)) }
        ensures folders { wanted.new.folders ≡ wanted.old.folders }
        ensures reasons { wanted.new.reasons ≡ wanted.old.reasons }
        ensures ends { wanted.new.ends ≡ wanted.old.ends }
        ensures path_ends { wanted.new.path_ends ≡ wanted.old.path_ends }
    {
        if !self.has_to_do_with(sequence) {
            return Ok(());
        }
        self.ask(wanted, &self.source, Query::Sent(sequence))?;
        if !self.answers.is_received(sequence) {
            return Ok(());
        }
        self.ask(wanted, &self.destination, Query::Received(sequence))?;
        if self.lacks_ack(sequence)? {
            self.ask(wanted, &self.destination, Query::AckWritten(sequence))?;
        }
        Ok(())
    }

    /// Adds what tells since when each pending packet waits.
    #[tactic(auto, using(crate::proofs::Adding::adding, crate::proofs::Adding::path_ending))]
    fn add_times(&self, wanted: &mut NextRequests<'_>) -> Result<(), AllocError>
        ensures requests { OnOk result (wanted.new.requests.items ≡ with_needed wanted.old.folders.now wanted.old.requests.items
            (flat_map (time_needs (path_view self.now) self.now.answers.folder.now) (pending_in self.now.answers.folder.now.contents.items))) }
        ensures folders { wanted.new.folders ≡ wanted.old.folders }
        ensures reasons { wanted.new.reasons ≡ wanted.old.reasons }
        ensures ends { wanted.new.ends ≡ wanted.old.ends }
        ensures path_ends { wanted.new.path_ends ≡ wanted.old.path_ends }
    {
        for sequence in &self.answers.pending {
            self.add_time(wanted, *sequence)?;
        }
        Ok(())
    }

    /// Adds what tells since when a pending packet waits: the header of the block that sent it or, where it was received, of
    /// the block that wrote its acknowledgement.
    #[tactic(auto, unfolding(crate::specs::Paths::time_needs), using(crate::proofs::Adding::adding, crate::proofs::Adding::path_ending))]
    fn add_time(&self, wanted: &mut NextRequests<'_>, sequence: u64) -> Result<(), AllocError>
        ensures requests { OnOk result (wanted.new.requests.items ≡ with_needed wanted.old.folders.now wanted.old.requests.items (time_needs (path_view self.now) self.now.answers.folder.now sequence)) }
        ensures folders { wanted.new.folders ≡ wanted.old.folders }
        ensures reasons { wanted.new.reasons ≡ wanted.old.reasons }
        ensures ends { wanted.new.ends ≡ wanted.old.ends }
        ensures path_ends { wanted.new.path_ends ≡ wanted.old.path_ends }
    {
        if !self.has_to_do_with(sequence) {
            return Ok(());
        }
        if self.answers.is_received(sequence) {
            self.add_written_time(wanted, sequence)
        } else {
            self.add_sent_time(wanted, sequence)
        }
    }

    /// Adds the header of the block that sent a packet, where its receive may wait.
    #[tactic(auto, using(crate::proofs::Adding::adding, crate::proofs::Adding::path_ending))]
    fn add_sent_time(&self, wanted: &mut NextRequests<'_>, sequence: u64) -> Result<(), AllocError>
        ensures requests { OnOk result (wanted.new.requests.items ≡ with_needed wanted.old.folders.now wanted.old.requests.items (sent_time_needs (path_view self.now) self.now.answers.folder.now sequence)) }
        ensures folders { wanted.new.folders ≡ wanted.old.folders }
        ensures reasons { wanted.new.reasons ≡ wanted.old.reasons }
        ensures ends { wanted.new.ends ≡ wanted.old.ends }
        ensures path_ends { wanted.new.path_ends ≡ wanted.old.path_ends }
    {
        if self.waits.receive == 0 {
            return Ok(());
        }
        let source = self.source_text()?;
        let contents = self.answers.folder.contents.as_slice();
        let block = sent_block(contents, source.as_str(), sequence);
        self.ask_block(wanted, &self.source, &block)
    }

    /// Adds the header of the block that wrote the acknowledgement of a packet, where that may wait.
    #[tactic(auto, using(crate::proofs::Adding::adding, crate::proofs::Adding::path_ending))]
    fn add_written_time(
        &self,
        wanted: &mut NextRequests<'_>,
        sequence: u64,
    ) -> Result<(), AllocError>
        ensures requests { OnOk result (wanted.new.requests.items ≡ with_needed wanted.old.folders.now wanted.old.requests.items (written_time_needs (path_view self.now) self.now.answers.folder.now sequence)) }
        ensures folders { wanted.new.folders ≡ wanted.old.folders }
        ensures reasons { wanted.new.reasons ≡ wanted.old.reasons }
        ensures ends { wanted.new.ends ≡ wanted.old.ends }
        ensures path_ends { wanted.new.path_ends ≡ wanted.old.path_ends }
    {
        if self.waits.acknowledge == 0 {
            return Ok(());
        }
        let source = self.source_text()?;
        let contents = self.answers.folder.contents.as_slice();
        let block = written_block(contents, source.as_str(), sequence);
        self.ask_block(wanted, &self.destination, &block)
    }

    /// The source's end of the channel as `port/channel`.
    fn source_text(&self) -> Result<String, AllocError>
        ensures { IfOk result (λ text. string_bytes text ≡ end_text self.now.source.end) }
    {
        let end = self.source.end;
        format!(in self.alloc; "{end}")
    }

    /// Asks a node of an end's chain for the header of a block, if there is one.
    #[tactic(auto, using(crate::proofs::Adding::adding, crate::proofs::Adding::path_ending))]
    fn ask_block(
        &self,
        wanted: &mut NextRequests<'_>,
        side: &Side,
        block: &Option<Height>,
    ) -> Result<(), AllocError>
        ensures requests { OnOk result (wanted.new.requests.items ≡ with_needed wanted.old.folders.now wanted.old.requests.items (block_needs side.now block.now)) }
        ensures folders { wanted.new.folders ≡ wanted.old.folders }
        ensures reasons { wanted.new.reasons ≡ wanted.old.reasons }
        ensures ends { wanted.new.ends ≡ wanted.old.ends }
        ensures path_ends { wanted.new.path_ends ≡ wanted.old.path_ends }
    {
        let Some(height) = *block else {
            return Ok(());
        };
        let request = Request {
            chain: side.chain,
            owner: Owner::Chain(side.place),
            query: Query::Commit(height),
        };
        wanted.ask(self.alloc, &request)
    }

    /// Whether the acknowledgement of a packet was written, and no answer tells in which block, not even that on its receiving.
    fn lacks_ack(&self, sequence: u64) -> Result<bool, AllocError>
        ensures { IfOk result (λ answer. answer ≡ lacks_ack self.now.answers.folder.now (end_text self.now.source.end) sequence) }
    {
        let folder = self.answers.folder;
        let searched = folder.searched.as_slice();
        if !self.answers.is_acknowledged(sequence)
            || !is_named(self.alloc, searched, &Query::Received(sequence))?
        {
            return Ok(false);
        }
        let source = self.source_text()?;
        let contents = folder.contents.as_slice();
        Ok(!tell_ack_written(contents, source.as_str(), sequence))
    }

    /// Asks an end of the channel, and tells where it refused that.
    #[tactic(auto, using(crate::proofs::Adding::path_ending))]
    fn need(
        &self,
        wanted: &mut NextRequests<'_>,
        side: &Side,
        query: Query,
    ) -> Result<(), AllocError>
        ensures requests { OnOk result (wanted.new.requests.items ≡ with_needed wanted.old.folders.now wanted.old.requests.items (side_request (path_view self.now) side.now query ∷ [])) }
        ensures folders { wanted.new.folders ≡ wanted.old.folders }
        ensures reasons { wanted.new.reasons ≡ wanted.old.reasons }
        ensures ends { wanted.new.ends ≡ wanted.old.ends }
        ensures path_ends { OnOk result (wanted.new.path_ends.items ≡ with_path_ends wanted.old.path_ends.items (side_ends (path_view self.now) self.now.answers.folder.now side.now query)) }
    {
        self.ask(wanted, side, query)?;
        if is_named(self.alloc, self.answers.folder.refused.as_slice(), &query)? {
            let path = self.id;
            let chain = side.chain;
            return wanted.end_path(PathEnd { path, chain });
        }
        Ok(())
    }

    /// Asks an end of the channel.
    #[tactic(auto, using(crate::proofs::Adding::adding, crate::proofs::Adding::path_ending))]
    fn ask(
        &self,
        wanted: &mut NextRequests<'_>,
        side: &Side,
        query: Query,
    ) -> Result<(), AllocError>
        ensures requests { OnOk result (wanted.new.requests.items ≡ with_needed wanted.old.folders.now wanted.old.requests.items (side_request (path_view self.now) side.now query ∷ [])) }
        ensures folders { wanted.new.folders ≡ wanted.old.folders }
        ensures reasons { wanted.new.reasons ≡ wanted.old.reasons }
        ensures ends { wanted.new.ends ≡ wanted.old.ends }
        ensures path_ends { wanted.new.path_ends ≡ wanted.old.path_ends }
    {
        let request = Request {
            chain: side.chain,
            owner: Owner::Path {
                place: self.place,
                id: self.id,
                end: side.end,
            },
            query,
        };
        wanted.ask(self.alloc, &request)
    }
}
