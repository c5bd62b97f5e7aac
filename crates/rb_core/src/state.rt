//! What a relayer knows between two events, and what it makes of what is observed.
ghost use Rattle.std.specs.Prelude.{◌≡◌, ◌<◌, ◌+◌, suc, true, None, IfSome, IsSome, IsSomeAnd, OnOk, length, slice_get, slice_set, slice_index_or};
ghost use Rattle.std.specs.Option.{option_and_then};
ghost use Rattle.rb_core_model.specs.Begun.{max_begun};
ghost use Rattle.rb_core_model.specs.Event as events;
ghost use Rattle.rb_core_model.specs.Event.{Event};
ghost use Rattle.rb_core_state.specs.Room.{HasSettleRoom};
ghost use Rattle.rb_core_state.specs.Marked.{mark_by};
ghost use Rattle.rb_core.specs.State.{standing_view, state_view, HasRoom};
ghost use Rattle.rb_core_model.specs.Machine.{is_known, no_scans, plan_number, reply_for, with_scan};
ghost use Rattle.rb_core_model.specs.Limits.{max_events};
ghost use Rattle.rb_core_model.specs.Replied.{reply_view};
ghost use Rattle.rb_core_model.specs.Seen.{observed};
ghost use Rattle.rb_core_model.specs.Standing as standings;
ghost use Rattle.rb_core_model.specs.Standing.{AreTracked, judged, changed, with_client, with_mark, with_path, after_answer, batch_opened};

use rb_base::Window;
use rb_book::SharedBook;
use rb_core_model::{Reply, Scan, Scans};
use rb_core_state::books::{
    put_header, put_record, put_set, refuse_header, refuse_record, refuse_set, set_apart,
    set_apart_for,
};
use rb_core_state::clients::{
    ask, enter, goes_back_on, make_settle_room, make_stored_room, open, refuse_settled, settle,
    store, tracked,
};
use rb_core_state::paths::{
    close, make_packet_room, put_mark, put_sent, refuse_cleared, refuse_closed, refuse_received,
    refuse_sent, refuse_written, settle_messages,
};
use rb_core_state::{ClientState, Mark, PathState, goes_back, settled_messages};
use rb_plan_client::Planned;
use rb_scan::{Packet, Sequence};
use rb_script_types::{Asked, HostWindow, Observation, Refusal, Settlement};
use std::alloc::{AllocError, Allocator, Global};

/// The window, a book for each chain, the clients, the paths, the number of each client's next plan,
/// the scans of each path, and how many events were taken in.
#[derive(Drop)]
pub(crate) struct CoreState<A: Allocator = Global> {
    pub(crate) window: Option<Window>,
    pub(crate) books: Vec<SharedBook<A>, A>,
    pub(crate) clients: Vec<ClientState<A>, A>,
    pub(crate) paths: Vec<PathState<A>, A>,
    pub(crate) plans: Vec<usize, A>,
    pub(crate) scans: Vec<Scans<A>, A>,
    pub(crate) front: usize,
}

impl<A: Allocator + Copy> CoreState<A> {
    /// Whether the chain, the client or the path of an observation is there.
    pub(crate) fn knows_observed(&self, observation: &Observation<A>) -> bool
        ensures { result ≡ is_known (state_view self.now) (observed observation.now) }
    {
        match observation {
            Observation::SetSeen { chain, .. } | Observation::HeaderSeen { chain, .. } => {
                *chain < self.books.len()
            }
            Observation::StoredSeen { client, .. } => *client < self.clients.len(),
            Observation::Sent { path, .. }
            | Observation::Received { path, .. }
            | Observation::AckWritten { path, .. }
            | Observation::Cleared { path, .. }
            | Observation::Closed { path } => *path < self.paths.len(),
        }
    }

    /// Why an observation of what is there would be refused.
    pub(crate) fn refuse_observed(&self, observation: &Observation<A>) -> Option<Refusal>
        requires state { is_known (state_view self.now) (observed observation.now) ≡ true }
        requires tracked { AreTracked (standing_view self.now) }
        ensures { result ≡ judged (standing_view self.now) (observed observation.now) }
    {
        let books = self.books.as_slice();
        let paths = self.paths.as_slice();
        match observation {
            Observation::SetSeen { chain, set } => refuse_set(books, *chain, set),
            Observation::HeaderSeen { chain, header } => refuse_header(books, *chain, header),
            Observation::StoredSeen {
                client,
                height,
                record,
            } => {
                let chain = tracked(self.clients.as_slice(), *client);
                refuse_record(books, chain, *height, record)
            }
            Observation::Sent { path, sequence, .. } => refuse_sent(paths, *path, *sequence),
            Observation::Received { path, sequence, .. } => {
                refuse_received(paths, *path, *sequence)
            }
            Observation::AckWritten {
                path,
                sequence,
                block,
            } => refuse_written(paths, *path, *sequence, block.height.height()),
            Observation::Cleared { path, sequence } => refuse_cleared(paths, *path, *sequence),
            Observation::Closed { path } => refuse_closed(paths, *path),
        }
    }

    /// Makes what taking in an observation takes.
    pub(crate) fn make_room_for(&mut self, observation: &Observation<A>) -> Result<(), AllocError>
        requires state { is_known (state_view self.old) (observed observation.now) ≡ true }
        requires tracked { AreTracked (standing_view self.old) }
        ensures same { state_view self.new ≡ state_view self.old }
        ensures room { OnOk result (HasRoom self.new (observed observation.now)) }
        ensures kept { (other : Event) → HasRoom self.old other → HasRoom self.new other }
    {
        match observation {
            Observation::SetSeen { chain, set } => set_apart_for(&mut self.books, *chain, set),
            Observation::HeaderSeen { chain, .. } => set_apart(&mut self.books, *chain),
            Observation::StoredSeen { client, .. } => {
                let chain = tracked(self.clients.as_slice(), *client);
                make_stored_room(&mut self.clients, *client, 1)?;
                set_apart(&mut self.books, chain)
            }
            Observation::Sent { path, .. } => make_packet_room(&mut self.paths, *path),
            _ => Ok(()),
        }
    }

    /// Makes what taking in a settlement takes.
    pub(crate) fn make_settle_room(&mut self, client: usize) -> Result<(), AllocError>
        requires within { client < length self.old.clients.items }
        requires open { IsSomeAnd (slice_get (standing_view self.old).clients client) (λ (c : standings.ClientState). IsSome c.batch) }
        ensures same { state_view self.new ≡ state_view self.old }
        ensures room { OnOk result (HasSettleRoom self.new.clients.items client) }
        ensures kept { (other : Event) → HasRoom self.old other → HasRoom self.new other }
    {
        make_settle_room(&mut self.clients, client)
    }

    /// Takes in an observation that is not refused.
    pub(crate) fn put_observed(&mut self, observation: Observation<A>)
        requires state { is_known (state_view self.old) (observed observation) ≡ true }
        requires tracked { AreTracked (standing_view self.old) }
        requires accepted { judged (standing_view self.old) (observed observation) ≡ None }
        requires room { HasRoom self.old (observed observation) }
        ensures { state_view self.new ≡ record (state_view self.old) { standing = changed (standing_view self.old) (observed observation) } }
    {
        match observation {
            Observation::SetSeen { chain, set } => put_set(&mut self.books, chain, set),
            Observation::HeaderSeen { chain, header } => put_header(&mut self.books, chain, header),
            Observation::StoredSeen {
                client,
                height,
                record,
            } => {
                let chain = tracked(self.clients.as_slice(), client);
                put_record(&mut self.books, chain, height, record);
                store(&mut self.clients, client, height);
            }
            Observation::Sent {
                path,
                sequence,
                block,
                timeout_height,
                timeout_time,
            } => {
                let packet = Packet::new(
                    sequence,
                    block.height.height(),
                    block.time,
                    timeout_height,
                    timeout_time,
                );
                put_sent(&mut self.paths, path, packet);
            }
            Observation::Received {
                path,
                sequence,
                block,
            } => self.put_mark(path, sequence, Mark::Received(block.height())),
            Observation::AckWritten {
                path,
                sequence,
                block,
            } => self.put_mark(path, sequence, Mark::Written(block)),
            Observation::Cleared { path, sequence } => {
                self.put_mark(path, sequence, Mark::Cleared);
            }
            Observation::Closed { path } => close(&mut self.paths, path),
        }
    }

    /// Puts a mark on a packet of a path, if there is one with this sequence.
    pub(crate) fn put_mark(&mut self, path: usize, sequence: Sequence, mark: Mark)
        requires { path < length self.old.paths.items }
        ensures { state_view self.new ≡ record (state_view self.old) { standing = with_path (standing_view self.old) path (with_mark (mark_by mark) sequence) } }
    {
        put_mark(&mut self.paths, path, sequence, mark);
    }

    /// Why a window would be refused.
    pub(crate) fn refuse_window(&self, window: Window) -> Option<Refusal>
        ensures { result ≡ judged (standing_view self.now) (events.Window window) }
    {
        if goes_back(self.window, window) {
            return Some(Refusal::WindowBack);
        }
        None
    }

    /// Takes in a window.
    pub(crate) fn put_window(&mut self, window: Window)
        ensures { state_view self.new ≡ record (state_view self.old) { standing = changed (standing_view self.old) (events.Window window) } }
    {
        self.window = Some(window);
    }

    /// Why a window of a host would be refused.
    pub(crate) fn refuse_host_window(&self, host: HostWindow) -> Option<Refusal>
        ensures { result ≡ judged (standing_view self.now) (events.HostWindow host.host host.window) }
    {
        if goes_back_on(self.clients.as_slice(), self.window, host.host, host.window) {
            return Some(Refusal::WindowBack);
        }
        None
    }

    /// Takes in a window of a host.
    pub(crate) fn put_host_window(&mut self, host: HostWindow)
        ensures { state_view self.new ≡ record (state_view self.old) { standing = changed (standing_view self.old) (events.HostWindow host.host host.window) } }
    {
        enter(&mut self.clients, host.host, host.window);
    }

    /// Takes in what a client was asked for.
    pub(crate) fn put_asked(&mut self, asked: Asked)
        requires { is_known (state_view self.old) (events.Asked asked.client asked.goal) ≡ true }
        ensures { state_view self.new ≡ record (state_view self.old) { standing = changed (standing_view self.old) (events.Asked asked.client asked.goal) } }
    {
        ask(&mut self.clients, asked.client, asked.goal);
    }

    /// Why a settlement would be refused.
    pub(crate) fn refuse_settled(&self, settled: Settlement) -> Option<Refusal>
        requires { is_known (state_view self.now) (events.Settled settled.client settled.batch settled.done) ≡ true }
        ensures { result ≡ judged (standing_view self.now) (events.Settled settled.client settled.batch settled.done) }
    {
        let clients = self.clients.as_slice();
        refuse_settled(clients, settled.client, settled.batch, settled.done)
    }

    /// Takes in a settlement that is not refused.
    pub(crate) fn put_settled(&mut self, settled: Settlement)
        requires state { is_known (state_view self.old) (events.Settled settled.client settled.batch settled.done) ≡ true }
        requires accepted { judged (standing_view self.old) (events.Settled settled.client settled.batch settled.done) ≡ None }
        requires room { HasRoom self.old (events.Settled settled.client settled.batch settled.done) }
        ensures { state_view self.new ≡ record (state_view self.old) { standing = changed (standing_view self.old) (events.Settled settled.client settled.batch settled.done) } }
    {
        let batch = settle(&mut self.clients, settled.client, settled.done);
        settle_messages(&mut self.paths, settled_messages(&batch, settled.done));
    }

    /// Takes in the next plan of a client, and replies the number of the batch that it opens, if it
    /// opens one.
    pub(crate) fn put_planned(&mut self, client: usize, answer: Option<Planned<A>>) -> Reply
        requires within { client < length self.old.clients.items }
        requires plans { client < length self.old.plans.items }
        requires batches { IfSome (slice_get (standing_view self.old).clients client) (λ (c : standings.ClientState). c.batches < max_begun + max_events) }
        requires number { plan_number (state_view self.old) client < max_events }
        ensures state { state_view self.new ≡ record (state_view self.old) {
          standing = with_client (standing_view self.old) client (after_answer answer);
          plans = slice_set self.old.plans.items client (suc (plan_number (state_view self.old) client));
        } }
        ensures reply { reply_view result ≡ reply_for (option_and_then (λ c. batch_opened c answer) (slice_get (standing_view self.old).clients client)) }
    {
        self.plans[client] += 1;
        match open(&mut self.clients, client, answer) {
            Some(number) => Reply::Opened(number),
            None => Reply::Noted,
        }
    }

    /// Takes in a scan of a path.
    pub(crate) fn put_scanned(&mut self, path: usize, scan: Scan<A>)
        requires { path < length self.old.scans.items }
        ensures { state_view self.new ≡ record (state_view self.old) {
          scans = slice_set self.old.scans.items path (with_scan scan.view scan.part (slice_index_or self.old.scans.items path no_scans));
        } }
    {
        self.scans[path].put(scan);
    }
}
