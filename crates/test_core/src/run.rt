//! Runs of the machine, by tables.
ghost use Rattle.std.specs.Prelude.{◌≡◌, IfOk};

use crate::make::{
    assert_same, make_config, make_header, make_lone_set, make_record, make_set, second,
};
use crate::tell::{answer_text, reply_text, scan_text};
use rb_base::{FeeTable, Height, Part, Window};
use rb_book::{ChainBook, Vote};
use rb_core::{Core, Told};
use rb_core_model::{CoreError, Event, Reply, scan};
use rb_graph::Graph;
use rb_plan::draft;
use rb_plan_client::{Draft, JobView};
use rb_scan::Sequence;
use rb_script_types::{
    Asked, Block, BlockHeight, Goal, Observation, Refusal, Settlement, is_config,
};
use std::alloc::{AllocError, Global};
use std::mem;
use std::process::Abort;
use std::test::Fail;

/// What is done to a machine: chains, clients and paths by their places, times in seconds, and sets by
/// the first byte of their first member's key.
#[derive(Clone, Copy)]
pub enum Deed {
    Window(u64, u64),
    /// The client is asked for this height at least.
    Asked(usize, u64),
    Set(usize, u8),
    /// A set of one member, by its number.
    LoneSet(usize, u16),
    /// A header's height, time, set and votes.
    Header(usize, u64, u64, u8, &'static [Vote]),
    /// The height and time of a record that the client has stored.
    Stored(usize, u64, u64),
    /// A packet's sequence, block, and timeout height, if that isn't 0.
    Sent(usize, u64, u64, u64),
    Received(usize, u64, u64),
    Written(usize, u64, u64),
    Cleared(usize, u64),
    Closed(usize),
    /// The client's batch, by its number, and how many of its transactions were taken.
    Settled(usize, u64, u64),
    /// Scans a part of a path, or plans for a client, without entering it.
    Scan(usize, Part),
    Draft(usize),
    /// Enters the last scan or plan, or the one at a place; or the last scan as one of another path.
    Last,
    Made(usize),
    LastOn(usize),
    /// Puts a copy of the machine aside, or goes on with the one that is there.
    Copy,
    Swap,
    /// Goes on with a machine before its first event, of this limit and with these clients more.
    Anew(usize, &'static [&'static str]),
    /// Goes on with a machine that begins with what this one knows.
    Known,
    /// So many lone sets, or packets, one after the other, up to the first one that isn't noted.
    LoneSets(usize, u64),
    Packets(usize, u64),
}

/// The one of several lone sets or packets that has this place.
fn deed_at(deed: Deed, place: u64) -> Option<Deed> {
    match deed {
        Deed::LoneSets(chain, _) => Some(Deed::LoneSet(chain, u16::try_from(place).ok()?)),
        Deed::Packets(path, _) => Some(Deed::Sent(path, place.saturating_add(1), 5, 0)),
        _ => None,
    }
}

/// What is done, and what comes out.
pub type Row = (Deed, &'static str);

/// A machine, the scans and plans that were made by it, and another machine.
#[derive(Drop)]
pub struct Run {
    alloc: Global,
    pub core: Core,
    made: Vec<Event>,
    aside: Option<Core>,
}

/// A machine before its first event, whose books have so many records at most, and which has so many more
/// clients.
pub fn start(alloc: Global, limit: usize, more: &[&'static str]) -> Option<Core> {
    let config = make_config(alloc, limit, more)?;
    if !is_config(&config) {
        return None;
    }
    Core::new(alloc, config).ok()
}

/// A machine with a third client, whose updates take more gas than those of the others.
pub fn start_dear(alloc: Global) -> Option<Core> {
    let mut config = make_config(alloc, 3, &["third"])?;
    let gas = FeeTable::new(200, 1, 1).ok()?;
    let client = config.clients.get_mut(2)?;
    client.gas = gas;
    if !is_config(&config) {
        return None;
    }
    Core::new(alloc, config).ok()
}

/// An observation of a chain or a client.
fn chain_observation(alloc: Global, deed: Deed) -> Option<Observation> {
    match deed {
        Deed::Set(chain, first) => Some(Observation::SetSeen {
            chain,
            set: make_set(alloc, first)?,
        }),
        Deed::LoneSet(chain, number) => Some(Observation::SetSeen {
            chain,
            set: make_lone_set(alloc, number)?,
        }),
        Deed::Header(chain, number, seconds, first, votes) => Some(Observation::HeaderSeen {
            chain,
            header: make_header(alloc, number, seconds, first, votes)?,
        }),
        Deed::Stored(client, number, seconds) => Some(Observation::StoredSeen {
            client,
            height: Height::new(number)?,
            record: make_record(alloc, seconds, 0xa1)?,
        }),
        _ => None,
    }
}

/// A block whose time isn't told.
fn told_block(height: u64) -> Option<Block> {
    let height = BlockHeight::new(height)?;
    Some(Block { height, time: None })
}

/// An observation of a path.
fn path_observation(deed: Deed) -> Option<Observation> {
    match deed {
        Deed::Sent(path, number, block, timeout) => Some(Observation::Sent {
            path,
            sequence: Sequence::new(number)?,
            block: told_block(block)?,
            timeout_height: Height::new(timeout),
            timeout_time: None,
        }),
        Deed::Received(path, number, block) => Some(Observation::Received {
            path,
            sequence: Sequence::new(number)?,
            block: BlockHeight::new(block)?,
        }),
        Deed::Written(path, number, block) => Some(Observation::AckWritten {
            path,
            sequence: Sequence::new(number)?,
            block: told_block(block)?,
        }),
        Deed::Cleared(path, number) => Some(Observation::Cleared {
            path,
            sequence: Sequence::new(number)?,
        }),
        Deed::Closed(path) => Some(Observation::Closed { path }),
        _ => None,
    }
}

/// An observation, a question or a settlement.
pub fn event_of(alloc: Global, deed: Deed) -> Option<Event> {
    match deed {
        Deed::Window(from, until) => Some(Event::Window(Window::new(
            second(from)?,
            second(until)?,
        ).ok()?)),
        Deed::Asked(client, least) => Some(Event::Asked(Asked {
            client,
            goal: Goal::AtLeast(Height::new(least)?),
        })),
        Deed::Settled(client, batch, done) => Some(Event::Settled(Settlement {
            client,
            batch,
            done,
        })),
        Deed::Set(..) | Deed::LoneSet(..) | Deed::Header(..) | Deed::Stored(..) => {
            Some(Event::Observed(chain_observation(alloc, deed)?))
        }
        _ => Some(Event::Observed(path_observation(deed)?)),
    }
}

/// A refusal is an answer; want of memory is none.
fn answered<T>(answer: Result<T, CoreError>) -> Option<Result<T, Refusal>> {
    match answer {
        Ok(value) => Some(Ok(value)),
        Err(CoreError::Refused(refusal)) => Some(Err(refusal)),
        Err(CoreError::NoMemory) => None,
    }
}

/// Judges an event, and takes it in, unless it is refused.
fn enter(core: &mut Core, event: Event) -> Result<Reply, CoreError> {
    let ready = core.judge(event)?;
    Ok(core.settle(ready))
}

/// Enters an event; none where it is refused.
pub fn learn(core: &mut Core, event: Event) -> Option<()> {
    match enter(core, event) {
        Ok(_) => Some(()),
        Err(_) => None,
    }
}

/// Enters an event. A refusal for an old view tells the present front.
pub fn offer(rt: &impl Abort, core: &mut Core, event: Event) -> Option<Result<Reply, Refusal>> {
    let front = core.front();
    let answer = answered(enter(core, event))?;
    if let Err(Refusal::Stale { front: named }) = answer {
        assert!(rt; named == front);
    }
    Some(answer)
}

/// The table of a book.
pub fn table_of(alloc: Global, book: &ChainBook) -> Result<Graph, AllocError>
    ensures { IfOk result (λ graph. graph ≡ book.now) }
{
    let copy = book.copy()?;
    Graph::from_book(alloc, copy)
}

/// What is planned for a job.
pub fn draft_of(alloc: Global, job: JobView) -> Result<Draft, AllocError> {
    let graph = table_of(alloc, job.view().book())?;
    draft(job, &graph)
}

impl Run {
    /// A run of a machine.
    pub fn new(alloc: Global, core: Core) -> Run {
        Run {
            alloc,
            core,
            made: Vec::new(alloc),
            aside: None,
        }
    }

    fn scan(&mut self, texts: Global, path: usize, part: Part) -> Option<String> {
        let view = match answered(self.core.path_view(path))? {
            Ok(view) => view,
            Err(refusal) => return reply_text(texts, Err(refusal)).ok(),
        };
        let scan = scan(view, part).ok()?;
        let text = scan_text(texts, &scan).ok()?;
        self.made.push(Event::Scanned { path, scan }).ok()?;
        Some(text)
    }

    fn draft(&mut self, texts: Global, client: usize) -> Option<String> {
        let job = match answered(self.core.client_view(client))? {
            Ok(job) => job,
            Err(refusal) => return reply_text(texts, Err(refusal)).ok(),
        };
        let draft = draft_of(self.alloc, job).ok()?;
        let text = answer_text(texts, draft.answer()).ok()?;
        self.made.push(Event::Planned(draft)).ok()?;
        Some(text)
    }

    fn last_on(&self, path: usize) -> Option<Event> {
        match self.made.last()?.copy().ok()? {
            Event::Scanned { scan, .. } => Some(Event::Scanned { path, scan }),
            _ => None,
        }
    }

    fn event(&self, deed: Deed) -> Option<Event> {
        match deed {
            Deed::Last => self.made.last()?.copy().ok(),
            Deed::Made(place) => self.made.get(place)?.copy().ok(),
            Deed::LastOn(path) => self.last_on(path),
            _ => event_of(self.alloc, deed),
        }
    }

    fn enter(&mut self, rt: &impl Abort, texts: Global, deed: Deed) -> Option<String> {
        let event = self.event(deed)?;
        let answer = offer(rt, &mut self.core, event)?;
        reply_text(texts, answer).ok()
    }

    /// Enters an event again and again, until so many were taken in.
    pub fn fill(&mut self, deed: Deed, events: usize) -> Option<()> {
        for _ in self.core.front()..events {
            let event = self.event(deed)?;
            learn(&mut self.core, event)?;
        }
        Some(())
    }

    fn put_copy_aside(&mut self) -> Option<()> {
        self.aside = Some(self.core.copy().ok()?);
        Some(())
    }

    fn swap(&mut self) -> Option<()> {
        let other = self.aside.as_mut()?;
        mem::swap(&mut self.core, other);
        Some(())
    }

    /// What followers are told of the last scan or plan that was made.
    pub fn told(&mut self) -> Option<Told> {
        let event = self.event(Deed::Last)?;
        let ready = self.core.judge(event).ok()?;
        Told::of(&ready).ok()
    }

    fn begin_anew(&mut self, limit: usize, more: &[&'static str]) -> Option<()> {
        self.core = start(self.alloc, limit, more)?;
        Some(())
    }

    fn begin_with_known(&mut self) -> Option<()> {
        let config = self.core.config().copy().ok()?;
        if !is_config(&config) {
            return None;
        }
        let snapshot = self.core.snapshot().ok()?;
        self.core = Core::restored(self.alloc, config, &snapshot).ok()??;
        Some(())
    }

    /// Goes on with another machine, or with a copy beside this one.
    fn change(&mut self, texts: Global, deed: Deed) -> Option<String> {
        match deed {
            Deed::Copy => self.put_copy_aside()?,
            Deed::Swap => self.swap()?,
            Deed::Anew(limit, more) => self.begin_anew(limit, more)?,
            Deed::Known => self.begin_with_known()?,
            _ => return None,
        }
        Some(String::new(texts))
    }

    /// What comes of the last of so many, or of the first one that isn't noted.
    fn enter_all(
        &mut self,
        rt: &impl Abort,
        texts: Global,
        deed: Deed,
        count: u64,
    ) -> Option<String> {
        let mut last = String::new(texts);
        for place in 0..count {
            last = self.enter(rt, texts, deed_at(deed, place)?)?;
            if last.as_str() != "Noted" {
                break;
            }
        }
        Some(last)
    }

    /// What comes out where this is done; none where no memory is left.
    pub fn act(&mut self, rt: &impl Abort, texts: Global, deed: Deed) -> Option<String> {
        match deed {
            Deed::Scan(path, part) => self.scan(texts, path, part),
            Deed::Draft(client) => self.draft(texts, client),
            Deed::Copy | Deed::Swap | Deed::Anew(..) | Deed::Known => self.change(texts, deed),
            Deed::LoneSets(_, count) | Deed::Packets(_, count) => {
                self.enter_all(rt, texts, deed, count)
            }
            _ => self.enter(rt, texts, deed),
        }
    }

    /// Does all this, from which what is beside it comes out.
    pub fn go(&mut self, rt: &impl Abort, texts: Global, rows: &[Row]) -> Result<(), Fail> {
        for (place, (deed, wanted)) in rows.iter().enumerate() {
            let text = self.act(rt, texts, *deed).ok_or("no answer")?;
            assert_same(rt, place, text.as_str(), *wanted);
        }
        Ok(())
    }

    /// Does all this, table after table.
    pub fn go_through(
        &mut self,
        rt: &impl Abort,
        texts: Global,
        tables: &[&[Row]],
    ) -> Result<(), Fail> {
        for rows in tables {
            self.go(rt, texts, rows)?;
        }
        Ok(())
    }
}
