//! A client with all that its next plan is made from.
ghost use Rattle.std.specs.Prelude.{◌≡◌, IfOk};
ghost use Rattle.std.specs.Cmp.Lexicographic.{pointwise};
ghost use Rattle.std.proofs.Common.{nat_eq};
ghost use Rattle.rb_step.specs.View.{AreKnown};
ghost use Rattle.rb_plan_client.specs.Same.{same_config};
ghost use Rattle.rb_plan_client.specs.Task.{view_of};

use crate::task::PathTask;
use rb_base::{Height, Window};
use rb_book::{ChainBook, SharedBook};
use rb_script_types::{ClientConfig, Goal};
use rb_step::ClientView;
use std::alloc::{AllocError, Allocator, Global};
use std::marker::Model;

/// Which plan of which client is made next.
#[derive(Clone, Copy)]
pub struct NextPlan {
    /// The client, by its place in the script.
    pub client: usize,
    /// The number of the plan: how many plans of the client were accepted before it.
    pub number: usize,
    /// Whether a batch of the client is open, so that a plan for it is refused.
    pub is_held: bool,
}

/// A client with all that its next plan is made from: how it is set up, the heights that it has
/// stored, the window in which it is updated, the book of the chain that it tracks, its paths, and
/// the goal that it was asked for; with the number of that plan, and whether a batch of the client
/// is open. A job owns all of it, but shares the book.
///
/// A relayer refuses a plan as stale where the job that it was made for differs from the client as
/// it is by then.
#[derive(Drop)]
pub struct JobView<A: Allocator = Global> {
    client: usize,
    config: ClientConfig,
    stored: Vec<Height, A>,
    window: Window,
    book: SharedBook<A>,
    paths: Vec<PathTask<A>, A>,
    asked: Option<Goal>,
    plan: usize,
    is_held: bool,
}

impl<A: Allocator> Model for JobView<A> {
    ghost use Rattle.rb_step.specs.View.{AreKnown};
    ghost use Rattle.rb_plan_client.specs.Draft as drafts;

    ghost Value = { drafts.Job };

    ghost view = { λ j. record {
      client = j.client;
      task = record { config = j.config; stored = j.stored.items; window = j.window; book = j.book.book; paths = j.paths.items; asked = j.asked };
      plan = j.plan;
      held = j.is_held;
    } };

    ghost invariant = { λ j. AreKnown j.book.book j.stored.items };
}

impl<A: Allocator> JobView<A> {
    /// The client, by its place in the script.
    pub fn client(&self) -> usize
        ensures { result ≡ self.now.client }
    {
        self.client
    }

    /// The client's configuration.
    pub fn config(&self) -> &ClientConfig
        ensures { result.now ≡ self.now.task.config }
    {
        &self.config
    }

    /// The heights that the client has stored, rising. Each has a record in the book.
    pub fn stored(&self) -> &[Height]
        ensures { result.now ≡ self.now.task.stored }
    {
        self.stored.as_slice()
    }

    /// The window in which the client is to be updated.
    pub fn window(&self) -> Window
        ensures { result ≡ self.now.task.window }
    {
        self.window
    }

    /// The client's paths, in script order.
    pub fn paths(&self) -> &[PathTask<A>]
        ensures { result.now ≡ self.now.task.paths }
    {
        self.paths.as_slice()
    }

    /// The goal that the client was asked for; None where it was asked for none since its last plan.
    pub fn asked(&self) -> Option<Goal>
        ensures { result ≡ self.now.task.asked }
    {
        self.asked
    }

    /// The number of the client's next plan: how many of its plans were accepted.
    pub fn plan(&self) -> usize
        ensures { result ≡ self.now.plan }
    {
        self.plan
    }

    /// Whether a batch of the client is open.
    pub fn is_held(&self) -> bool
        ensures { result ≡ self.now.held }
    {
        self.is_held
    }
}

impl<A: Allocator + Copy> JobView<A> {
    /// The job for the next plan of a client: its configuration, the heights that it has stored,
    /// rising, the goal that it was asked for, if any, the window in which it is to be updated, the
    /// book of the chain that it tracks, with a record at each stored height, and its paths in script
    /// order. `AllocError` where the copy of the heights is refused memory.
    pub fn new(
        next: NextPlan,
        config: &ClientConfig,
        stored: &[Height],
        asked: Option<Goal>,
        window: Window,
        book: SharedBook<A>,
        paths: Vec<PathTask<A>, A>,
    ) -> Result<JobView<A>, AllocError>
        requires { AreKnown book.book stored.now }
        ensures { IfOk result (λ job. job ≡ record {
          client = next.client;
          task = record { config = config.now; stored = stored.now; window = window; book = book.book; paths = paths.items; asked = asked };
          plan = next.number;
          held = next.is_held;
        }) }
    {
        Ok(JobView {
            client: next.client,
            config: *config,
            stored: Vec::from_slice(*paths.allocator(), stored)?,
            window,
            book,
            paths,
            asked,
            plan: next.number,
            is_held: next.is_held,
        })
    }

    /// The book of the chain that the client tracks.
    pub fn book(&self) -> &ChainBook<A>
        ensures { result.now ≡ self.now.task.book }
    {
        self.book.book()
    }

    /// The client in its window, over the book of the chain that it tracks.
    pub fn view(&self) -> ClientView<'_, A>
        ensures { result ≡ view_of self.now.task }
    {
        ClientView::new(
            self.config.options,
            self.config.fees,
            self.stored.as_slice(),
            self.window,
            self.book.book(),
        )
    }

    /// The allocator of its lists.
    pub fn alloc(&self) -> A {
        *self.stored.allocator()
    }

    /// An equal job, on the same allocator, with one more owner of the book. `AllocError` where a
    /// list is refused memory, or the book has as many owners as can be counted.
    pub fn copy(&self) -> Result<JobView<A>, AllocError>
        ensures { IfOk result (λ copy. copy ≡ self.now) }
    {
        let alloc = self.alloc();
        Ok(JobView {
            client: self.client,
            config: self.config,
            stored: Vec::from_slice(alloc, self.stored.as_slice())?,
            window: self.window,
            book: self.book.share()?,
            paths: copy_paths(alloc, self.paths.as_slice())?,
            asked: self.asked,
            plan: self.plan,
            is_held: self.is_held,
        })
    }
}

/// Whether two clients are set up alike, in every key.
pub fn same_config(config: &ClientConfig, other: &ClientConfig) -> bool
    ensures { result ≡ same_config config.now other.now }
{
    *config == *other
}

/// Whether two lists have the same heights in the same order.
pub fn same_heights(heights: &[Height], others: &[Height]) -> bool
    ensures { result ≡ pointwise nat_eq heights.now others.now }
{
    heights == others
}

/// Equal paths, in their order.
fn copy_paths<A: Allocator + Copy>(
    alloc: A,
    paths: &[PathTask<A>],
) -> Result<Vec<PathTask<A>, A>, AllocError>
    ensures { IfOk result (λ copies. copies.items ≡ paths.now) }
{
    let mut copies = Vec::with_capacity(alloc, paths.len())?;
    for path in paths {
        copies.push(path.copy()?)?;
    }
    Ok(copies)
}
