//! Clients as workers get them: jobs.
ghost use Rattle.std.specs.Prelude.{◌≡◌, ◌&&◌, ◌++◌, slice_get, IfOk, IfErr, OnOk, MatchOption, Some, None};
ghost use Rattle.std.specs.Cmp.Lexicographic.{pointwise};
ghost use Rattle.std.specs.Option.{option_to_list};
ghost use Rattle.std.proofs.Common.{nat_eq};
ghost use Rattle.rb_book.specs.Book.{same_book};
ghost use Rattle.rb_step.specs.View.{IsView};
ghost use Rattle.rb_plan_client.specs.Draft.{Job};
ghost use Rattle.rb_core_state.specs.Room.{books_of};
ghost use Rattle.rb_core.specs.State.{standing_view, state_view};
ghost use Rattle.rb_core_model.specs.Machine.{job_of, client_view, client_view_refusal, is_job, plan_number, seen_owed};
ghost use Rattle.rb_core_model.specs.Refused.{IsRefusal};
ghost use Rattle.rb_plan_client.specs.Same.{same_config, same_job, same_path_task, same_span, same_task};
ghost use Rattle.rb_plan_client.specs.Task.{view_of};
ghost use Rattle.rb_core_model.specs.Standing.{book_at, empty_book, path_task, path_tasks, window_for};

use crate::path_views::{part_for, seen_owed};
use crate::state::CoreState;
use rb_base::{Part, Window};
use rb_book::{ChainBook, SharedBook};
use rb_core_model::CoreError;
use rb_core_state::views::find_book;
use rb_core_state::{ClientState, PathState};
use rb_plan_client::{JobView, NextPlan, PathTask, same_config, same_heights, same_messages};
use rb_script_types::{PathConfig, Refusal};
use std::alloc::{AllocError, Allocator};

/// A client, if there is one at this place.
fn find_client<A: Allocator + Copy>(state: &CoreState<A>, client: usize) -> Option<&ClientState<A>>
    ensures { let found = slice_get (standing_view state.now).clients client
        in MatchOption result (found ≡ None) (λ client_state. found ≡ Some client_state.now.client) }
{
    state.clients.as_slice().get(client)
}

/// One more owner of the book of a chain.
fn share_in<A: Allocator + Copy>(
    alloc: A,
    books: &[SharedBook<A>],
    chain: usize,
) -> Result<SharedBook<A>, AllocError>
    ensures { IfOk result (λ shared. shared.book ≡ book_at (books_of books.now) chain) }
{
    let Some(shared) = find_book(books, chain) else {
        let none = ChainBook::with_limit(alloc, 1)?;
        let owner = SharedBook::new(alloc, none)?;
        return Ok(owner);
    };
    let owner = shared.share()?;
    Ok(owner)
}

/// One more owner of the book of a chain, of an empty one where there is no such chain.
pub(crate) fn book_of<A: Allocator + Copy>(
    alloc: A,
    state: &CoreState<A>,
    chain: usize,
) -> Result<SharedBook<A>, AllocError>
    ensures { IfOk result (λ shared. shared.book ≡ book_at (standing_view state.now).books chain) }
{
    share_in(alloc, state.books.as_slice(), chain)
}

/// A path as the client has it, if it is a path of the client's.
fn path_task<A: Allocator + Copy>(
    alloc: A,
    state: &CoreState<A>,
    client: usize,
    place: usize,
    path: &PathState<A>,
) -> Result<Option<PathTask<A>>, AllocError>
    ensures { IfOk result (λ task. task ≡ path_task (seen_owed (state_view state.now)) client (place, path.now.path)) }
{
    let config = path.config();
    let Some(part) = part_for(config, client) else {
        return Ok(None);
    };
    let owed = Vec::from_slice(alloc, seen_owed(state, place, part))?;
    Ok(Some(PathTask::new(place, config.order, config.gas, config.waits, owed)))
}

/// Puts a path as the client has it to the end of a list, if it is a path of the client's.
fn add_task<A: Allocator + Copy>(
    alloc: A,
    state: &CoreState<A>,
    client: usize,
    place: usize,
    path: &PathState<A>,
    tasks: &mut Vec<PathTask<A>, A>,
) -> Result<(), AllocError>
    ensures { let task = path_task (seen_owed (state_view state.now)) client (place, path.now.path)
        in OnOk result (tasks.new.items ≡ tasks.old.items ++ option_to_list task) }
{
    let Some(task) = path_task(alloc, state, client, place, path)? else {
        return Ok(());
    };
    tasks.push(task)?;
    Ok(())
}

/// The paths of a client, in their order, with the messages that are seen to be owed to it.
fn path_tasks<A: Allocator + Copy>(
    alloc: A,
    state: &CoreState<A>,
    client: usize,
) -> Result<Vec<PathTask<A>, A>, AllocError>
    ensures { IfOk result (λ tasks. tasks.items ≡ path_tasks (seen_owed (state_view state.now)) (standing_view state.now).paths client) }
{
    let mut tasks = Vec::new(alloc);
    for (place, path) in state.paths.iter().enumerate() {
        add_task(alloc, state, client, place, path, &mut tasks)?;
    }
    Ok(tasks)
}

/// The number of a client's next plan.
pub(crate) fn plan_number<A: Allocator>(state: &CoreState<A>, client: usize) -> usize
    ensures { result ≡ plan_number (state_view state.now) client }
{
    state.plans.get(client).copied().unwrap_or(0)
}

/// The job of a client, this being the common window.
fn job_of<A: Allocator + Copy>(
    alloc: A,
    state: &CoreState<A>,
    client: usize,
    window: Window,
    client_state: &ClientState<A>,
) -> Result<JobView<A>, AllocError>
    requires { IsView (view_of (job_of (state_view state.now) client window client_state.now.client).task) }
    ensures { IfOk result (λ job. job ≡ job_of (state_view state.now) client window client_state.now.client) }
{
    let config = client_state.config();
    let book = book_of(alloc, state, config.tracks)?;
    let paths = path_tasks(alloc, state, client)?;
    let next = NextPlan {
        client,
        number: plan_number(state, client),
        is_held: client_state.is_held(),
    };
    let job = JobView::new(
        next,
        config,
        client_state.stored(),
        client_state.asked(),
        client_state.window(window),
        book,
        paths,
    )?;
    Ok(job)
}

/// The job of a client, with one more owner of its book. `UnknownObject` where there is none at this
/// place, `OutOfOrder` before the first window, `NoMemory` where memory is refused.
pub(crate) fn client_view<A: Allocator + Copy>(
    alloc: A,
    state: &CoreState<A>,
    client: usize,
) -> Result<JobView<A>, CoreError>
    requires { (job : Job) → client_view (state_view state.now) client ≡ Some job → IsView (view_of job.task) }
    ensures view { IfOk result (λ view. client_view (state_view state.now) client ≡ Some view) }
    ensures refused { IfErr result (λ e. IsRefusal e (client_view_refusal (state_view state.now) client)) }
{
    let Some(client_state) = find_client(state, client) else {
        return Err(CoreError::Refused(Refusal::UnknownObject));
    };
    let Some(window) = state.window else {
        return Err(CoreError::Refused(Refusal::OutOfOrder));
    };
    let job = job_of(alloc, state, client, window, client_state)?;
    Ok(job)
}

fn is_empty<A: Allocator>(book: &ChainBook<A>) -> bool
    ensures { result ≡ same_book book.now (empty_book 1) }
{
    book.limit() == 1
        && book.sets().is_empty()
        && book.records().is_empty()
        && book.headers().is_empty()
}

/// Whether this is the book of a chain.
fn is_book<A: Allocator + Copy>(books: &[SharedBook<A>], chain: usize, book: &ChainBook<A>) -> bool
    ensures { result ≡ same_book book.now (book_at (books_of books.now) chain) }
{
    match find_book(books, chain) {
        Some(shared) => *book == *shared.book(),
        None => is_empty(book),
    }
}

/// Whether this is the book of the chain that a client tracks.
fn is_book_of<A: Allocator + Copy>(
    state: &CoreState<A>,
    client_state: &ClientState<A>,
    book: &ChainBook<A>,
) -> bool
    ensures { result ≡ same_book book.now (book_at (standing_view state.now).books client_state.now.client.config.tracks) }
{
    is_book(state.books.as_slice(), client_state.config().tracks, book)
}

/// Whether a job is for a client as it is configured and has stored heights, and for its window.
fn is_client_in<A: Allocator + Copy>(
    window: Window,
    client_state: &ClientState<A>,
    job: &JobView<A>,
) -> bool
    ensures { let c = client_state.now.client in let t = job.now.task
        in result ≡ (same_config t.config c.config && pointwise nat_eq t.stored c.stored && same_span t.window (window_for window c)) }
{
    same_config(job.config(), client_state.config())
        && same_heights(job.stored(), client_state.stored())
        && job.window() == client_state.window(window)
}

/// Whether this is what is seen of a path, whose part is for the client.
fn is_task_of<A: Allocator + Copy>(
    state: &CoreState<A>,
    place: usize,
    config: &PathConfig,
    part: Part,
    task: &PathTask<A>,
) -> bool
    ensures { result ≡ same_path_task task.now (record { path = place; order = config.now.order; gas = config.now.gas; waits = config.now.waits; owed = seen_owed (state_view state.now) place part }) }
{
    task.path() == place
        && task.order() == config.order
        && task.gas() == config.gas
        && task.waits() == config.waits
        && same_messages(task.owed(), seen_owed(state, place, part))
}

/// Whether these are the paths of a client, in their order, with the messages that are seen to be
/// owed to it.
fn are_tasks_of<A: Allocator + Copy>(
    state: &CoreState<A>,
    client: usize,
    tasks: &[PathTask<A>],
) -> bool
    ensures { result ≡ pointwise same_path_task tasks.now (path_tasks (seen_owed (state_view state.now)) (standing_view state.now).paths client) }
{
    let mut rest = tasks;
    for (place, path) in state.paths.iter().enumerate() {
        if let Some(part) = part_for(path.config(), client) {
            let Some((task, others)) = rest.split_first() else {
                return false;
            };
            if !is_task_of(state, place, path.config(), part, task) {
                return false;
            }
            rest = others;
        }
    }
    rest.is_empty()
}

/// Whether this is what a plan for a client is made from in a window.
fn is_task<A: Allocator + Copy>(
    state: &CoreState<A>,
    window: Window,
    client_state: &ClientState<A>,
    job: &JobView<A>,
) -> bool
    ensures { result ≡ same_task job.now.task (job_of (state_view state.now) job.now.client window client_state.now.client).task }
{
    is_client_in(window, client_state, job)
        && is_book_of(state, client_state, job.book())
        && are_tasks_of(state, job.client(), job.paths())
        && job.asked() == client_state.asked()
}

/// Whether this is the job of a client in a window.
fn is_job_of<A: Allocator + Copy>(
    state: &CoreState<A>,
    window: Window,
    client_state: &ClientState<A>,
    job: &JobView<A>,
) -> bool
    ensures { result ≡ same_job job.now (job_of (state_view state.now) job.now.client window client_state.now.client) }
{
    is_task(state, window, client_state, job)
        && job.plan() == plan_number(state, job.client())
        && job.is_held() == client_state.is_held()
}

/// Whether this is what a worker would get of its client.
pub(crate) fn is_job<A: Allocator + Copy>(state: &CoreState<A>, job: &JobView<A>) -> bool
    ensures { result ≡ is_job (state_view state.now) job.now }
{
    let Some(client_state) = find_client(state, job.client()) else {
        return false;
    };
    match state.window {
        Some(window) => is_job_of(state, window, client_state, job),
        None => false,
    }
}
