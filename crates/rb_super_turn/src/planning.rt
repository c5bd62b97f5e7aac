//! Plans for clients.
ghost use Rattle.std.specs.Prelude.{◌≡◌, ◌<◌, true, Some, None, length, is_some, IfOk, OnOk, map};
ghost use denote.Param.Send.{Frees};
ghost use Rattle.rb_core_model.specs.Standing.{batch_open};
ghost use Rattle.rb_core.specs.Core.{state_in};
ghost use Rattle.rb_plan_client.specs.Draft.{IsDraft, Job};
ghost use Rattle.rb_core_model.specs.Machine.{client_view};
ghost use Rattle.rb_super_turn.specs.Drafts.{AreDrafts};
ghost use Rattle.rb_super_turn.specs.Phases.{standing_in, HasLogRoom, IsLater, IsPlannable, IsReportedOf, IsOutcomeOf, AreReported};
ghost use Rattle.rb_super_turn.specs.Views.{outcome_view, client_report_view};
ghost use Rattle.rb_super_turn.specs.declared.outcome.Came as cames;

use crate::clients::config_of;
use crate::crew::Crew;
use crate::found::Found;
use crate::machine::Machine;
use crate::outcome::{Came, came_of};
use crate::relayer::Relayer;
use crate::report::{ClientReport, Outcome};
use crate::taking::{note, offer};
use rb_base::{Gate, WorkItem};
use rb_core_model::{CoreError, Event};
use rb_graph::SharedGraph;
use rb_plan::draft;
use rb_plan_client::{Draft, JobView};
use std::alloc::{AllocError, Allocator};
use std::thread::Threads;

/// A client that is there, once a window was entered, as it is planned for.
#[tactic(auto, using(crate::proofs::Steps::client_is_shown))]
pub fn view_of<A: Allocator + Copy, M: Machine<A>>(
    relayer: &Relayer<A, M>,
    client: usize,
) -> Result<JobView<A>, AllocError>
    requires client { client < length relayer.now.config.clients }
    requires window { is_some (standing_in relayer.now).window ≡ true }
    ensures { IfOk result (λ job. client_view (state_in relayer.now) client ≡ Some job) }
{
    match relayer.client_view(client) {
        Ok(job) => Ok(job),
        Err(CoreError::Refused(_)) => unreachable!(),
        Err(CoreError::NoMemory) => Err(AllocError),
    }
}

/// The table of the chain that a client tracks: one more owner of it. It is of the book that the client is
/// seen with. An error comes only where a growth is refused, or too many share it.
pub fn table_for<
    R: Threads + Sync,
    G: Gate + Sync,
    A: Allocator + Copy + Send + Sync,
    M: Machine<A>,
>(
    crew: &Crew<R, G>,
    alloc: A,
    relayer: &mut Relayer<A, M>,
    client: usize,
) -> Result<SharedGraph<A>, AllocError>
    requires client { client < length relayer.old.config.clients }
    requires alloc { Frees A.Allocator A.dealloc_token }
    ensures table { (job : Job) → client_view (state_in relayer.old) client ≡ Some job → IfOk result (λ table. table ≡ job.task.book) }
    ensures same { relayer.new ≡ relayer.old }
{
    let chain = config_of(relayer, client).tracks;
    let book = relayer.book(chain)?;
    let table = relayer.table(crew, alloc, chain, book.book())?;
    Ok(table)
}

/// What is planned for a client that is there as it is seen, by the table of its chain.
pub fn draft_of<
    R: Threads + Sync,
    G: Gate + Sync,
    A: Allocator + Copy + Send + Sync,
    M: Machine<A>,
>(
    crew: &Crew<R, G>,
    alloc: A,
    relayer: &mut Relayer<A, M>,
    client: usize,
    job: JobView<A>,
) -> Result<Draft<A>, AllocError>
    requires client { client < length relayer.old.config.clients }
    requires view { client_view (state_in relayer.old) client ≡ Some job }
    requires alloc { Frees A.Allocator A.dealloc_token }
    ensures job { IfOk result (λ draft. draft.job ≡ job) }
    ensures right { IfOk result IsDraft }
    ensures same { relayer.new ≡ relayer.old }
{
    let table = table_for(crew, alloc, relayer, client)?;
    let draft = draft(job, table.graph())?;
    Ok(draft)
}

/// What is planned for a client as it stands, its job between the gate's calls.
fn planned_for<R: Threads + Sync, G: Gate + Sync, A: Allocator + Copy + Send + Sync, M: Machine<A>>(
    crew: &Crew<R, G>,
    alloc: A,
    relayer: &mut Relayer<A, M>,
    client: usize,
) -> Result<Draft<A>, AllocError>
    requires client { client < length relayer.old.config.clients }
    requires ready { IsPlannable relayer.old }
    requires alloc { Frees A.Allocator A.dealloc_token }
    ensures view { IfOk result (λ draft. client_view (state_in relayer.old) client ≡ Some draft.job) }
    ensures right { IfOk result IsDraft }
    ensures same { relayer.new ≡ relayer.old }
{
    let job = view_of(relayer, client)?;
    crew.before(WorkItem::Plan(client));
    let draft = draft_of(crew, alloc, relayer, client, job)?;
    crew.after(WorkItem::Plan(client));
    Ok(draft)
}

/// Takes in what was found to be planned for a client, if it was, and the client is still so as it was
/// planned for; tells what is reported of it then.
fn plan_found<A: Allocator + Copy, M: Machine<A>, F: Found<A>>(
    alloc: A,
    relayer: &mut Relayer<A, M>,
    found: &mut F,
    client: usize,
) -> Result<Option<Came<A>>, AllocError>
    requires ready { IsPlannable relayer.old }
    ensures report { IfOk result (λ found. (came : cames.Came A) → found ≡ Some came
        → IsOutcomeOf (standing_in relayer.old) (standing_in relayer.new) client (outcome_view came.outcome) came.too_big.items) }
    ensures nothing { IfOk result (λ found. found ≡ None → state_in relayer.new ≡ state_in relayer.old) }
    ensures ready { OnOk result (IsPlannable relayer.new) }
    ensures later { OnOk result (IsLater 1 relayer.old relayer.new) }
{
    let Some(draft) = found.take_draft(client) else {
        return Ok(None);
    };
    let copy = draft.copy()?;
    match offer(relayer, Event::Planned(copy))? {
        Some(reply) => Ok(Some(came_of(alloc, &draft, reply)?)),
        None => Ok(None),
    }
}

/// Plans for a client that has no open batch, here.
fn plan_here<R: Threads + Sync, G: Gate + Sync, A: Allocator + Copy + Send + Sync, M: Machine<A>>(
    crew: &Crew<R, G>,
    alloc: A,
    relayer: &mut Relayer<A, M>,
    client: usize,
) -> Result<Came<A>, AllocError>
    requires client { client < length relayer.old.config.clients }
    requires none_open { batch_open (standing_in relayer.old) client ≡ None }
    requires ready { IsPlannable relayer.old }
    requires room { HasLogRoom relayer.old 1 }
    requires alloc { Frees A.Allocator A.dealloc_token }
    ensures report { IfOk result (λ came. IsOutcomeOf (standing_in relayer.old) (standing_in relayer.new) client (outcome_view came.outcome) came.too_big.items) }
    ensures ready { OnOk result (IsPlannable relayer.new) }
    ensures later { OnOk result (IsLater 1 relayer.old relayer.new) }
{
    let draft = planned_for(crew, alloc, relayer, client)?;
    let copy = draft.copy()?;
    let reply = note(relayer, Event::Planned(copy))?;
    crew.after(WorkItem::Taken(client));
    let came = came_of(alloc, &draft, reply)?;
    Ok(came)
}

/// Plans for a client that has no open batch: by what was found, or here.
fn plan_open<
    R: Threads + Sync,
    G: Gate + Sync,
    A: Allocator + Copy + Send + Sync,
    M: Machine<A>,
    F: Found<A>,
>(
    crew: &Crew<R, G>,
    alloc: A,
    relayer: &mut Relayer<A, M>,
    found: &mut F,
    client: usize,
) -> Result<Came<A>, AllocError>
    requires client { client < length relayer.old.config.clients }
    requires none_open { batch_open (standing_in relayer.old) client ≡ None }
    requires ready { IsPlannable relayer.old }
    requires room { HasLogRoom relayer.old 1 }
    requires alloc { Frees A.Allocator A.dealloc_token }
    ensures report { IfOk result (λ came. IsOutcomeOf (standing_in relayer.old) (standing_in relayer.new) client (outcome_view came.outcome) came.too_big.items) }
    ensures ready { OnOk result (IsPlannable relayer.new) }
    ensures later { OnOk result (IsLater 1 relayer.old relayer.new) }
{
    match plan_found(alloc, relayer, found, client)? {
        Some(came) => Ok(came),
        None => plan_here(crew, alloc, relayer, client),
    }
}

/// Plans for a client, unless a batch of it is open.
fn plan_client<
    R: Threads + Sync,
    G: Gate + Sync,
    A: Allocator + Copy + Send + Sync,
    M: Machine<A>,
    F: Found<A>,
>(
    crew: &Crew<R, G>,
    alloc: A,
    relayer: &mut Relayer<A, M>,
    found: &mut F,
    client: usize,
) -> Result<ClientReport<A>, AllocError>
    requires client { client < length relayer.old.config.clients }
    requires ready { IsPlannable relayer.old }
    requires room { HasLogRoom relayer.old 1 }
    requires alloc { Frees A.Allocator A.dealloc_token }
    ensures report { IfOk result (λ r. IsReportedOf (standing_in relayer.old) (standing_in relayer.new) client (client_report_view r)) }
    ensures ready { OnOk result (IsPlannable relayer.new) }
    ensures later { OnOk result (IsLater 1 relayer.old relayer.new) }
{
    let config = config_of(relayer, client);
    if let Some(batch) = relayer.open_batch(client) {
        let outcome = Outcome::Held(batch.number());
        return Ok(ClientReport {
            id: config.id,
            outcome,
            too_big: Vec::new(alloc),
        });
    }
    let came = plan_open(crew, alloc, relayer, found, client)?;
    let Came { outcome, too_big } = came;
    Ok(ClientReport {
        id: config.id,
        outcome,
        too_big,
    })
}

/// Plans for the clients, in their order: by what was found, where the client is still so as it was planned
/// for, else here. An error comes only where a growth is
/// refused; some of them may then have been taken in.
pub fn plan_all<
    R: Threads + Sync,
    G: Gate + Sync,
    A: Allocator + Copy + Send + Sync,
    M: Machine<A>,
    F: Found<A>,
>(
    crew: &Crew<R, G>,
    alloc: A,
    relayer: &mut Relayer<A, M>,
    found: &mut F,
) -> Result<Vec<ClientReport<A>, A>, AllocError>
    requires ready { IsPlannable relayer.old }
    requires room { HasLogRoom relayer.old (length relayer.old.config.clients) }
    requires alloc { Frees A.Allocator A.dealloc_token }
    ensures count { IfOk result (λ reports. length reports.items ≡ length relayer.old.config.clients) }
    ensures reports { IfOk result (λ reports. AreReported (standing_in relayer.old) (standing_in relayer.new) 0 (map client_report_view reports.items)) }
    ensures later { OnOk result (IsLater (length relayer.old.config.clients) relayer.old relayer.new) }
{
    let clients = relayer.config().clients.len();
    let mut reports = Vec::with_capacity(alloc, clients)?;
    for client in 0..clients {
        reports.push(plan_client(crew, alloc, relayer, found, client)?)?;
    }
    Ok(reports)
}

/// What is planned for each client as things stand, in their order. None of it is taken in.
pub fn drafts_of<
    R: Threads + Sync,
    G: Gate + Sync,
    A: Allocator + Copy + Send + Sync,
    M: Machine<A>,
>(crew: &Crew<R, G>, alloc: A, relayer: &mut Relayer<A, M>) -> Result<Vec<Draft<A>, A>, AllocError>
    requires ready { IsPlannable relayer.old }
    requires alloc { Frees A.Allocator A.dealloc_token }
    ensures drafts { IfOk result (λ drafts. AreDrafts (standing_in relayer.old) drafts.items) }
    ensures same { relayer.new ≡ relayer.old }
{
    let clients = relayer.config().clients.len();
    let mut drafts = Vec::with_capacity(alloc, clients)?;
    for client in 0..clients {
        let draft = planned_for(crew, alloc, relayer, client)?;
        drafts.push(draft)?;
    }
    Ok(drafts)
}
