//! The clients of a turn, as they are planned for.
ghost use Rattle.std.specs.Prelude.{◌≡◌, ◌<◌, true, Some, length, is_some, IfOk, IfSome};
ghost use denote.Param.Send.{Frees};
ghost use Rattle.rb_core.specs.Core.{state_in};
ghost use Rattle.rb_core_model.specs.Machine.{client_view};
ghost use Rattle.rb_super_turn.specs.Phases.{standing_in};
ghost use Rattle.rb_explain.specs.Turn.{AreExplained, AreJobs, AreRight, IsExplainedAt, IsRightFor};
ghost use Rattle.rb_explain.specs.Wanted.{has_client};

use crate::client::{ClientExplanation, explain_client};
use crate::wanted::{Detail, Wanted};
use rb_base::Gate;
use rb_graph::SharedGraph;
use rb_plan_client::JobView;
use rb_super_turn::{ClientReport, Crew, Relayer, table_for, view_of};
use std::alloc::{AllocError, Allocator, Global};
use std::marker::Model;
use std::thread::Threads;

/// A client as it is planned for, and the table of the chain that it tracks.
#[derive(Drop)]
pub(crate) struct Seen<A: Allocator = Global> {
    job: JobView<A>,
    table: SharedGraph<A>,
}

impl<A: Allocator> Model for Seen<A> {
    ghost use Rattle.std.specs.Prelude.{◌≡◌};
    ghost use Rattle.rb_plan_client.specs.Draft.{Job};

    ghost Value = { Job };

    ghost view = { λ s. s.job };

    ghost invariant = { λ s. s.table ≡ s.job.task.book };
}

/// A client as it is planned for.
fn see<R: Threads + Sync, G: Gate + Sync, A: Allocator + Copy + Send + Sync>(
    crew: &Crew<R, G>,
    alloc: A,
    relayer: &mut Relayer<A>,
    client: usize,
) -> Result<Seen<A>, AllocError>
    requires client { client < length relayer.old.config.clients }
    requires window { is_some (standing_in relayer.old).window ≡ true }
    requires alloc { Frees A.Allocator A.dealloc_token }
    ensures seen { IfOk result (λ seen. client_view (state_in relayer.old) client ≡ Some seen) }
    ensures same { relayer.new ≡ relayer.old }
{
    let job = view_of(relayer, client)?;
    let table = table_for(crew, alloc, relayer, client)?;
    Ok(Seen { job, table })
}

/// A client as it is planned for, where it is wanted.
fn see_wanted<R: Threads + Sync, G: Gate + Sync, A: Allocator + Copy + Send + Sync>(
    crew: &Crew<R, G>,
    alloc: A,
    relayer: &mut Relayer<A>,
    client: usize,
    is_wanted: bool,
) -> Result<Option<Seen<A>>, AllocError>
    requires client { client < length relayer.old.config.clients }
    requires window { is_some (standing_in relayer.old).window ≡ true }
    requires alloc { Frees A.Allocator A.dealloc_token }
    ensures seen { IfOk result (λ o. IfSome o (λ seen. client_view (state_in relayer.old) client ≡ Some seen)) }
    ensures wanted { IfOk result (λ o. is_some o ≡ is_wanted) }
    ensures same { relayer.new ≡ relayer.old }
{
    if !is_wanted {
        return Ok(None);
    }
    Ok(Some(see(crew, alloc, relayer, client)?))
}

/// Each client as it is planned for in a turn, where it is wanted.
pub(crate) fn see_all<R: Threads + Sync, G: Gate + Sync, A: Allocator + Copy + Send + Sync>(
    crew: &Crew<R, G>,
    alloc: A,
    relayer: &mut Relayer<A>,
    number: usize,
    wanted: &Wanted,
) -> Result<Vec<Option<Seen<A>>, A>, AllocError>
    requires window { is_some (standing_in relayer.old).window ≡ true }
    requires alloc { Frees A.Allocator A.dealloc_token }
    ensures seen { IfOk result (λ seen. AreJobs (state_in relayer.old) (has_client wanted.now number) seen.items) }
    ensures same { relayer.new ≡ relayer.old }
{
    let clients = relayer.config().clients.len();
    let mut seen = Vec::with_capacity(alloc, clients)?;
    for client in 0..clients {
        let is_wanted = wanted.has_client(number, client);
        let one = see_wanted(crew, alloc, relayer, client, is_wanted)?;
        seen.push(one)?;
    }
    Ok(seen)
}

/// What came of a client, and why, where it was seen.
fn explain_seen<A: Allocator + Copy>(
    alloc: A,
    seen: &Option<Seen<A>>,
    report: &ClientReport<A>,
    detail: Detail,
) -> Result<Option<ClientExplanation<A>>, AllocError>
    requires right { IfSome seen.now (λ job. IsRightFor job report.now) }
    ensures { IfOk result (λ o. IsExplainedAt detail seen.now report.now o) }
{
    match seen {
        Some(seen) => {
            let table = seen.table.graph();
            let explained = explain_client(alloc, &seen.job, table, &report.outcome, detail)?;
            Ok(Some(explained))
        }
        None => Ok(None),
    }
}

/// What came of clients, and why, where they were seen.
pub(crate) fn explain_all<A: Allocator + Copy>(
    alloc: A,
    seen: &[Option<Seen<A>>],
    reports: &[ClientReport<A>],
    detail: Detail,
) -> Result<Vec<Option<ClientExplanation<A>>, A>, AllocError>
    requires long { length seen.now ≡ length reports.now }
    requires right { AreRight seen.now reports.now }
    ensures count { IfOk result (λ xs. length xs.items ≡ length seen.now) }
    ensures explained { IfOk result (λ xs. AreExplained detail seen.now reports.now xs.items) }
{
    let mut explained = Vec::with_capacity(alloc, seen.len())?;
    for place in 0..seen.len() {
        let one = explain_seen(alloc, &seen[place], &reports[place], detail)?;
        explained.push(one)?;
    }
    Ok(explained)
}
