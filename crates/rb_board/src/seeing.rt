//! What a worker does on what its desk shows.
ghost use Rattle.std.specs.Prelude.{◌≡◌, IfOk, IfErr};
ghost use Rattle.rb_core_model.specs.Snapshot.{IsBeginning};
ghost use Rattle.rb_plan_client.specs.Draft.{IsDraft};
ghost use Rattle.rb_core_model.specs.Machine.{client_view_refusal, path_view_refusal, state_of};
ghost use Rattle.rb_board.specs.Unseen.{IsUnseen};
ghost use Rattle.rb_board.specs.Found.{IsDraftOf, IsScanOf};

use crate::desk::Desk;
use crate::error::DeskError;
use rb_base::Part;
use rb_core_model::{Scan, scan};
use rb_graph::Graph;
use rb_plan::draft;
use rb_plan_client::{Draft, JobView};
use std::alloc::{AllocError, Allocator};

/// Scans a part of a path as the desk shows it. `NoMemory` where a growth is refused, else as
/// `Desk::view_path`.
pub(crate) fn scan_seen<A: Allocator + Copy>(
    desk: &mut Desk<A>,
    path: usize,
    part: Part,
) -> Result<Scan<A>, DeskError>
    ensures config { desk.new.config ≡ desk.old.config }
    ensures told { desk.new.told ≡ desk.old.told }
    ensures begins { IsBeginning desk.old.seen desk.new.seen }
    ensures part { IfOk result (λ scan. scan.part ≡ part) }
    ensures right { IfOk result (IsScanOf desk.new path) }
    ensures refused { IfErr result (λ e. IsUnseen e desk.new (path_view_refusal (state_of desk.new.config desk.new.seen) path)) }
{
    let view = desk.view_path(path)?;
    match scan(view, part) {
        Ok(scan) => Ok(scan),
        Err(AllocError) => Err(DeskError::NoMemory),
    }
}

/// Plans by the table, where that is of the client's book, else by a new one.
fn draft_by<A: Allocator + Copy>(
    alloc: A,
    job: JobView<A>,
    graph: &Graph<A>,
) -> Result<Draft<A>, AllocError>
    ensures job { IfOk result (λ draft. draft.job ≡ job) }
    ensures right { IfOk result IsDraft }
{
    if graph.is_of(job.view().book()) {
        return draft(job, graph);
    }
    let book = job.view().book().copy()?;
    let graph = Graph::from_book(alloc, book)?;
    draft(job, &graph)
}

/// Plans for a client as the desk shows it. `NoMemory` where a growth is refused, else as
/// `Desk::view_client`.
pub(crate) fn plan_seen<A: Allocator + Copy>(
    alloc: A,
    desk: &mut Desk<A>,
    client: usize,
    graph: &Graph<A>,
) -> Result<Draft<A>, DeskError>
    ensures config { desk.new.config ≡ desk.old.config }
    ensures told { desk.new.told ≡ desk.old.told }
    ensures begins { IsBeginning desk.old.seen desk.new.seen }
    ensures client { IfOk result (λ draft. draft.job.client ≡ client) }
    ensures right { IfOk result (IsDraftOf desk.new client) }
    ensures refused { IfErr result (λ e. IsUnseen e desk.new (client_view_refusal (state_of desk.new.config desk.new.seen) client)) }
{
    let job = desk.view_client(client)?;
    match draft_by(alloc, job, graph) {
        Ok(draft) => Ok(draft),
        Err(AllocError) => Err(DeskError::NoMemory),
    }
}
