//! Making drafts.
ghost use Rattle.std.specs.Prelude.{◌≡◌, IfOk};
ghost use Rattle.rb_plan_client.specs.Draft.{IsDraft};

use crate::answering::answer_and_next;
use rb_graph::Graph;
use rb_plan_client::{Draft, JobView};
use std::alloc::{AllocError, Allocator};

/// A job with what is planned for it, as `answer` plans it, and the moment at which its client has a goal
/// next. `graph` is the table of the job's book, as `Graph::is_of` tells. `AllocError` where memory is
/// refused; the job is given up then.
pub fn draft<A: Allocator + Copy>(job: JobView<A>, graph: &Graph<A>) -> Result<Draft<A>, AllocError>
    requires { graph.now ≡ job.task.book }
    ensures job { IfOk result (λ draft. draft.job ≡ job) }
    ensures right { IfOk result IsDraft }
{
    let alloc = job.alloc();
    let (planned, next) = answer_and_next(alloc, &job, graph)?;
    Draft::new(alloc, job, planned, next)
}
