//! How high a client can be brought.
ghost use Rattle.std.specs.Prelude.{◌≡◌, IfOk};
ghost use Rattle.rb_plan_client.specs.Reach.{IsReach};
ghost use Rattle.rb_step.specs.View.{client_of};

use rb_base::Height;
use rb_graph::Graph;
use rb_plan::label;
use rb_plan_types::top_reachable;
use rb_step::ClientView;
use std::alloc::{AllocError, Allocator};

/// The greatest height that some acceptable list of updates leaves stored and live, if there is one. `graph` is the table of the
/// view's book.
pub(crate) fn reach_of<A: Allocator + Copy>(
    alloc: A,
    view: &ClientView<'_, A>,
    graph: &Graph<A>,
) -> Result<Option<Height>, AllocError>
    requires { graph.now ≡ view.now.book }
    ensures { IfOk result (IsReach (client_of view.now)) }
{
    let labelling = label(alloc, view, graph)?;
    Ok(top_reachable(&labelling))
}
