//! Clients without a goal.
ghost use Rattle.std.specs.Prelude.{◌↔◌, ◌<◌, IsTrue, Any, IfOk, length};
ghost use Rattle.rb_plan_client.specs.Reach.{IsReach};
ghost use Rattle.rb_plan_client.specs.Task.{ready_messages, view_of};
ghost use Rattle.rb_step.specs.View.{client_of};
ghost use Rattle.rb_explain.specs.Idle.{Goes, IsIdleReason, Owes, OwesAny};

use crate::refresh::is_aged;
use rb_base::Height;
use rb_plan_client::{JobView, PathTask, bars_of, ready_messages};
use rb_plan_types::proof_height;
use rb_scan::going;
use rb_script_types::RefreshTo;
use std::alloc::{AllocError, Allocator};

/// Why a client has no goal; the first that applies.
#[derive(Clone, Copy, PartialEq, Eq)]
pub enum IdleReason {
    /// No stored record is live: none is stored, or all have expired.
    NothingLive,
    /// Packet messages that a height proves to which the client can be brought wait for others to go with them.
    MessagesWait,
    /// Packet messages can go, and no height that the client can be brought to proves one of them.
    NothingProved,
    /// Packet messages are owed, and none of them can go.
    NothingGoes,
    /// A refresh is due, and the book has no record that is young enough; by gain, none in reach that is newer by enough.
    NothingYoung,
    /// No packet message is owed, and no refresh is due.
    NothingDue,
}

/// Whether packet messages are owed.
pub(crate) fn owes<A: Allocator>(paths: &[PathTask<A>]) -> bool
    ensures { IsTrue result ↔ Any Owes paths.now }
{
    paths.iter().any(|path| !path.owed().is_empty())
}

/// Whether a message of one of them is ready at the greatest height that the client can be brought to.
fn has_ready<A: Allocator + Copy>(
    alloc: A,
    job: &JobView<A>,
    reach: &Option<Height>,
) -> Result<bool, AllocError>
    ensures { IfOk result (λ has. IsTrue has ↔ (0 < length (ready_messages job.now.task reach.now))) }
{
    let messages = ready_messages(alloc, job, reach)?;
    Ok(!messages.is_empty())
}

/// Whether a message of a path can go.
fn goes<A: Allocator + Copy>(
    alloc: A,
    job: &JobView<A>,
    path: &PathTask<A>,
) -> Result<bool, AllocError>
    ensures { IfOk result (λ goes. IsTrue goes ↔ Goes job.now.task path.now) }
{
    match job.config().refresh_to {
        RefreshTo::Lowest | RefreshTo::Highest => Ok(!path.owed().is_empty()),
        RefreshTo::Newer => {
            let messages = going(alloc, path.owed(), path.order(), &bars_of(job, path))?;
            Ok(!messages.is_empty())
        }
    }
}

/// Whether a message of one of these paths can go.
#[tactic(auto, using(crate::proofs::Readiness::one_goes))]
fn any_goes<A: Allocator + Copy>(
    alloc: A,
    job: &JobView<A>,
    paths: &[PathTask<A>],
) -> Result<bool, AllocError>
    ensures { IfOk result (λ goes. IsTrue goes ↔ Any (Goes job.now.task) paths.now) }
{
    for path in paths {
        if goes(alloc, job, path)? {
            return Ok(true);
        }
    }
    Ok(false)
}

/// Why a client has no goal. `reach` is the greatest height that it can be brought to; it plays no part where no packet message is
/// owed.
#[tactic(auto, using(crate::proofs::Readiness::nothing_young, crate::proofs::Readiness::nothing_due))]
pub fn idle_reason<A: Allocator + Copy>(
    alloc: A,
    job: &JobView<A>,
    reach: &Option<Height>,
) -> Result<IdleReason, AllocError>
    requires { OwesAny job.now.task → IsReach (client_of (view_of job.now.task)) reach.now }
    ensures { IfOk result (IsIdleReason job.now.task) }
{
    if proof_height(&job.view(), &[]).is_none() {
        return Ok(IdleReason::NothingLive);
    }
    if !owes(job.paths()) {
        return if is_aged(job) {
            Ok(IdleReason::NothingYoung)
        } else {
            Ok(IdleReason::NothingDue)
        };
    }
    if has_ready(alloc, job, reach)? {
        return Ok(IdleReason::MessagesWait);
    }
    if any_goes(alloc, job, job.paths())? {
        Ok(IdleReason::NothingProved)
    } else {
        Ok(IdleReason::NothingGoes)
    }
}
