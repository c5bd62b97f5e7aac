//! When a client expires.
ghost use Rattle.std.specs.Prelude.{◌≡◌, nat_lt, IfOk};
ghost use Rattle.rb_core.specs.Core.{state_in};
ghost use Rattle.rb_text_report.specs.Health.{newest_expiry, expiry_in};

use rb_base::Height;
use rb_core::Core;
use rb_core_model::CoreError;
use rb_plan_client::JobView;
use std::alloc::{AllocError, Allocator};

/// When the newest consensus state that a client has stored expires: its height, the moment from which on it has
/// expired, and the last moment of the window in force, both in nanoseconds since 1970.
#[derive(Clone, Copy, PartialEq, Eq)]
pub struct Expiry {
    pub height: Height,
    pub expires: u128,
    pub until: u128,
}

impl Expiry {
    /// Whether it doesn't expire in the window.
    pub fn is_live(&self) -> bool
        ensures { result ≡ nat_lt self.now.until self.now.expires }
    {
        self.expires > self.until
    }
}

/// When a client as a worker gets it expires; None where it has stored nothing.
fn newest_expiry<A: Allocator + Copy>(job: &JobView<A>) -> Option<Expiry>
    ensures { result ≡ newest_expiry job.now.task }
{
    let height = *job.stored().last()?;
    let record = job.book().record(height)?;
    let period = u128::from(job.config().options.period().nanoseconds());
    Some(Expiry {
        height,
        expires: record.time().nanoseconds() + period,
        until: job.window().until().nanoseconds(),
    })
}

/// When a client, by its place, expires; None where it has stored nothing, and before the first window.
#[tactic(auto, using(crate::proofs::Shown::refused_expiry, crate::proofs::Shown::shown_expiry))]
pub(crate) fn expiry_in<A: Allocator + Copy>(
    core: &Core<A>,
    client: usize,
) -> Result<Option<Expiry>, AllocError>
    ensures { IfOk result (λ expiry. expiry ≡ expiry_in (state_in core.now) client) }
{
    match core.client_view(client) {
        Ok(job) => Ok(newest_expiry(&job)),
        Err(CoreError::Refused(_)) => Ok(None),
        Err(CoreError::NoMemory) => Err(AllocError),
    }
}
