//! What was found before it is asked for.
ghost use Rattle.std.specs.Prelude.{◌≡◌, IfSome};
ghost use Rattle.rb_plan_client.specs.Draft.{IsDraft};

use rb_base::Part;
use rb_core_model::Scan;
use rb_plan_client::Draft;
use std::alloc::Allocator;

/// What was found of a relayer's jobs, by workers say. A scan and a plan are right for the view that
/// they carry, whatever view that is.
pub trait Found<A: Allocator + Copy> {
    /// Takes the scan of a part of a path, if it was found.
    fn take_scan(&mut self, path: usize, part: Part) -> Option<Scan<A>>
        ensures { IfSome result (λ scan. scan.part ≡ part) };

    /// Takes what is planned for a client, if it was found.
    fn take_draft(&mut self, client: usize) -> Option<Draft<A>>
        ensures client { IfSome result (λ draft. draft.job.client ≡ client) }
        ensures right { IfSome result IsDraft };
}

/// Nothing was found.
#[derive(Clone, Copy)]
pub struct Nothing;

impl<A: Allocator + Copy> Found<A> for Nothing {
    fn take_scan(&mut self, _path: usize, _part: Part) -> Option<Scan<A>> {
        None
    }

    fn take_draft(&mut self, _client: usize) -> Option<Draft<A>> {
        None
    }
}
