//! Laws of what is sent, over the definitions alone.
ghost use Rattle.rb_messages.specs.Least.{UpdatesAreLeast};

/// Each client is sent the updates of its least list, in order; or nothing, since a batch of it is open, it has no goal, or that
/// can't be met.
#[tactic(auto, using(crate::proofs::Least::least_sent))]
pub fn updates_are_least()
    ensures { UpdatesAreLeast }
{}
