//! What the first version of the format means, now that there are two.
ghost use Rattle.rb_script_config.specs.Laws.{SharesNothing};

/// In version 1 chains share nothing: each key that a client may share is its own, or has its
/// default.
pub fn first_version_shares_nothing()
    ensures { SharesNothing }
{}
