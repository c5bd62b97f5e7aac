//! What the first two versions of the format leave out.
ghost use Rattle.rb_script_read.specs.Laws.{EarlyScriptsWaitNot};

/// In every script of a text of version 1 or 2 no message may wait, and clients are refreshed by age. So all messages
/// that are ready go at once (`rb_super::waiting::none_waits`).
pub fn early_scripts_wait_not()
    ensures { EarlyScriptsWaitNot }
{}
