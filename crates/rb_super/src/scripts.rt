//! Scripts that were read are scripts that the laws speak of.
ghost use Rattle.rb_script_types.specs.Script.{script_view, IsReadScript};
ghost use Rattle.rb_super.specs.Schedule.{FitsLog};
ghost use Rattle.rb_super_turn.specs.Script.{IsScript};
ghost use Rattle.rb_super_turn.specs.AsEvents.{as_events};

use rb_script_types::Script;
use rb_super_turn::read_scripts_are_scripts;
use std::alloc::Allocator;

/// A script that keeps what `rb_script_read::read_script` promises of each that it reads keeps what the laws of reports, of verdicts
/// and of schedules ask of a script, and all that can be appended for it has room in the log: so they hold of it.
pub fn laws_hold_of_read_scripts<A: Allocator>(script: &Script<A>)
    requires { IsReadScript (script_view script.now) }
    ensures script { IsScript (as_events (script_view script.now)) }
    ensures room { FitsLog (as_events (script_view script.now)) }
{
    read_scripts_are_scripts(script);
}
