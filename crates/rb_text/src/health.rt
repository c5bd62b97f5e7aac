//! When the clients of a script expire, as lines and as metrics.
ghost use Rattle.std.specs.Prelude.{IfOk, string_bytes};
ghost use Rattle.rb_script_types.specs.Script.{script_view, IsReadScript};
ghost use Rattle.rb_text.specs.Healths.{IsHealthOf};

use rb_base::Gate;
use rb_script_types::Script;
use rb_super::run_to_end;
use rb_text_report::{healths_of, metrics_of, text_of};
use std::alloc::{AllocError, Global};
use std::thread::Threads;

/// When each client of a script expires, as metrics or as lines; the plans are made through a gate.
pub fn health_of_script<R: Threads + Sync, G: Gate + Sync>(
    rt: &R,
    alloc: Global,
    script: Script,
    are_metrics: bool,
    gate: &G,
) -> Result<String, AllocError>
    requires { IsReadScript (script_view script) }
    ensures { IfOk result (λ text. IsHealthOf are_metrics (script_view script) (string_bytes text)) }
{
    let (_, relayer) = run_to_end(rt, alloc, script, 0, gate)?;
    let clients = healths_of(alloc, &relayer)?;
    if are_metrics {
        let chains = relayer.config().chains.as_slice();
        metrics_of(alloc, chains, clients.as_slice())
    } else {
        text_of(alloc, clients.as_slice())
    }
}
