//! The script of what is given: of its text, or of a setup and the answers of nodes, of which `import` would print it.
ghost use Rattle.std.specs.Prelude.{◌≡◌, Err, IfErr, IfOk, IfSome, IsErr, Ok};
ghost use Rattle.rb_script_types.specs.Script.{IsReadScript, script_view};
ghost use Rattle.rb_text.specs.Scripts.{script_of};
ghost use Rattle.ibcplan_cli.specs.Failures.{failure_status, told_fault};

use crate::host::Host;
use ibcplan_cli::{Given, Import, Input, ProgramError, ShownName, status};
use ibcplan_folders::{HostFolders, MadeScript, made};
use rb_import_setup::{is_setup, read_setup};
use rb_script_read::{read_script, read_script_by};
use rb_script_toml::RunError;
use rb_script_types::Script;
use std::alloc::Global;
use std::thread::Threads;

/// A script and what to call its file; what is told of the answers that it was made of, and the status to end with for these.
#[derive(Drop)]
pub struct GivenScript<'a> {
    pub script: Script,
    pub file: ShownName<'a>,
    pub notices: String,
    pub status: u8,
}

/// The script that is given, read by so many threads where it is a text. A setup without a folder, and a script with one, is
/// refused as such.
pub fn given_script<'a, R: Host>(
    rt: &R,
    given: Given<'a>,
    threads: usize,
) -> Result<GivenScript<'a>, ProgramError<'a>>
    ensures form { IfOk result (λ given. IsReadScript (script_view given.script)) }
{
    match given {
        Given::Script(path) => script_of_text(rt, rt.alloc(), &Input::read(rt, path)?, threads),
        Given::Setup(import) => {
            let input = Input::read(rt, import.setup)?;
            if is_script(rt.alloc(), &input)? {
                return Err(ProgramError::of_other_script(&input));
            }
            script_of_setup(rt, &input, import)
        }
    }
}

/// The script that a text holds.
pub fn script_of_text<'a, R: Threads + Sync>(
    rt: &R,
    alloc: Global,
    input: &Input<'a>,
    threads: usize,
) -> Result<GivenScript<'a>, ProgramError<'a>>
    ensures read { IfOk result (λ given. script_of input.now ≡ Ok (script_view given.script)) }
    ensures form { IfOk result (λ given. IsReadScript (script_view given.script)) }
    ensures done { IfOk result (λ given. given.status ≡ 0) }
    ensures refused { IfErr result (λ failure. failure_status failure ≡ 1 → IsErr (script_of input.now)) }
    ensures fault { IfErr result (λ failure. IfSome (told_fault failure) (λ fault. script_of input.now ≡ Err fault)) }
{
    match read_script_by(rt, alloc, input.bytes(), threads) {
        Ok(script) => Ok(GivenScript {
            script,
            file: input.name(),
            notices: String::new(alloc),
            status: status::DONE,
        }),
        Err(RunError::Fault(_)) if read_setup(alloc, input.bytes()).is_ok() => {
            Err(ProgramError::of_lone_setup(input))
        }
        Err(error) => Err(ProgramError::of_run(error, input)),
    }
}

/// The script that `import` makes of a setup.
pub fn script_of_setup<'a, R: Host>(
    rt: &R,
    input: &Input<'a>,
    import: Import<'_>,
) -> Result<GivenScript<'a>, ProgramError<'a>>
    ensures form { IfOk result (λ given. IsReadScript (script_view given.script)) }
{
    let files = HostFolders {
        rt,
        folder: import.folder,
    };
    let MadeScript {
        script,
        notices,
        status,
    } = made(rt, &files, input, import)?;
    Ok(GivenScript {
        script,
        file: input.name(),
        notices,
        status,
    })
}

/// Whether a text is a script and no setup.
fn is_script<'a>(alloc: Global, input: &Input<'a>) -> Result<bool, ProgramError<'a>> {
    match is_setup(alloc, input.bytes()) {
        Ok(is_setup) => Ok(!is_setup && read_script(alloc, input.bytes()).is_ok()),
        Err(_) => Err(ProgramError::NoMemory),
    }
}
