//! Why a setup's answers make no script: all that is refused of them.
ghost use Rattle.std.specs.Prelude.{◌≡◌, [], OnOk, IfErr};
ghost use Rattle.rb_import_merge.specs.Errors.{AreAlone, AreThese};

use rb_import_check::{CheckError, ImportError};
use std::alloc::{AllocError, Global};

/// Problems between answers, at least one: of the chains, of the clients, then of the paths, each in the setup's order.
#[derive(Drop)]
pub struct Refusals<'a> {
    pub first: CheckError<'a>,
    pub others: Vec<CheckError<'a>>,
}

/// Why answers make no script.
#[derive(Drop)]
pub enum ImportErrors<'a> {
    /// Something doesn't hold between answers.
    Refused(Refusals<'a>),
    /// A growth was refused.
    NoMemory,
}

impl<'a> ImportErrors<'a> {
    /// One problem, and no other.
    pub fn alone(alloc: Global, problem: ImportError<'a>) -> ImportErrors<'a>
        ensures { AreAlone problem.entry result }
    {
        match problem {
            ImportError::CheckError(first) => ImportErrors::Refused(Refusals {
                first,
                others: Vec::new(alloc),
            }),
            ImportError::NoMemory => ImportErrors::NoMemory,
        }
    }
}

impl From<AllocError> for ImportErrors<'_> {
    ghost use Rattle.std.specs.Prelude.{◌≡◌};
    ghost use Rattle.rb_import_merge.specs.declared.errors.ImportErrors.TheVariants.{NoMemory};

    ghost from_gives = { λ _ e. e ≡ NoMemory };

    fn from(_: AllocError) -> Self {
        ImportErrors::NoMemory
    }
}

/// All of these problems, if there are some.
pub fn refuse<'a>(problems: Vec<CheckError<'a>>) -> Result<(), ImportErrors<'a>>
    ensures none { OnOk result (problems.entry.items ≡ []) }
    ensures all { IfErr result (AreThese problems.entry.items) }
{
    let mut others = problems;
    if others.is_empty() {
        return Ok(());
    }
    let first = others.remove(0);
    Err(ImportErrors::Refused(Refusals { first, others }))
}
