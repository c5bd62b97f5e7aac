//! What is wrong with a file that is refused.
ghost use Rattle.std.specs.Prelude.{◌≡◌};
ghost use Rattle.rb_script_toml.specs.Faults.{fault_view};

use crate::advice::type_words;
use crate::input::Input;
use crate::shown::ShownName;
use rb_script_toml::{Fault, FaultName};
use std::str;
use thiserror::Error;

/// What is wrong with a file, and what to do about it.
#[derive(Debug, Drop, Error)]
pub enum InputError<'a> {
    /// It isn't UTF-8.
    #[error("{file}: line {line}: byte {place} (from 0) is no UTF-8\nWrite the file in UTF-8.")]
    Encoding {
        file: ShownName<'a>,
        line: usize,
        place: usize,
    },
    /// It is UTF-8, and not of TOML's grammar.
    #[error("{file}: {reason}Mend the text there; a value that is a text stands in quotes, a key stands once, and a table of which there may be several has two brackets, as [[chain]] or [[turn.event]].")]
    Grammar {
        file: ShownName<'a>,
        reason: String,
    },
    /// Nothing is there.
    #[error("{file}: there is nothing in it; did the command fail that was to write it?")]
    Empty {
        file: ShownName<'a>,
    },
    /// A key isn't there.
    #[error("{file}: this key is missing; {advice} (docs/FORMATS.md; places are counted from 0)")]
    Missing {
        file: ShownName<'a>,
        advice: &'static str,
    },
    /// A value has another type than the one that belongs there.
    #[error("{file}: {advice}; what stands there is {found} (docs/FORMATS.md; places are counted from 0)")]
    Type {
        file: ShownName<'a>,
        advice: &'static str,
        found: &'static str,
    },
    /// It is TOML, and holds no script or certificate.
    #[error("{file}: {advice} (docs/FORMATS.md; places are counted from 0)")]
    Content {
        file: ShownName<'a>,
        advice: &'static str,
    },
}

/// The flaw of a file that is refused for a fault, from which it takes the reason; the advice says what
/// should stand at the fault's path.
pub fn input_error_of<'a>(
    fault: &mut Fault,
    input: &Input<'a>,
    advice: &'static str,
) -> InputError<'a>
    ensures { fault_view fault.new ≡ fault_view fault.old }
{
    let file = input.name();
    if fault.name == FaultName::NotToml {
        if let Err(error) = str::from_utf8(input.bytes()) {
            let place = error.valid_up_to();
            let line = line_of(input.bytes(), place);
            return InputError::Encoding { file, line, place };
        }
        if let Some(reason) = fault.reason.take() {
            return InputError::Grammar { file, reason };
        }
    }
    match (fault.name, fault.found) {
        (FaultName::MissingKey, _) if is_blank(input.bytes()) => InputError::Empty { file },
        (FaultName::MissingKey, _) => InputError::Missing { file, advice },
        (_, Some(found)) => InputError::Type {
            file,
            advice,
            found: type_words(found),
        },
        (_, None) => InputError::Content { file, advice },
    }
}

/// Whether there is nothing but white space.
fn is_blank(bytes: &[u8]) -> bool {
    bytes.iter().all(|byte| byte.is_ascii_whitespace())
}

/// The line of the byte at a place, counted from 1.
fn line_of(bytes: &[u8], place: usize) -> usize {
    let ends = bytes
        .iter()
        .take(place)
        .filter(|byte| **byte == b'\n')
        .count();
    ends.saturating_add(1)
}
