//! Numbers that a script takes.
ghost use Rattle.std.specs.Prelude.{◌≡◌, ◌<◌, ◌≤◌, ◌^◌, IfSome};
ghost use Rattle.rb_import_json.specs.FieldErrors.{Reads};
ghost use Rattle.rb_import_json.specs.Fields.{object_view};
ghost use Rattle.rb_import_answers.specs.Numbers.{in_script, script_number, sequence_number, sequence_of};

use rb_import_json::{FieldError, FieldErrorName, Key, Object};

/// The largest number that a script takes: 2^63 - 1.
const MAX_NUMBER: u64 = i64::MAX as u64;

/// The number, if a script takes it.
#[tactic(auto, unfolding(crate::specs::Numbers::in_script))]
pub fn in_script(number: u64) -> Option<u64>
    ensures { result ≡ in_script number }
{
    if number <= MAX_NUMBER {
        Some(number)
    } else {
        None
    }
}

/// The number, if it is a packet's sequence (ICS 4) that a script takes: 1 to 2^63 - 1.
#[tactic(auto, unfolding(crate::specs::Numbers::sequence_of))]
pub fn sequence_of(number: u64) -> Option<u64>
    ensures value { result ≡ sequence_of number }
    ensures range { IfSome result (λ n. (1 ≤ n) × (n < 2 ^ 63)) }
{
    if 1 <= number && number <= MAX_NUMBER {
        Some(number)
    } else {
        None
    }
}

/// The number that a field holds, else `BadNumber`, as where a script doesn't take it.
#[tactic(auto, using(rb_import_json::proofs::Steps::steps), unfolding(crate::specs::Numbers::script_number))]
pub fn script_number(object: &Object<'_>, key: Key) -> Result<u64, FieldError>
    ensures { Reads (λ n. n) result (script_number key (object_view object.now)) }
{
    match in_script(object.number(key)?) {
        Some(number) => Ok(number),
        None => Err(object.flaw(key, FieldErrorName::BadNumber)),
    }
}

/// The sequence that a field holds, else `BadNumber`.
#[tactic(auto, using(rb_import_json::proofs::Steps::steps), unfolding(crate::specs::Numbers::sequence_number))]
pub fn sequence_number(object: &Object<'_>, key: Key) -> Result<u64, FieldError>
    ensures { Reads (λ n. n) result (sequence_number key (object_view object.now)) }
{
    match sequence_of(object.number(key)?) {
        Some(number) => Ok(number),
        None => Err(object.flaw(key, FieldErrorName::BadNumber)),
    }
}
