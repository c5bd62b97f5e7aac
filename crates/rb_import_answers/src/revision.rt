//! The revision number in the identifier of a chain.
ghost use Rattle.std.specs.Prelude.{◌≡◌, ◌↔◌, IsTrue, SomeIff, option_map};
ghost use Rattle.std.specs.Str.Parse.{digits_value};
ghost use Rattle.rb_import_answers.specs.Revisions.{IsName, IsNumber, IsRevision, at_last_dash};

/// The revision number of a chain (ICS 2, as ibc-go reads it): the number after the identifier's
/// last dash, which has no leading zero and follows a character that is no dash; else 0.
pub fn revision_of(chain: &str) -> u64
    ensures revision { IsRevision chain.now result }
{
    match around_last_dash(chain) {
        Some((name, digits)) => number_of(name, digits).unwrap_or(0),
        None => 0,
    }
}

/// What stands before the last dash, and after it.
fn around_last_dash(chain: &str) -> Option<(&str, &str)>
    ensures { option_map (λ p. (p.0.now, p.1.now)) result ≡ at_last_dash chain.now }
{
    chain.rsplit_once('-')
}

/// The number of these digits, where they follow a name.
fn number_of(name: &str, digits: &str) -> Option<u64>
    ensures { SomeIff result (IsName name.now × IsNumber digits.now) (digits_value 10 digits.now) }
{
    if !is_name(name) {
        return None;
    }
    match digits.as_bytes() {
        [b'1'..=b'9', ..] => digits.parse::<u64>().ok(),
        _ => None,
    }
}

/// Whether a text isn't empty and doesn't end with a dash.
fn is_name(text: &str) -> bool
    ensures { IsTrue result ↔ IsName text.now }
{
    match text.as_bytes() {
        [.., last] => *last != b'-',
        [] => false,
    }
}
