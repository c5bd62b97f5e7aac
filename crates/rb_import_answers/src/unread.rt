//! What is wrong with bytes that are no JSON.
ghost use Rattle.std.specs.Prelude.{◌≡◌, Some, None};
ghost use Rattle.rb_import_answers.specs.Unread.{first_of, is_cut, is_gzip, last_of, unread};

use rb_import_json::FieldErrorName;

/// What is wrong with bytes that are no JSON, as they begin and end.
#[tactic(auto, unfolding(crate::specs::Unread::unread))]
pub(crate) fn unread(bytes: &[u8]) -> FieldErrorName
    ensures { result ≡ unread bytes.now }
{
    match first_of(bytes) {
        None => FieldErrorName::Empty,
        Some(b'<') => FieldErrorName::ErrorPage,
        Some(b'{') if is_cut(bytes) => FieldErrorName::CutShort,
        _ if is_gzip(bytes) => FieldErrorName::Compressed,
        _ => FieldErrorName::NotJson,
    }
}

/// The first byte that isn't white space.
fn first_of(bytes: &[u8]) -> Option<u8>
    ensures { result ≡ first_of bytes.now }
{
    for byte in bytes {
        if !byte.is_ascii_whitespace() {
            return Some(*byte);
        }
    }
    None
}

/// Whether the last byte that isn't white space doesn't end an object.
fn is_cut(bytes: &[u8]) -> bool
    ensures { result ≡ is_cut bytes.now }
{
    last_of(bytes) != Some(b'}')
}

/// The last byte that isn't white space.
fn last_of(bytes: &[u8]) -> Option<u8>
    ensures { result ≡ last_of None bytes.now }
{
    let mut last = None;
    for byte in bytes {
        if !byte.is_ascii_whitespace() {
            last = Some(*byte);
        }
    }
    last
}

/// Whether bytes begin as gzip does.
fn is_gzip(bytes: &[u8]) -> bool
    ensures { result ≡ is_gzip bytes.now }
{
    match bytes {
        [0x1f, 0x8b, ..] => true,
        _ => false,
    }
}
