//! Equality of hashes, by words of eight bytes.
ghost use Rattle.std.specs.Prelude.{◌≡◌, ◌+◌, ◌≤◌};
ghost use Rattle.std.specs.Str.{bytes_eq};
ghost use Rattle.rb_book.specs.Words.{word_at};

/// The eight bytes from a place on, as a number.
fn word(hash: &[u8; 32], place: usize) -> u64
    requires { place + 8 ≤ 32 }
    ensures { result ≡ word_at hash.now place }
{
    u64::from_le_bytes([
        hash[place],
        hash[place + 1],
        hash[place + 2],
        hash[place + 3],
        hash[place + 4],
        hash[place + 5],
        hash[place + 6],
        hash[place + 7],
    ])
}

/// Whether two hashes are equal.
pub(crate) fn same_hash(hash: &[u8; 32], other: &[u8; 32]) -> bool
    ensures { result ≡ bytes_eq hash.now other.now }
{
    let first = word(hash, 0) == word(other, 0);
    let second = word(hash, 8) == word(other, 8);
    let third = word(hash, 16) == word(other, 16);
    let last = word(hash, 24) == word(other, 24);
    first & second & third & last
}
