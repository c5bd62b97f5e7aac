//! What goes from a book with what is below a height.
ghost use Rattle.std.specs.Prelude.{◌≡◌, not, filter};
ghost use Rattle.rb_valset.specs.ValidatorSet.{set_hash};
ghost use Rattle.rb_book.specs.Rest as rests;

use crate::hashes::same_hash;
use crate::header::Header;
use crate::record::RecordAt;
use rb_base::Height;
use rb_valset::ValidatorSet;
use std::alloc::Allocator;

/// Whether a record is at a height or above it.
pub(crate) fn is_from(below: Height, known: &RecordAt) -> bool
    ensures { result ≡ rests.is_from below known.now }
{
    below <= known.height()
}

/// Whether a header is at a height or above it.
pub(crate) fn header_is_from<A: Allocator>(below: Height, header: &Header<A>) -> bool
    ensures { result ≡ rests.header_is_from below header.now }
{
    below <= header.height()
}

/// Whether a record at the height or above it names the hash.
fn is_in_record_from(below: Height, records: &[RecordAt], hash: &[u8; 32]) -> bool
    ensures { result ≡ rests.is_in_records (filter (rests.is_from below) records.now) hash.now }
{
    records
        .iter()
        .filter(|known| is_from(below, known))
        .any(|known| same_hash(known.record().next(), hash))
}

/// Whether a header at the height or above it names the hash.
fn is_in_header_from<A: Allocator>(below: Height, headers: &[Header<A>], hash: &[u8; 32]) -> bool
    ensures { result ≡ rests.is_in_headers (filter (rests.header_is_from below) headers.now) hash.now }
{
    headers
        .iter()
        .filter(|header| header_is_from(below, header))
        .any(|header| same_hash(header.set_hash(), hash))
}

/// Whether a record below the height names the hash.
fn is_in_record_below(below: Height, records: &[RecordAt], hash: &[u8; 32]) -> bool
    ensures { result ≡ rests.is_in_records (filter (λ k. not (rests.is_from below k)) records.now) hash.now }
{
    records
        .iter()
        .filter(|known| !is_from(below, known))
        .any(|known| same_hash(known.record().next(), hash))
}

/// Whether a header below the height names the hash.
fn is_in_header_below<A: Allocator>(below: Height, headers: &[Header<A>], hash: &[u8; 32]) -> bool
    ensures { result ≡ rests.is_in_headers (filter (λ h. not (rests.header_is_from below h)) headers.now) hash.now }
{
    headers
        .iter()
        .filter(|header| !header_is_from(below, header))
        .any(|header| same_hash(header.set_hash(), hash))
}

/// Whether a record that is at the height or above it names the hash, or a header does.
fn is_named_from<A: Allocator>(
    below: Height,
    records: &[RecordAt],
    headers: &[Header<A>],
    hash: &[u8; 32],
) -> bool
    ensures { result ≡ rests.is_named_from below records.now headers.now hash.now }
{
    is_in_record_from(below, records, hash) || is_in_header_from(below, headers, hash)
}

/// Whether a record that is below the height names the hash, or a header does.
fn is_named_below<A: Allocator>(
    below: Height,
    records: &[RecordAt],
    headers: &[Header<A>],
    hash: &[u8; 32],
) -> bool
    ensures { result ≡ rests.is_named_below below records.now headers.now hash.now }
{
    is_in_record_below(below, records, hash) || is_in_header_below(below, headers, hash)
}

/// Whether a set stays: something that stays names it, or nothing that goes does.
pub(crate) fn is_left<A: Allocator>(
    below: Height,
    records: &[RecordAt],
    headers: &[Header<A>],
    set: &ValidatorSet<A>,
) -> bool
    ensures { result ≡ rests.is_left below records.now headers.now set.now }
{
    is_named_from(below, records, headers, set.hash())
        || !is_named_below(below, records, headers, set.hash())
}
