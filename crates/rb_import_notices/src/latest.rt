//! Notices of clients whose latest height isn't among their records.
ghost use Rattle.std.specs.Prelude.{◌≡◌};
ghost use Rattle.rb_import_notices.specs.Latest.{lacks_record, missing_latest};

use crate::notice::Notice;
use rb_import_check::Stored;
use rb_import_merge::SeenSetup;

/// The client at a place, where its latest height isn't among its records.
pub fn missing_latest(seen: &SeenSetup<'_>, client: usize) -> Option<Notice>
    ensures { result ≡ missing_latest seen.now client }
{
    let told = seen.clients.get(client)?;
    let height = told.latest?;
    let is_due = lacks_record(told.stored.as_slice(), height);
    is_due.then_some(Notice::MissingLatest { client, height })
}

/// Whether none of these records is of a height.
fn lacks_record(records: &[Stored<'_>], height: u64) -> bool
    ensures { result ≡ lacks_record records.now height }
{
    records
        .iter()
        .all(|record| record.state.height.get() != height)
}
