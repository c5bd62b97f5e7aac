//! Moments as texts: RFC 3339, in UTC.
ghost use Rattle.std.specs.Prelude.{◌≡◌, ◌<◌, ◌++◌, pos, IfNone, IfSome, OnOk, string_bytes};
ghost use Rattle.rb_script_text.specs.Moments.{instant_text, last_moment, moment_text, IsShown, MomentsAreRead};
ghost use Rattle.jiff.specs.Words.{civil_nanos};
ghost use Rattle.rb_base.specs.Amount.{IsMoment};

use jiff::Timestamp;
use jiff::civil::DateTime;
use jiff::tz::Offset;
use rb_base::Moment;
use std::alloc::AllocError;

/// What a clock in UTC shows at a moment.
pub fn clock_at(moment: Moment) -> DateTime
    ensures shows { civil_nanos result ≡ pos moment }
    ensures range { IsMoment moment }
{
    let instant = Timestamp::from_nanosecond(moment.nanoseconds() as i128).unwrap();
    Offset::UTC.to_datetime(instant)
}

/// Adds a moment.
pub fn push_moment(text: &mut String, moment: Moment) -> Result<(), AllocError>
    ensures { OnOk result (string_bytes text.new ≡ string_bytes text.old ++ moment_text moment) }
{
    let clock = clock_at(moment);
    write!(text, "{clock}Z")
}

/// What a clock in UTC shows so many nanoseconds after 1970-01-01T00:00:00Z, up to the year 9999.
fn clock_of(nanoseconds: u128) -> Option<DateTime>
    ensures shows { IfSome result (λ clock. civil_nanos clock ≡ pos nanoseconds) }
    ensures shown { IfSome result (λ clock. IsShown nanoseconds) }
    ensures none { IfNone result (last_moment < nanoseconds) }
{
    let nanoseconds = i128::try_from(nanoseconds).ok()?;
    let instant = Timestamp::from_nanosecond(nanoseconds).ok()?;
    Some(Offset::UTC.to_datetime(instant))
}

/// Adds the moment so many nanoseconds after 1970-01-01T00:00:00Z, or the nanoseconds alone past the year 9999.
pub fn push_instant(text: &mut String, nanoseconds: u128) -> Result<(), AllocError>
    ensures { OnOk result (string_bytes text.new ≡ string_bytes text.old ++ instant_text nanoseconds) }
{
    match clock_of(nanoseconds) {
        Some(clock) => write!(text, "{clock}Z"),
        None => write!(text, "{nanoseconds} ns"),
    }
}

/// A moment's text is read as that moment.
pub fn moments_are_read()
    ensures { MomentsAreRead }
{}
