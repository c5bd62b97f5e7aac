//! The time that a refresh needs.
ghost use Rattle.std.specs.Prelude.{◌≡◌};
ghost use Rattle.rb_plan_types.specs.Refresh.{urgent_age, urgent_gain, is_newer_by_half, is_due, needed_time, refresh_moment};

use crate::terms::Terms;
use rb_base::Moment;

/// From this age on a refresh is urgent: a third of the trusting period is left.
fn urgent_age(terms: Terms) -> u128
    ensures { result ≡ urgent_age terms }
{
    u128::from(terms.period - terms.period / 3)
}

/// An urgent refresh makes the newest stored state newer by more than this.
fn urgent_gain(terms: Terms) -> u128
    ensures { result ≡ urgent_gain terms }
{
    u128::from(terms.refresh.min(terms.period) / 100)
}

/// Whether the client can be brought to a state that is newer by more than half the refresh age.
fn is_newer_by_half(terms: Terms, stored: Moment, reach: Moment) -> bool
    ensures { result ≡ is_newer_by_half terms stored reach }
{
    stored.nanoseconds() + u128::from(terms.refresh / 2) < reach.nanoseconds()
}

/// Whether the newest stored state has the refresh age by the end of the window, and the client can be brought to one that is
/// newer by more than half of it.
fn is_due(terms: Terms, stored: Moment, reach: Moment, until: Moment) -> bool
    ensures { result ≡ is_due terms stored reach until }
{
    let is_old = stored.nanoseconds() + u128::from(terms.refresh) <= until.nanoseconds();
    is_old && is_newer_by_half(terms, stored, reach)
}

/// The time, in nanoseconds since 1970-01-01T00:00:00Z, to which a refresh brings the client: `stored` is that of the
/// newest stored state, `reach` that of the greatest height that the client can be brought to, `until` the end of the
/// window. None where no refresh is needed.
pub fn needed_time(terms: Terms, stored: Moment, reach: Moment, until: Moment) -> Option<u128>
    ensures { result ≡ needed_time terms stored reach until }
{
    let newest = stored.nanoseconds();
    let reached = reach.nanoseconds();
    let refresh = u128::from(terms.refresh);
    if refresh == 0 {
        None
    } else if newest + urgent_age(terms) <= until.nanoseconds() {
        if newest + urgent_gain(terms) < reached {
            Some(reached)
        } else {
            None
        }
    } else if is_due(terms, stored, reach, until) {
        let newer = (newest + refresh).min(reached);
        Some(newer.max(reached.saturating_sub(refresh)))
    } else {
        None
    }
}

/// From which moment on a refresh is needed, by what is in reach now; None where none ever is.
pub fn refresh_moment(terms: Terms, stored: Moment, reach: Moment) -> Option<u128>
    ensures { result ≡ refresh_moment terms stored reach }
{
    let newest = stored.nanoseconds();
    if terms.refresh == 0 {
        None
    } else if is_newer_by_half(terms, stored, reach) {
        Some(newest + u128::from(terms.refresh).min(urgent_age(terms)))
    } else if newest + urgent_gain(terms) < reach.nanoseconds() {
        Some(newest + urgent_age(terms))
    } else {
        None
    }
}
