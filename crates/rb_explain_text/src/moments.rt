//! Moments by their time of day.
use rb_base::Window;
use rb_script_text::{SECOND, push_instant};
use std::alloc::AllocError;

const MINUTE: u128 = 60 * SECOND;

const HOUR: u128 = 60 * MINUTE;

const DAY: u128 = 24 * HOUR;

/// Adds a moment, in nanoseconds since 1970, by its time of day alone where it is a whole second of the day of another moment.
pub fn push_time(text: &mut String, nanoseconds: u128, beside: u128) -> Result<(), AllocError> {
    if nanoseconds / DAY != beside / DAY || nanoseconds % SECOND != 0 {
        return push_instant(text, nanoseconds);
    }
    let hours = nanoseconds % DAY / HOUR;
    let minutes = nanoseconds % HOUR / MINUTE;
    let seconds = nanoseconds % MINUTE / SECOND;
    write!(text, "{hours:02}:{minutes:02}:{seconds:02}Z")
}

/// Adds a window: its beginning, and its end by its time of day.
pub(crate) fn push_window(text: &mut String, window: &Window) -> Result<(), AllocError> {
    let from = window.from().nanoseconds();
    text.push_str("window: ")?;
    push_instant(text, from)?;
    text.push_str(" to ")?;
    push_time(text, window.until().nanoseconds(), from)
}
