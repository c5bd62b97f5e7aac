//! Steps as text.
use rb_base::Window;
use rb_explain::{Charges, Power, PricedList, StepExplanation};
use rb_plan_types::Update;
use rb_script_text::{push_instant, push_moment};
use rb_step::{Reason, Verdict};
use std::alloc::AllocError;

/// Adds heights as a chain: each update from the one before, and where it trusts another height, from that.
pub(crate) fn push_route(text: &mut String, updates: &[Update]) -> Result<(), AllocError> {
    let mut before = None;
    for update in updates {
        let trusted = update.trusted();
        let height = update.height();
        if before == Some(trusted) {
            write!(text, " -> {height}")?;
        } else {
            let comma = if before.is_none() { "" } else { ", " };
            write!(text, "{comma}{trusted} -> {height}")?;
        }
        before = Some(height);
    }
    Ok(())
}

/// The name of an answer: that of its reason, `NotEnoughTrust` or `Success`.
pub fn answer_name(answer: Verdict) -> &'static str {
    match answer {
        Verdict::Success => "Success",
        Verdict::NotEnoughTrust { .. } => "NotEnoughTrust",
        Verdict::Invalid(reason) => reason.name(),
    }
}

/// Adds a number of things, which are called this where there is one.
pub fn push_count(text: &mut String, count: usize, thing: &str) -> Result<(), AllocError> {
    let plural = if count == 1 { "" } else { "s" };
    write!(text, "{count} {thing}{plural}")
}

/// Adds how many updates a list has, and their fees in all, or what is said where there is none.
pub(crate) fn push_price(
    text: &mut String,
    what: &str,
    list: &Option<PricedList>,
    otherwise: &str,
) -> Result<(), AllocError> {
    match list {
        Some(list) => write!(text, "{what}: {}, fee {}", list.updates.len(), list.fee),
        None => write!(text, "{what}: {otherwise}"),
    }
}

/// Adds what a step costs, and of what: a base, and so much for each vote and each validator.
pub(crate) fn push_fee(
    text: &mut String,
    charges: &Charges,
    step: &StepExplanation,
) -> Result<(), AllocError> {
    write!(text, "{} = {} + ", step.fee, charges.base)?;
    push_count(text, step.votes, "vote")?;
    write!(text, " x {} + ", charges.signature)?;
    push_count(text, step.validators, "validator")?;
    write!(text, " x {}", charges.validator)
}

/// Adds the powers that an accepted step goes by.
pub(crate) fn push_powers(text: &mut String, step: &StepExplanation) -> Result<(), AllocError> {
    let trusted = step.trusted;
    let height = step.height;
    if trusted.get().saturating_add(1) == height.get() {
        write!(text, "adjacent: the set that {trusted} names; own set: ")?;
    } else if let Some(power) = &step.trusted_power {
        write!(text, "set that {trusted} names: ")?;
        push_power(text, power)?;
        text.push_str("; own set: ")?;
    }
    push_power(text, &step.own_power)
}

fn push_power(text: &mut String, power: &Power) -> Result<(), AllocError> {
    write!(
        text,
        "{} of {} signed, more than {} is needed",
        power.signed, power.total, power.threshold
    )
}

/// Adds how much power is missing.
fn push_short(text: &mut String, power: &Power) -> Result<(), AllocError> {
    let short = power
        .threshold
        .saturating_add(1)
        .saturating_sub(power.signed);
    write!(text, " ({short} short)")
}

/// Adds what the client answers to a step in a window.
pub(crate) fn push_answer(
    text: &mut String,
    window: &Window,
    step: &StepExplanation,
) -> Result<(), AllocError> {
    match step.answer {
        Verdict::Success => {
            write!(text, "accepted, fee {}: ", step.fee)?;
            push_powers(text, step)
        }
        Verdict::NotEnoughTrust { .. } => push_too_little(text, step),
        Verdict::Invalid(reason) => {
            write!(text, "refused, {}: ", reason.name())?;
            push_reason(text, window, step, reason)
        }
    }
}

fn push_too_little(text: &mut String, step: &StepExplanation) -> Result<(), AllocError> {
    let trusted = step.trusted;
    write!(text, "refused, NotEnoughTrust: set that {trusted} names: ")?;
    match &step.trusted_power {
        Some(power) => {
            push_power(text, power)?;
            push_short(text, power)
        }
        None => Ok(()),
    }
}

fn push_expired(
    text: &mut String,
    window: &Window,
    step: &StepExplanation,
) -> Result<(), AllocError> {
    let trusted = step.trusted;
    write!(text, "the consensus state of {trusted} has expired since ")?;
    push_instant(text, step.expiry)?;
    if step.expiry > window.from().nanoseconds() {
        text.push_str(", within the window")?;
    }
    Ok(())
}

fn push_ahead(text: &mut String, step: &StepExplanation) -> Result<(), AllocError> {
    write!(text, "the time of {}, ", step.height)?;
    push_moment(text, step.time)?;
    text.push_str(", is ahead of the window's first moment by the clock drift or more")
}

/// Adds how much power of the own set is missing.
fn push_own_short(text: &mut String, step: &StepExplanation) -> Result<(), AllocError> {
    text.push_str("own set: ")?;
    push_power(text, &step.own_power)?;
    push_short(text, &step.own_power)
}

fn push_reason(
    text: &mut String,
    window: &Window,
    step: &StepExplanation,
    reason: Reason,
) -> Result<(), AllocError> {
    let trusted = step.trusted;
    let height = step.height;
    match reason {
        Reason::HeightOrder => write!(text, "{height} isn't higher than {trusted}"),
        Reason::Expired => push_expired(text, window, step),
        Reason::TimeNotLater => {
            write!(
                text,
                "the time of {height} isn't later than that of {trusted}"
            )
        }
        Reason::FromFuture => push_ahead(text, step),
        Reason::TrustedSetUnknown => {
            write!(text, "the light store hasn't the set that {trusted} names")
        }
        Reason::WrongNextSet => {
            write!(
                text,
                "the set of {height} isn't the one that {trusted} names"
            )
        }
        Reason::NotTwoThirds => push_own_short(text, step),
    }
}
