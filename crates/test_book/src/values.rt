use rb_base::{Height, Moment, Options, Period};
use rb_valset::{PublicKey, Validator, ValidatorSet};
use std::alloc::Allocator;
use std::test::Fail;

/// Members as the byte that their key repeats and their power.
pub type Members = &'static [(u8, u64)];

pub fn height(number: u64) -> Result<Height, Fail> {
    Ok(Height::new(number).ok_or("height")?)
}

pub fn nanosecond(number: u128) -> Result<Moment, Fail> {
    Ok(Moment::new(number).ok_or("moment")?)
}

pub fn second(number: u64) -> Result<Moment, Fail> {
    nanosecond(u128::from(number) * 1_000_000_000)
}

/// A period of 1,000 s, a drift of 10 s and a trust of 1/3.
pub fn options() -> Result<Options, Fail> {
    let period = Period::new(1_000_000_000_000).ok_or("period")?;
    Ok(Options::new(period, 10_000_000_000))
}

/// The set of the named members, and of so many others of power 1.
pub fn make_set_with<A: Allocator + Copy>(
    alloc: A,
    named: &[(u8, u64)],
    others: u8,
) -> Result<ValidatorSet<A>, Fail> {
    let mut validators = Vec::new(alloc);
    for (byte, power) in named {
        validators.push(Validator::new(PublicKey::Ed25519([*byte; 32]), *power)?)?;
    }
    for byte in 0..others {
        let mut key = [0x77; 32];
        key[0] = byte;
        validators.push(Validator::new(PublicKey::Ed25519(key), 1)?)?;
    }
    Ok(ValidatorSet::new(alloc, validators)?)
}

/// The set of these members.
pub fn make_set<A: Allocator + Copy>(
    alloc: A,
    members: &[(u8, u64)],
) -> Result<ValidatorSet<A>, Fail> {
    make_set_with(alloc, members, 0)
}

pub fn make_heights<A: Allocator + Copy>(
    alloc: A,
    numbers: &[u64],
) -> Result<Vec<Height, A>, Fail> {
    let mut heights = Vec::new(alloc);
    for number in numbers {
        heights.push(height(*number)?)?;
    }
    Ok(heights)
}
