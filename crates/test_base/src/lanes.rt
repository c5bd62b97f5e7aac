use crate::same::assert_same;
use rb_lanes::{Columns, LanesError, MAX_TOTAL, Plane, Powers, masked_sum, plain_sum};
use std::alloc::{AllocError, Global};
use std::process::Abort;
use std::test::Fail;

/// One more column, of the power or what is left of the greatest total.
fn push(powers: &mut Powers, power: u64) -> Result<(), AllocError> {
    let total: u64 = powers.as_slice().iter().sum();
    powers.push(power.min(MAX_TOTAL - total))
}

/// The powers 1 to `count`, by column.
fn make_powers(alloc: Global, count: usize) -> Result<Powers, AllocError> {
    let mut powers = Powers::zeros(alloc, 0)?;
    for column in 0..count {
        push(&mut powers, column as u64 + 1)?;
    }
    Ok(powers)
}

/// A plane of so many columns, of which each is set whose number `step` divides.
fn make_plane(alloc: Global, columns: usize, step: usize) -> Result<Plane, AllocError> {
    let mut plane = Plane::new(alloc, columns.min(65_536))?;
    for column in 0..columns {
        if column < plane.len() && step != 0 && column % step == 0 {
            plane.set(column);
        }
    }
    Ok(plane)
}

fn check_sums(rt: &impl Abort, row: usize, powers: &Powers, plane: &Plane, wanted: u64) {
    assert_same(rt, &row, masked_sum(powers, plane), wanted);
    assert_same(rt, &row, plain_sum(powers, plane), wanted);
}

/// The powers' number, the plane's, and each how manieth of its columns is set; the sum.
const ROWS: &[(usize, usize, usize, u64)] = &[
    (17, 17, 2, 81),
    (40, 8, 1, 36),
    (8, 40, 1, 36),
    (40, 7, 1, 28),
    (15, 40, 1, 120),
    (9, 9, 8, 10),
    (40, 40, 3, 287),
    (40, 40, 0, 0),
    (0, 40, 1, 0),
    (40, 0, 1, 0),
];

fn check_row(
    rt: &impl Abort,
    alloc: Global,
    row: usize,
    (count, columns, step, wanted): (usize, usize, usize, u64),
) -> Result<(), Fail> {
    let powers = make_powers(alloc, count)?;
    let plane = make_plane(alloc, columns, step)?;
    check_sums(rt, row, &powers, &plane, wanted);
    Ok(())
}

#[test]
fn sums_the_powers_whose_bit_is_set(rt: HostRuntime) -> Result<(), Fail> {
    for (row, case) in ROWS.iter().enumerate() {
        check_row(&rt, rt.alloc(), row, *case)?;
    }
    for count in 0..=40 {
        let sum = count as u64 * (count as u64 + 1) / 2;
        check_row(&rt, rt.alloc(), count, (count, count, 1, sum))?;
    }
    Ok(())
}

/// The sum over a plane of one column, which is set or isn't.
fn check_one(
    rt: &impl Abort,
    alloc: Global,
    powers: &Powers,
    step: usize,
    wanted: u64,
) -> Result<(), AllocError> {
    check_sums(rt, step, powers, &make_plane(alloc, 1, step)?, wanted);
    Ok(())
}

fn check_greatest(rt: &impl Abort, alloc: Global, powers: &mut Powers) -> Result<(), AllocError> {
    push(powers, MAX_TOTAL)?;
    check_one(rt, alloc, powers, 1, 1_152_921_504_606_846_975)?;
    check_one(rt, alloc, powers, 0, 0)
}

/// The greatest power in one column, whose bit is set, or isn't.
#[test]
fn sums_the_greatest_power(rt: HostRuntime) -> Result<(), Fail> {
    let mut powers = Powers::zeros(rt.alloc(), 0)?;
    Ok(check_greatest(&rt, rt.alloc(), &mut powers)?)
}

/// The address that begins with a number, the lowest byte first.
fn address(number: u32) -> [u8; 20] {
    let mut bytes = [0; 20];
    bytes[..4].copy_from_slice(number.to_le_bytes().as_slice());
    bytes
}

fn check_address(
    rt: &impl Abort,
    columns: &mut Columns,
    number: u32,
    wanted: Result<u32, LanesError>,
) {
    assert_same(rt, &number, columns.intern(&address(number)), wanted);
}

/// As many addresses as there are columns, and then one more.
#[test]
fn numbers_addresses_until_all_columns_are_taken(rt: HostRuntime) -> Result<(), Fail> {
    let mut columns = Columns::new(rt.alloc());
    for number in 0..65_536 {
        check_address(&rt, &mut columns, number, Ok(number));
    }
    check_address(&rt, &mut columns, 65_536, Err(LanesError::ColumnsFull));
    check_address(&rt, &mut columns, 7, Ok(7));
    assert_same(&rt, "columns", columns.len(), 65_536);
    Ok(())
}

/// Refusals, and what is printed of them.
const REFUSALS: &[(LanesError, &str)] = &[
    (LanesError::ColumnsFull, "301 ColumnsFull"),
    (LanesError::NoMemory, "NoMemory"),
];

fn check_refusal(
    rt: &impl Abort,
    alloc: Global,
    error: LanesError,
    text: &str,
) -> Result<(), AllocError> {
    let printed = format!(in alloc; "{error}")?;
    assert_same(rt, &text, printed.as_str(), text);
    Ok(())
}

#[test]
fn prints_its_refusals(rt: HostRuntime) -> Result<(), Fail> {
    for (error, text) in REFUSALS {
        check_refusal(&rt, rt.alloc(), *error, text)?;
    }
    Ok(())
}
