//! Fields of protocol buffers.
ghost use Rattle.std.specs.Prelude.{◌≡◌, ◌<◌, ◌^◌, ◌++◌, length, OnOk, IfOk};
ghost use Rattle.rb_import_answers.specs.Encoding.{varint, number_field, counted, bytes_field};

use std::alloc::{AllocError, Global};

/// Adds a number as a base-128 varint.
pub fn push_varint(out: &mut Vec<u8>, number: u64) -> Result<(), AllocError>
    ensures { OnOk result (out.new.items ≡ out.old.items ++ varint number) }
{
    let mut rest = number;
    while rest >= 128 {
        out.push((rest % 128 + 128) as u8)?;
        rest /= 128;
    }
    out.push(rest as u8)?;
    Ok(())
}

/// Adds the field of a number, which is left out where it is 0.
#[tactic(auto, unfolding(crate::specs::Encoding::number_field))]
pub fn push_number(out: &mut Vec<u8>, tag: u8, number: u64) -> Result<(), AllocError>
    ensures { OnOk result (out.new.items ≡ out.old.items ++ number_field tag number) }
{
    if number == 0 {
        return Ok(());
    }
    out.push(tag)?;
    push_varint(out, number)
}

/// Adds bytes behind their count.
#[tactic(auto, unfolding(crate::specs::Encoding::counted))]
pub fn push_counted(out: &mut Vec<u8>, tag: u8, bytes: &[u8]) -> Result<(), AllocError>
    ensures { OnOk result (out.new.items ≡ out.old.items ++ counted tag bytes.now) }
{
    out.push(tag)?;
    push_varint(out, bytes.len() as u64)?;
    out.extend_from_slice(bytes)?;
    Ok(())
}

/// Adds the field of bytes, which is left out where there are none.
#[tactic(auto, unfolding(crate::specs::Encoding::bytes_field))]
pub fn push_bytes(out: &mut Vec<u8>, tag: u8, bytes: &[u8]) -> Result<(), AllocError>
    ensures { OnOk result (out.new.items ≡ out.old.items ++ bytes_field tag bytes.now) }
{
    if bytes.is_empty() {
        return Ok(());
    }
    push_counted(out, tag, bytes)
}

/// The buffer of these bytes alone.
pub fn bytes_alone(alloc: Global, bytes: &[u8]) -> Result<Vec<u8>, AllocError>
    ensures { IfOk result (λ out. out.items ≡ bytes_field 0x0a bytes.now) }
{
    let mut out = Vec::new(alloc);
    push_bytes(&mut out, 0x0a, bytes)?;
    Ok(out)
}

/// The buffer of two numbers.
pub fn two_numbers(alloc: Global, first: u64, second: u64) -> Result<Vec<u8>, AllocError>
    ensures { IfOk result (λ out. out.items ≡ number_field 0x08 first ++ number_field 0x10 second) }
{
    let mut out = Vec::new(alloc);
    push_number(&mut out, 0x08, first)?;
    push_number(&mut out, 0x10, second)?;
    Ok(out)
}
