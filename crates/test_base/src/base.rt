use crate::same::assert_same;
use rb_base::{ChainId, ClientId, PathId};
use std::alloc::Global;
use std::process::Abort;
use std::test::Fail;

/// Identifiers; the last has 64 characters.
const IDENTIFIERS: &[&str] = &[
    "c0",
    "07-tendermint-0",
    "a.b_c+d-e#f[g]<h>",
    "0123456789abcdef0123456789abcdef0123456789abcdef0123456789abcdef",
];

/// Texts that are none; the last has 65 characters.
const NO_IDENTIFIERS: &[&str] = &[
    "",
    "a b",
    "a/b",
    "é",
    "0123456789abcdef0123456789abcdef0123456789abcdef0123456789abcdef0",
];

/// The identifiers of a chain and of a path with this text are written so.
fn check_others(rt: &impl Abort, text: &str) -> Result<(), Fail> {
    let chain = ChainId::new(text).ok_or("chain")?;
    assert_same(rt, &text, chain.as_str(), text);
    let path = PathId::new(text).ok_or("path")?;
    assert_same(rt, &text, path.as_str(), text);
    Ok(())
}

/// A client's identifier is printed as its text.
fn check_printed(rt: &impl Abort, alloc: Global, text: &str) -> Result<(), Fail> {
    let id = ClientId::new(text).ok_or("client")?;
    let printed = format!(in alloc; "{id}")?;
    assert_same(rt, &text, printed.as_str(), text);
    Ok(())
}

fn check_identifier(rt: &impl Abort, alloc: Global, text: &str) -> Result<(), Fail> {
    check_printed(rt, alloc, text)?;
    check_others(rt, text)
}

#[test]
fn knows_identifiers(rt: HostRuntime) -> Result<(), Fail> {
    for text in IDENTIFIERS {
        check_identifier(&rt, rt.alloc(), text)?;
    }
    for text in NO_IDENTIFIERS {
        assert_same(&rt, text, ClientId::new(text).is_none(), true);
    }
    Ok(())
}
