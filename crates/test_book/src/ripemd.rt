use crate::merkle::to_hex;
use crate::same::assert_same;
use std::alloc::{AllocError, Global};
use std::process::Abort;
use std::test::Fail;

/// The messages that the authors of RIPEMD-160 publish with their digests, but for two long ones.
const MESSAGES: &[(&str, &str)] = &[
    ("", "9c1185a5c5e9fc54612808977ee8f548b2258d31"),
    ("a", "0bdc9d2d256b3ee9daae347be6f4dc835a467ffe"),
    ("abc", "8eb208f7e05d987a9b044a8e98c6b087f15a0bfc"),
    ("message digest", "5d0689ef49d2fae572b881b123a85ffa21595f36"),
    (
        "abcdefghijklmnopqrstuvwxyz",
        "f71c27109c692c1b56bbdceb5b9d2865b3708dbc",
    ),
    (
        "abcdbcdecdefdefgefghfghighijhijkijkljklmklmnlmnomnopnopq",
        "12a053384a9c0c88e405a06c27dcf49ada62eb2b",
    ),
    (
        "ABCDEFGHIJKLMNOPQRSTUVWXYZabcdefghijklmnopqrstuvwxyz0123456789",
        "b0e20b6e3116640286ed3a87a5713079b21f5189",
    ),
];

/// Texts that are repeated so often, with the digests of the two long messages.
const REPEATED: &[(&str, usize, &str)] = &[
    ("1234567890", 8, "9b752e45573d4b39f4dbd3323cab82bf63326bfb"),
    ("a", 1_000_000, "52783243c1697bdbe16d37f97f68f08325dc1528"),
];

fn check_digest(
    rt: &impl Abort,
    alloc: Global,
    message: &[u8],
    wanted: &str,
) -> Result<(), AllocError> {
    let digest = to_hex(alloc, rb_valset::ripemd160(message).as_slice())?;
    assert_same(rt, &message.len(), digest.as_str(), wanted);
    Ok(())
}

#[test]
fn published_digests(rt: HostRuntime) -> Result<(), Fail> {
    for (message, digest) in MESSAGES {
        check_digest(&rt, rt.alloc(), message.as_bytes(), digest)?;
    }
    for (text, count, digest) in REPEATED {
        let message = text.repeat(rt.alloc(), *count)?;
        check_digest(&rt, rt.alloc(), message.as_bytes(), digest)?;
    }
    Ok(())
}
