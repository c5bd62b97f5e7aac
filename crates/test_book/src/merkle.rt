use crate::same::assert_same;
use rb_merkle::root;
use sha2::{Digest, Sha256};
use std::alloc::{AllocError, Global};
use std::process::Abort;
use std::test::Fail;

/// The leaves of Certificate Transparency's reference tree.
const LEAVES: &[&[u8]] = &[
    &[],
    &[0x00],
    &[0x10],
    &[0x20, 0x21],
    &[0x30, 0x31],
    &[0x40, 0x41, 0x42, 0x43],
    &[0x50, 0x51, 0x52, 0x53, 0x54, 0x55, 0x56, 0x57],
    &[
        0x60, 0x61, 0x62, 0x63, 0x64, 0x65, 0x66, 0x67, 0x68, 0x69, 0x6a, 0x6b, 0x6c, 0x6d, 0x6e,
        0x6f,
    ],
];

/// The roots of its first 0 to 8 leaves, of which the first two are the hashes of no item and of
/// one empty item.
const ROOTS: &[&str] = &[
    "e3b0c44298fc1c149afbf4c8996fb92427ae41e4649b934ca495991b7852b855",
    "6e340b9cffb37a989ca544e6bb780a2c78901d3fb33738768511a30617afa01d",
    "fac54203e7cc696cf0dfcb42c92a1d9dbaf70ad9e621f4bd8d98662f00e3c125",
    "aeb6bcfe274b70a14fb067a5e5578264db0fa9b51af5e0ba159158f329e06e77",
    "d37ee418976dd95753c1c73862b9398fa2a2cf9b4ff0fdfe8b30cd95209614b7",
    "4e3bbb1f7b478dcfe71fb631631519a3bca12c9aefca1612bfce4c13a86264d4",
    "76e67dadbcdf1e10e1b74ddc608abd2f98dfb16fbce75277b5232a127f2087ef",
    "ddb89be403809e325750d3d263cd78929c2942b7942a34b77e122c9594a74c8c",
    "5dc9da79a70659a9ad559cb701ded9a2ab9d823aad2f4960cfe370eff4604328",
];

/// Bytes in hexadecimal.
pub fn to_hex(alloc: Global, bytes: &[u8]) -> Result<String, AllocError> {
    let mut text = String::new(alloc);
    for byte in bytes {
        text.push_str(format!(in alloc; "{byte:02x}")?.as_str())?;
    }
    Ok(text)
}

/// The node over two roots, by SHA-256 alone.
fn node(left: &[u8; 32], right: &[u8; 32]) -> [u8; 32] {
    let mut bytes = [1; 65];
    bytes[1..33].copy_from_slice(left.as_slice());
    bytes[33..].copy_from_slice(right.as_slice());
    Sha256::digest(bytes.as_slice())
}

/// The root of so many leaves.
fn check_root(
    rt: &impl Abort,
    alloc: Global,
    count: usize,
    leaves: &[&[u8]],
    wanted: &str,
) -> Result<(), AllocError> {
    let text = to_hex(alloc, root(leaves).as_slice())?;
    assert_same(rt, &count, text.as_str(), wanted);
    Ok(())
}

/// The root of more than four leaves is the node over the first four and the rest.
fn check_halves(rt: &impl Abort, leaves: &[&[u8]]) {
    if leaves.len() > 4 {
        let halves = node(&root(&leaves[..4]), &root(&leaves[4..]));
        assert_same(rt, &leaves.len(), root(leaves), halves);
    }
}

/// The reference tree's roots; five to eight items are the node over the first four and the rest.
#[test]
fn roots_of_the_reference_tree(rt: HostRuntime) -> Result<(), Fail> {
    for (count, wanted) in ROOTS.iter().enumerate() {
        let leaves = LEAVES.get(..count).ok_or("leaves")?;
        check_root(&rt, rt.alloc(), count, leaves, wanted)?;
        check_halves(&rt, leaves);
    }
    Ok(())
}
