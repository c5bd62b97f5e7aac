use crate::merkle::to_hex;
use crate::same::assert_same;
use rb_valset::{Known, PublicKey, Validator, ValidatorSet, ValsetError};
use std::alloc::{AllocError, Global};
use std::fmt::Display;
use std::process::Abort;
use std::test::Fail;

const TOP: u64 = Validator::MAX_POWER;

/// The set of the validators with these powers, whose keys are one byte 32 times.
fn make_set(alloc: Global, members: &[(u8, u64)]) -> Result<ValidatorSet, ValsetError> {
    let mut validators = Vec::new(alloc);
    for (byte, power) in members {
        let validator = Validator::new(PublicKey::Ed25519([*byte; 32]), *power)?;
        validators
            .push(validator)
            .map_err(|_| ValsetError::NoMemory)?;
    }
    ValidatorSet::new(alloc, validators)
}

/// A key, its address, and the bytes before the power in its leaf.
type Keyed = (PublicKey, &'static str, &'static str);

/// A key of secp256k1 from CometBFT's tests.
const COMPRESSED: PublicKey = PublicKey::Secp256k1([
    0x02, 0x95, 0x0e, 0x1c, 0xdf, 0xcb, 0x13, 0x3d, 0x60, 0x24, 0x10, 0x9f, 0xd4, 0x89, 0xf7, 0x34,
    0xee, 0xb4, 0x50, 0x24, 0x18, 0xe5, 0x38, 0xc2, 0x84, 0x81, 0xf2, 0x2b, 0xce, 0x27, 0x6f, 0x24,
    0x8c,
]);

/// A key of each kind. The second has the address that CometBFT's tests give it, there in base 58.
const KEYS: &[Keyed] = &[
    (
        PublicKey::Ed25519([0xa1; 32]),
        "52fe6094743bfd4f9be4321d98adc7e23c1ab622",
        "0a220a20a1a1a1a1a1a1a1a1a1a1a1a1a1a1a1a1a1a1a1a1a1a1a1a1a1a1a1a1a1a1a1a1",
    ),
    (
        COMPRESSED,
        "7c2bb42a8be69791ec763e51f5a49bcd41e82237",
        "0a23122102950e1cdfcb133d6024109fd489f734eeb4502418e538c28481f22bce276f248c",
    ),
];

/// The bytes after the key in a leaf, by the power.
const LEAVES: &[(u64, &str)] = &[
    (1, "1001"),
    (10, "100a"),
    (127, "107f"),
    (128, "108001"),
    (300, "10ac02"),
    (16_384, "10808001"),
    (TOP, "10ffffffffffffffff0f"),
];

/// Bytes in hexadecimal are this text.
fn check_hex(rt: &impl Abort, alloc: Global, bytes: &[u8], wanted: &str) -> Result<(), AllocError> {
    let text = to_hex(alloc, bytes)?;
    assert_same(rt, &wanted, text.as_str(), wanted);
    Ok(())
}

fn check_leaf(
    rt: &impl Abort,
    alloc: Global,
    (key, address, frame): &Keyed,
    power: u64,
    tail: &str,
) -> Result<(), Fail> {
    let validator = Validator::new(*key, power)?;
    assert_same(rt, "power", validator.power(), power);
    check_hex(rt, alloc, validator.address(), address)?;
    let leaf = format!(in alloc; "{frame}{tail}")?;
    Ok(check_hex(rt, alloc, validator.leaf().as_slice(), leaf.as_str())?)
}

fn check_leaves(rt: &impl Abort, alloc: Global, keyed: &Keyed) -> Result<(), Fail> {
    for (power, tail) in LEAVES {
        check_leaf(rt, alloc, keyed, *power, tail)?;
    }
    Ok(())
}

#[test]
fn writes_leaves(rt: HostRuntime) -> Result<(), Fail> {
    for keyed in KEYS {
        check_leaves(&rt, rt.alloc(), keyed)?;
    }
    Ok(())
}

/// A set with its total, the keys in set order and the hash.
type Ordered = (&'static [(u8, u64)], u64, &'static [u8], &'static str);

/// The hashes are those of the planner in Python, `tests/reference/reference.py`: its `tree_hash` and `varint` over
/// SHA-256 of Python's hashlib. No part of them was made by this code.
const SETS: &[Ordered] = &[
    (
        &[(0xa1, 10), (0xa2, 10), (0xa3, 30), (0xa4, 10)],
        60,
        &[0xa3, 0xa1, 0xa4, 0xa2],
        "f9669392e0624b4eff200f28daba7f1874d58b2004f5685633caa176b803fedf",
    ),
    (
        &[(1, 1), (2, 2), (3, 3), (4, 4), (5, 5), (6, 6), (7, 7)],
        28,
        &[7, 6, 5, 4, 3, 2, 1],
        "0af09471b037547110fef90f8882681c100f0ea7380ab3689e2f9ccfa2b3d083",
    ),
    (
        &[(1, TOP)],
        TOP,
        &[1],
        "c53f5b6e62c4eb27a306c7df54bea38a36f0e5fafbbe25caa0d8c94b44bb744c",
    ),
];

/// The addresses of no set.
const UNKNOWN: &[[u8; 20]] = &[[0; 20], [0x73; 20], [255; 20]];

/// The set has the member of the key at this place.
fn check_place(
    rt: &impl Abort,
    set: &ValidatorSet,
    place: usize,
    key: PublicKey,
) -> Result<(), Fail> {
    let member = Validator::new(key, 1)?;
    assert_same(rt, &place, set.position(member.address()), Some(place));
    let found = set.find(member.address()).ok_or("absent")?;
    assert_same(rt, &place, found.key(), member.key());
    Ok(())
}

fn check_absent(rt: &impl Abort, set: &ValidatorSet) {
    for unknown in UNKNOWN {
        assert!(rt; set.position(unknown).is_none() && set.find(unknown).is_none());
    }
}

fn check_places(rt: &impl Abort, set: &ValidatorSet, order: &[u8]) -> Result<(), Fail> {
    for (place, byte) in order.iter().enumerate() {
        check_place(rt, set, place, PublicKey::Ed25519([*byte; 32]))?;
    }
    check_absent(rt, set);
    Ok(())
}

fn check_set(
    rt: &impl Abort,
    alloc: Global,
    set: &ValidatorSet,
    (_, total, order, hash): &Ordered,
) -> Result<(), Fail> {
    assert_same(rt, hash, &set.total(), total);
    assert_same(rt, hash, set.size(), order.len());
    check_hex(rt, alloc, set.hash(), hash)?;
    check_places(rt, set, order)
}

/// A set is its copy, and not another one.
fn check_equal(
    rt: &impl Abort,
    set: &ValidatorSet,
    other: &ValidatorSet,
) -> Result<(), AllocError> {
    let copy = set.copy()?;
    assert!(rt; copy == *set && *set != *other);
    Ok(())
}

fn check_both(
    rt: &impl Abort,
    alloc: Global,
    set: &ValidatorSet,
    other: &ValidatorSet,
    wanted: &Ordered,
) -> Result<(), Fail> {
    check_set(rt, alloc, set, wanted)?;
    Ok(check_equal(rt, set, other)?)
}

fn check_ordered(
    rt: &impl Abort,
    alloc: Global,
    other: &ValidatorSet,
    wanted: &Ordered,
) -> Result<(), Fail> {
    let set = make_set(alloc, wanted.0)?;
    check_both(rt, alloc, &set, other, wanted)
}

fn check_all(rt: &impl Abort, alloc: Global, other: &ValidatorSet) -> Result<(), Fail> {
    for wanted in SETS {
        check_ordered(rt, alloc, other, wanted)?;
    }
    Ok(())
}

#[test]
fn orders_and_hashes(rt: HostRuntime) -> Result<(), Fail> {
    check_all(&rt, rt.alloc(), &make_set(rt.alloc(), &[(1, 9)])?)
}

/// Keys of both kinds and their powers, in set order.
const BOTH: &[(PublicKey, u64)] = &[
    (PublicKey::Ed25519([0xa3; 32]), 30),
    (PublicKey::Ed25519([0xa1; 32]), 10),
    (COMPRESSED, 10),
    (PublicKey::Ed25519([0xa2; 32]), 10),
];

/// The hash of their set, as of `tests/reference/scripts.py`.
const BOTH_HASH: &str = "e73c593042d2304bc0612356c1e247d638a90144cf53a524eefec7adce918d26";

/// The same with another power of one key.
const CHANGED: &[(PublicKey, u64)] = &[
    (PublicKey::Ed25519([0xa3; 32]), 30),
    (PublicKey::Ed25519([0xa1; 32]), 11),
    (COMPRESSED, 10),
    (PublicKey::Ed25519([0xa2; 32]), 10),
];

/// The hash of that set, as of `tests/reference/scripts.py`.
const CHANGED_HASH: &str = "5f7f4e68d7d6e4f2f899528f0ae6c477bec416e3a61147612a576a88b3e0adac";

/// The set of the keys, given in another order.
fn make_both(alloc: Global) -> Result<ValidatorSet, Fail> {
    let mut members = Vec::new(alloc);
    for (key, power) in BOTH.iter().rev() {
        members.push(Validator::new(*key, *power)?)?;
    }
    Ok(ValidatorSet::new(alloc, members)?)
}

#[test]
fn orders_both_kinds(rt: HostRuntime) -> Result<(), Fail> {
    let set = make_both(rt.alloc())?;
    check_hex(&rt, rt.alloc(), set.hash(), BOTH_HASH)?;
    for (place, (key, _)) in BOTH.iter().enumerate() {
        check_place(&rt, &set, place, *key)?;
    }
    Ok(())
}

/// The set of the keys, by what is known of the sets before.
fn make_by(
    alloc: Global,
    known: &mut Known,
    keys: &[(PublicKey, u64)],
) -> Result<ValidatorSet, Fail> {
    known.make_room(alloc, keys.len())?;
    let mut members = Vec::new(alloc);
    for (key, power) in keys {
        members.push(known.validator(*key, *power)?)?;
    }
    Ok(ValidatorSet::new_by(alloc, members, known)?)
}

#[test]
fn sets_share_what_they_hash(rt: HostRuntime) -> Result<(), Fail> {
    let mut known = Known::new(rt.alloc());
    for _ in 0..2 {
        let both = make_by(rt.alloc(), &mut known, BOTH)?;
        check_hex(&rt, rt.alloc(), both.hash(), BOTH_HASH)?;
        let changed = make_by(rt.alloc(), &mut known, CHANGED)?;
        check_hex(&rt, rt.alloc(), changed.hash(), CHANGED_HASH)?;
    }
    Ok(())
}

/// Members, and what is printed of the refusal that they get.
const REFUSED: &[(&[(u8, u64)], &str)] = &[
    (&[(1, TOP), (2, 0)], "201 ZeroPower"),
    (&[(1, TOP + 1)], "202 PowerTooBig"),
    (&[], "203 Empty"),
    (&[(1, TOP), (2, 5), (1, 2)], "205 DuplicateAddress"),
    (&[(1, TOP), (2, 1)], "206 TotalTooBig"),
];

fn check_refused(
    rt: &impl Abort,
    alloc: Global,
    members: &[(u8, u64)],
    text: &str,
) -> Result<(), Fail> {
    let refusal = make_set(alloc, members).err().ok_or("accepted")?;
    let printed = format!(in alloc; "{refusal}")?;
    assert_same(rt, "text", printed.as_str(), text);
    Ok(())
}

#[test]
fn refuses(rt: HostRuntime) -> Result<(), Fail> {
    for (members, text) in REFUSED {
        check_refused(&rt, rt.alloc(), members, text)?;
    }
    Ok(())
}

/// So many equal validators are refused for this.
fn check_count(
    rt: &impl Abort,
    alloc: Global,
    count: usize,
    wanted: ValsetError,
) -> Result<(), Fail> {
    let member = Validator::new(PublicKey::Ed25519([1; 32]), 1)?;
    let members = vec![in alloc; member; count]?;
    let refusal = ValidatorSet::new(alloc, members).err();
    assert_same(rt, &count, refusal, Some(wanted));
    Ok(())
}

#[test]
fn refuses_too_many(rt: HostRuntime) -> Result<(), Fail> {
    check_count(&rt, rt.alloc(), 10_000, ValsetError::DuplicateAddress)?;
    check_count(&rt, rt.alloc(), 10_001, ValsetError::TooMany)
}
