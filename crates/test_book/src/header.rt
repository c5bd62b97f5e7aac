use crate::merkle::to_hex;
use crate::same::assert_same;
use rb_base::{ChainId, Height, Moment};
use rb_import_answers::{BlockHeader, BlockId, HeaderBytes, header_hash};
use sha2::{Digest, Sha256};
use std::alloc::{AllocError, Global};
use std::process::Abort;
use std::test::Fail;

/// The hash of a field's name.
fn of_name(name: &str) -> [u8; 32] {
    Sha256::digest(name.as_bytes())
}

/// The bytes of a field; none where they don't fit, which the hash tells.
fn bytes(slice: &[u8]) -> HeaderBytes {
    let mut bytes = HeaderBytes::new();
    let _ = bytes.try_extend_from_slice(slice);
    bytes
}

/// The header of CometBFT's own test of `Header.Hash`, whose hashes are those of the names of their fields.
fn named() -> BlockHeader {
    BlockHeader {
        block_version: 1,
        app_version: 2,
        chain: ChainId::new("chainId").unwrap(),
        height: Height::new(3).unwrap(),
        time: Moment::new(1_570_983_284_000_000_000).unwrap(),
        last_block: BlockId {
            hash: bytes(&[0; 32]),
            parts_total: 6,
            parts_hash: bytes(&[0; 32]),
        },
        last_commit_hash: bytes(&of_name("last_commit_hash")),
        data_hash: bytes(&of_name("data_hash")),
        validators_hash: of_name("validators_hash"),
        next_validators_hash: of_name("next_validators_hash"),
        consensus_hash: bytes(&of_name("consensus_hash")),
        app_hash: bytes(&of_name("app_hash")),
        last_results_hash: bytes(&of_name("last_results_hash")),
        evidence_hash: bytes(&of_name("evidence_hash")),
        proposer_address: bytes(&of_name("proposer_address")[..20]),
    }
}

/// The first header of a chain, which has no last block.
fn first() -> BlockHeader {
    let mut header = named();
    header.block_version = 11;
    header.app_version = 0;
    header.chain = ChainId::new("hub-4").unwrap();
    header.height = Height::new(1).unwrap();
    header.time = Moment::new(1_793_541_600_000_000_005).unwrap();
    header.last_block = BlockId {
        hash: bytes(&[]),
        parts_total: 0,
        parts_hash: bytes(&[]),
    };
    header.last_commit_hash = bytes(&[]);
    header.app_hash = bytes(&[]);
    header
}

fn check_hash(
    rt: &impl Abort,
    alloc: Global,
    header: &BlockHeader,
    wanted: &str,
) -> Result<(), AllocError> {
    let found = header_hash(alloc, header)?;
    let text = to_hex(alloc, found.as_slice())?;
    assert_same(rt, "hash", text.as_str(), wanted);
    Ok(())
}

/// The hash that CometBFT's test has, and one by the same encoding written in Python.
const HASHES: [&str; 2] = [
    "f740121f553b5418c3efbd343c2dbfe9e007bb67b0d020a0741374bab65242a4",
    "f99e89140a866555f19be7a27f470d4432ec58afc2ac353a962204776b5de874",
];

#[test]
fn hash_of_a_header(rt: HostRuntime) -> Result<(), Fail> {
    let [of_named, of_first] = HASHES;
    check_hash(&rt, rt.alloc(), &named(), of_named)?;
    Ok(check_hash(&rt, rt.alloc(), &first(), of_first)?)
}
