//! What was hashed before, found again without a hash.
ghost use Rattle.std.specs.Prelude.{◌≡◌, ◌<◌, ◌^◌};
ghost use Rattle.rb_merkle.specs.TreeHash.{node_hash};

use crate::hash_node;
use std::alloc::{AllocError, Allocator};

/// Items of a kind, at most one for each of some buckets.
#[derive(Drop)]
pub struct Buckets<T, A: Allocator> {
    items: Vec<T, A>,
    /// For each bucket one more than the place of its item, or 0.
    hints: Vec<usize, A>,
}

impl<T: Copy, A: Allocator + Copy> Buckets<T, A> {
    /// No buckets.
    pub fn new(alloc: A) -> Buckets<T, A> {
        Buckets {
            items: Vec::new(alloc),
            hints: Vec::new(alloc),
        }
    }

    /// Makes at least so many buckets, empty ones where there were fewer.
    pub fn make_room(&mut self, alloc: A, buckets: usize) -> Result<(), AllocError> {
        if self.hints.len() < buckets {
            self.items.clear();
            self.hints = vec![in alloc; 0; buckets]?;
        }
        Ok(())
    }

    /// The bucket of a number, which spreads the items.
    fn bucket(&self, number: u64) -> usize {
        number as usize % self.hints.len().max(1)
    }

    /// The item of a number's bucket.
    pub fn get(&self, number: u64) -> Option<&T> {
        let hint = *self.hints.get(self.bucket(number))?;
        self.items.get(hint.checked_sub(1)?)
    }

    /// Puts an item in a number's bucket, in place of the one there. Nothing is put where there is no memory.
    pub fn put(&mut self, number: u64, item: T) {
        let bucket = self.bucket(number);
        let Some(hint) = self.hints.get_mut(bucket) else {
            return;
        };
        let place = hint.wrapping_sub(1);
        if let Some(before) = self.items.get_mut(place) {
            *before = item;
        } else if self.items.push(item).is_ok() {
            *hint = self.items.len();
        }
    }
}

/// An inner node of a tree: the hashes of its sides, and its own.
#[derive(Clone, Copy)]
struct Node {
    left: [u8; 32],
    right: [u8; 32],
    hash: [u8; 32],
    ghost joined: { hash ≡ node_hash left right },
}

/// Inner nodes of the trees before.
#[derive(Drop)]
pub struct KnownNodes<A: Allocator> {
    nodes: Buckets<Node, A>,
}

impl<A: Allocator + Copy> KnownNodes<A> {
    /// None.
    pub fn new(alloc: A) -> KnownNodes<A> {
        KnownNodes {
            nodes: Buckets::new(alloc),
        }
    }

    /// Makes at least so many buckets for nodes.
    pub fn make_room(&mut self, alloc: A, buckets: usize) -> Result<(), AllocError> {
        self.nodes.make_room(alloc, buckets)
    }

    /// The hash of the node over these two.
    pub fn node(&mut self, left: &[u8; 32], right: &[u8; 32]) -> [u8; 32]
        ensures { result ≡ node_hash left.now right.now }
    {
        let number = number_of(left) + number_of(right);
        if let Some(known) = self.nodes.get(number) {
            if known.left == *left && known.right == *right {
                return known.hash;
            }
        }
        let hash = hash_node(left, right);
        self.nodes.put(
            number,
            Node {
                left: *left,
                right: *right,
                hash,
            },
        );
        hash
    }
}

/// A number by the first bytes of a hash.
fn number_of(hash: &[u8; 32]) -> u64
    ensures { result < 2 ^ 32 }
{
    u64::from(u32::from_le_bytes([hash[0], hash[1], hash[2], hash[3]]))
}
