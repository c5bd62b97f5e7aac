//! The laws of RFC 6962, section 2.1, by which the tree hash of the contracts is determined.
ghost use Rattle.rb_merkle.specs.TreeHash.{tree_root, IsTreeHash, TreeHashIsOne};

/// `tree_root`, which the contract of `root` names, is the tree hash of the standard.
pub fn tree_hash()
    ensures { IsTreeHash tree_root }
{}

/// The standard's rules leave no choice: whatever meets them is the same function.
pub fn tree_hash_is_one()
    ensures { TreeHashIsOne }
{}
