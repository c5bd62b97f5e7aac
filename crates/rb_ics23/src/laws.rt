//! The laws of Protocol Buffers by which the lengths of the contracts are determined, and those that tie reading a proof to
//! writing it.
ghost use Rattle.rb_ics23.specs.Varint.{IsVarint, IsReadAgain, varint};
ghost use Rattle.rb_ics23.specs.Written.{IsAbsenceReadAgain, IsExistenceReadAgain};

/// `varint`, which the leaf hash names, is the varint of Protocol Buffers for numbers below 2^64.
pub fn varint()
    ensures { IsVarint varint }
{}

/// What is written so is read as the same number, whatever follows it.
pub fn varint_is_read_again()
    ensures { IsReadAgain }
{}

/// What a node writes of a proof by the operations of the specs is read as that proof.
pub fn proof_is_read_again()
    ensures { IsExistenceReadAgain }
{}

/// What a node writes of a proof that a key has no value is read as that proof.
pub fn absence_is_read_again()
    ensures { IsAbsenceReadAgain }
{}
