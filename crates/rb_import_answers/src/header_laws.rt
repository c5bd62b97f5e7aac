//! The law of Protocol Buffers by which the encoding of the contracts is determined.
ghost use Rattle.rb_import_answers.specs.Encoding.{IsVarint, varint};

/// `varint`, which the fields' encoding names, is the varint of Protocol Buffers for numbers below 2^64.
pub fn varint()
    ensures { IsVarint varint }
{}
