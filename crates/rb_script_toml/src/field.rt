//! What one key of a table holds.
ghost use Rattle.std.specs.Prelude.{◌≡◌, ◌≤◌, IfOk};
ghost use Rattle.rb_script_toml.specs.Faults.{Gives, IsFault};
ghost use Rattle.rb_script_toml.specs.KeyPaths.{element, below, place_path};
ghost use Rattle.rb_script_toml.specs.Identifiers.{is_identifier};
ghost use Rattle.toml.specs.Data.{as_integer};
ghost use Rattle.toml.specs.View.{view, items_view};

use crate::fault::{FaultName, RunError};
use crate::key_path::KeyPath;
use hex::FromHex;
use jiff::Timestamp;
use rb_base::{ChainId, FeeTable, Fraction, Height, Moment};
use std::alloc::Global;
use toml::Value;

/// The greatest number of a text: 2^63 - 1.
pub const MAX_NUMBER: u64 = i64::MAX as u64;

/// The value of one key of a table, and where it stands.
#[derive(Clone, Copy)]
pub struct Field<'a> {
    pub alloc: Global,
    pub place: KeyPath<'a>,
    pub value: &'a Value,
}

impl<'a> Field<'a> {
    ghost use Rattle.rb_base.specs.Fraction.{IsTrustLevel};
    ghost use Rattle.rb_base.specs.Identifier.{IsIdentifier};
    ghost use Rattle.rb_script_toml.specs.Fields.{field_view, typed, text, flag, number, height, identifier, three_integers, two_integers, fees, AreFees, fee_table, ratio_of, trust, within, time, hash, items, array};

    /// The fault of this name at this value.
    pub fn fault(&self, name: FaultName) -> RunError
        ensures { IsFault result name (place_path self.now.place) }
    {
        self.place.fault(self.alloc, name)
    }

    /// The fault of this name at an element below this value, by its indices.
    pub fn fault_at(&self, indices: &[usize], name: FaultName) -> RunError
        ensures { IsFault result name (below (place_path self.now.place) indices.now) }
    {
        self.place.fault_at(self.alloc, indices, name)
    }

    /// The fault that this value has another type than belongs there.
    pub fn wrong_type(&self) -> RunError
        ensures { IsFault result FaultName.WrongType (place_path self.now.place) }
    {
        self.wrong_type_at(&[], self.value)
    }

    /// The fault that an element below this value, by its indices, has another type.
    pub fn wrong_type_at(&self, indices: &[usize], value: &Value) -> RunError
        ensures { IsFault result FaultName.WrongType (below (place_path self.now.place) indices.now) }
    {
        self.place.wrong_type(self.alloc, indices, value.type_str())
    }

    /// The text that it holds.
    #[tactic(auto, using(crate::proofs::Steps::steps), unfolding(crate::specs::Fields::text))]
    pub fn text(&self) -> Result<&'a str, RunError>
        ensures { Gives (λ t. t.now) result (text (field_view self.now)) }
    {
        match self.value.as_str() {
            Some(text) => Ok(text),
            None => Err(self.wrong_type()),
        }
    }

    /// Whether it holds `true`.
    #[tactic(auto, using(crate::proofs::Steps::steps), unfolding(crate::specs::Fields::flag))]
    pub fn flag(&self) -> Result<bool, RunError>
        ensures { Gives (λ b. b) result (flag (field_view self.now)) }
    {
        match self.value.as_bool() {
            Some(value) => Ok(value),
            None => Err(self.wrong_type()),
        }
    }

    /// The number that it holds, from `low` to `high`; outside of them the fault of this name.
    #[tactic(auto, using(crate::proofs::Steps::steps), unfolding(crate::specs::Fields::number))]
    pub fn number(&self, low: u64, high: u64, name: FaultName) -> Result<u64, RunError>
        ensures read { Gives (λ n. n) result (number low high name (field_view self.now)) }
        ensures range { IfOk result (λ n. (low ≤ n) × (n ≤ high)) }
    {
        let Some(value) = self.value.as_integer() else {
            return Err(self.wrong_type());
        };
        match u64::try_from(value) {
            Ok(value) if low <= value && value <= high => Ok(value),
            _ => Err(self.fault(name)),
        }
    }

    /// The height that it holds.
    #[tactic(auto, using(crate::proofs::Steps::steps))]
    pub fn height(&self) -> Result<Height, RunError>
        ensures { Gives (λ h. h) result (height (field_view self.now)) }
    {
        let number = self.number(1, Height::MAX, FaultName::OutOfRange)?;
        Ok(Height::new(number).unwrap())
    }

    /// The identifier that it holds.
    #[tactic(auto, using(crate::proofs::Steps::steps, crate::proofs::IdentifierLemmas::identifiers), unfolding(crate::specs::Fields::identifier))]
    pub fn identifier(&self) -> Result<&'a str, RunError>
        ensures read { Gives (λ t. t.now) result (identifier (field_view self.now)) }
        ensures form { IfOk result (λ t. IsIdentifier t.now) }
    {
        let text = self.text()?;
        if is_identifier(text) {
            Ok(text)
        } else {
            Err(self.fault(FaultName::BadIdentifier))
        }
    }

    /// The moment that it holds, as a timestamp that `jiff` reads (RFC 3339, or ISO 8601 with an offset).
    #[tactic(auto, using(crate::proofs::Steps::steps), unfolding(crate::specs::Fields::time))]
    pub fn time(&self) -> Result<Moment, RunError>
        ensures { Gives (λ n. n) result (time (field_view self.now)) }
    {
        let Ok(timestamp) = self.text()?.parse::<Timestamp>() else {
            return Err(self.fault(FaultName::BadTime));
        };
        let Ok(nanoseconds) = u128::try_from(timestamp.as_nanosecond()) else {
            return Err(self.fault(FaultName::BadTime));
        };
        match Moment::new(nanoseconds) {
            Some(moment) => Ok(moment),
            None => Err(self.fault(FaultName::BadTime)),
        }
    }

    /// The 32 bytes that it holds in hexadecimal digits.
    #[tactic(auto, using(crate::proofs::Steps::steps), unfolding(crate::specs::Fields::hash))]
    pub fn hash(&self) -> Result<[u8; 32], RunError>
        ensures { Gives (λ h. h) result (hash (field_view self.now)) }
    {
        match <[u8; 32] as FromHex>::from_hex(self.text()?) {
            Ok(bytes) => Ok(bytes),
            Err(_) => Err(self.fault(FaultName::BadHex)),
        }
    }

    /// The three numbers of fees or of gas that it holds, each at most 10^9.
    #[tactic(auto, using(crate::proofs::Steps::steps), unfolding(crate::specs::Fields::fees))]
    pub fn fees(&self) -> Result<(u64, u64, u64), RunError>
        ensures read { Gives (λ n. n) result (fees (field_view self.now)) }
        ensures range { IfOk result AreFees }
    {
        let (first, second, third) = self.three_integers()?;
        let first = self.within(0, first, 0, FeeTable::MAX, FaultName::BadFee)?;
        let second = self.within(1, second, 0, FeeTable::MAX, FaultName::BadFee)?;
        let third = self.within(2, third, 0, FeeTable::MAX, FaultName::BadFee)?;
        Ok((first, second, third))
    }

    /// What an update costs, in fees or in gas: a base, and so much for each signature and for each
    /// validator.
    #[tactic(auto, using(crate::proofs::Steps::steps), unfolding(crate::specs::Fields::fee_table))]
    pub fn fee_table(&self) -> Result<FeeTable, RunError>
        ensures { Gives (λ t. t) result (fee_table (field_view self.now)) }
    {
        let (base, signature, validator) = self.fees()?;
        Ok(FeeTable::new(base, signature, validator).unwrap())
    }

    /// The numerator and the denominator of the trust level that it holds: from a third to one.
    #[tactic(auto, using(crate::proofs::Steps::steps), unfolding(crate::specs::Fields::trust))]
    pub fn level(&self) -> Result<(u64, u64), RunError>
        ensures read { Gives ratio_of result (trust (field_view self.now)) }
        ensures range { IfOk result (λ n. IsTrustLevel n.0 n.1) }
    {
        let (numerator, denominator) = self.two_integers()?;
        let numerator = self.within(0, numerator, 0, MAX_NUMBER, FaultName::OutOfRange)?;
        let denominator = self.within(1, denominator, 0, MAX_NUMBER, FaultName::OutOfRange)?;
        match Fraction::new(numerator, denominator) {
            Ok(_) => Ok((numerator, denominator)),
            Err(_) => Err(self.fault(FaultName::BadTrust)),
        }
    }

    /// The trust level that it holds.
    #[tactic(auto, using(crate::proofs::Steps::steps))]
    pub fn trust(&self) -> Result<Fraction, RunError>
        ensures { Gives (λ t. t) result (trust (field_view self.now)) }
    {
        let (numerator, denominator) = self.level()?;
        Ok(Fraction::new(numerator, denominator).unwrap())
    }

    /// The three integers that it holds.
    #[tactic(auto, using(crate::proofs::Steps::steps), unfolding(crate::specs::Fields::three_integers))]
    pub fn three_integers(&self) -> Result<(i64, i64, i64), RunError>
        ensures { Gives (λ n. n) result (three_integers (field_view self.now)) }
    {
        let items = self.items()?;
        let [first, second, third] = items else {
            return Err(self.fault(FaultName::WrongType));
        };
        let first = self.integer_at(0, first)?;
        let second = self.integer_at(1, second)?;
        let third = self.integer_at(2, third)?;
        Ok((first, second, third))
    }

    /// The two integers that it holds.
    #[tactic(auto, using(crate::proofs::Steps::steps), unfolding(crate::specs::Fields::two_integers))]
    pub fn two_integers(&self) -> Result<(i64, i64), RunError>
        ensures { Gives (λ n. n) result (two_integers (field_view self.now)) }
    {
        let items = self.items()?;
        let [first, second] = items else {
            return Err(self.fault(FaultName::WrongType));
        };
        let first = self.integer_at(0, first)?;
        let second = self.integer_at(1, second)?;
        Ok((first, second))
    }

    /// The elements of the array that it holds.
    #[tactic(auto, using(crate::proofs::Steps::steps), unfolding(crate::specs::Fields::items))]
    pub fn items(&self) -> Result<&'a [Value], RunError>
        ensures { Gives (λ vs. items_view vs.now) result (items (field_view self.now)) }
    {
        match self.value.as_array() {
            Some(array) => Ok(array.as_slice()),
            None => Err(self.wrong_type()),
        }
    }

    /// The elements of the array that it holds, at most as many.
    #[tactic(auto, using(crate::proofs::Steps::steps, crate::proofs::Steps::counted), unfolding(crate::specs::Fields::array))]
    pub fn array(&self, most: usize) -> Result<&'a [Value], RunError>
        ensures { Gives (λ vs. items_view vs.now) result (array most (field_view self.now)) }
    {
        let items = self.items()?;
        if items.len() > most {
            return Err(self.fault(FaultName::TooManyObjects));
        }
        Ok(items)
    }

    /// An integer at an index of this array, from `low` to `high`; outside of them the fault of
    /// this name.
    #[tactic(auto, using(crate::proofs::Steps::steps))]
    pub fn within(
        &self,
        index: usize,
        value: i64,
        low: u64,
        high: u64,
        name: FaultName,
    ) -> Result<u64, RunError>
        ensures read { Gives (λ n. n) result (within low high name (element (field_view self.now).path index) value) }
        ensures range { IfOk result (λ n. (low ≤ n) × (n ≤ high)) }
    {
        match u64::try_from(value) {
            Ok(number) if low <= number && number <= high => Ok(number),
            _ => Err(self.fault_at(&[index], name)),
        }
    }

    /// The integer that an element of this array is.
    #[tactic(auto, using(crate::proofs::Steps::steps))]
    fn integer_at(&self, index: usize, value: &Value) -> Result<i64, RunError>
        ensures { Gives (λ n. n) result (typed (as_integer (view value.now)) (element (field_view self.now).path index)) }
    {
        match value.as_integer() {
            Some(number) => Ok(number),
            None => Err(self.wrong_type_at(&[index], value)),
        }
    }
}

/// Whether the text is an identifier: 1 to 64 characters out of letters, digits and
/// `. _ + - # [ ] < >` (ICS 24 for the characters; own choice of the length).
pub fn is_identifier(text: &str) -> bool
    ensures { result ≡ is_identifier text.now }
{
    ChainId::new(text).is_some()
}
