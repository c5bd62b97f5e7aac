//! Objects that are found by their identifiers.
ghost use Rattle.std.specs.Prelude.{◌≡◌, ◌++◌, ◌∷◌, [], ◌<◌, IfOk, IfSome, length, map};
ghost use Rattle.std.specs.List.{position};
ghost use Rattle.std.specs.Str.{bytes_eq};

use crate::named::Named;
use std::alloc::{AllocError, Global};
use std::collections::BTreeMap;
use std::marker::Model;

/// The objects of an array in their order, each found by its identifier in a time that grows with
/// the logarithm of their number.
#[derive(Drop)]
pub struct Directory<T: Named> {
    objects: Vec<T>,
    places: BTreeMap<String, usize>,
}

impl<T: Named> Model for Directory<T> {
    ghost use Rattle.std.specs.Prelude.{List, map};
    ghost use Rattle.rb_script_config.specs.Directories.{IsIndex};

    ghost Value = { List T };

    ghost view = { λ d. d.objects.items };

    ghost invariant = { λ d. IsIndex (map T.name d.objects.items) d.places };
}

impl<T: Named> Directory<T> {
    /// No objects.
    pub fn new(alloc: Global) -> Directory<T>
        ensures { result ≡ [] }
    {
        Directory {
            objects: Vec::new(alloc),
            places: BTreeMap::new(alloc),
        }
    }

    /// These objects and one more, which is found by its identifier unless an earlier one has it.
    /// `AllocError` where a growth is refused.
    pub fn with(self, object: T) -> Result<Directory<T>, AllocError>
        ensures { IfOk result (λ d. d ≡ self ++ object ∷ []) }
    {
        let Directory {
            mut objects,
            mut places,
        } = self;
        if !places.contains_key(object.id()) {
            let id = String::from_str(*objects.allocator(), object.id())?;
            places.insert(id, objects.len())?;
        }
        objects.push(object)?;
        Ok(Directory { objects, places })
    }

    /// The objects in their order.
    pub fn as_slice(&self) -> &[T]
        ensures { result.now ≡ self.now }
    {
        self.objects.as_slice()
    }

    /// The place of the first object that has this identifier, or none where none has it.
    pub fn place_of(&self, id: &str) -> Option<usize>
        ensures place { result ≡ position (bytes_eq id.now) (map T.name self.now) }
        ensures range { IfSome result (λ i. i < length self.now) }
    {
        self.places.get(id).copied()
    }

    /// The objects in their order, without the way to find them.
    pub fn into_vec(self) -> Vec<T>
        ensures { result.items ≡ self }
    {
        self.objects
    }
}
