//! What is collected of the records of an import.

ghost use Rattle.std.specs.Prelude.{◌≡◌, ◌++◌, ◌∷◌, [], true, false, IsTrue, MatchResult};

use std::alloc::{AllocError, Global};

/// What was collected of the records of an import, in their order, as far as there was memory for
/// it.
#[derive(Drop)]
pub struct Collection<T> {
    pub entries: Vec<T>,
    /// Whether there was memory for all of them.
    pub are_all: bool,
    pub(crate) alloc: Global,
}

impl<T: Drop> Collection<T> {
    /// Of no records.
    pub(crate) fn none(alloc: Global) -> Collection<T>
        ensures entries { result.entries.items ≡ [] }
        ensures are_all { result.are_all ≡ true }
    {
        Collection {
            entries: Vec::new(alloc),
            are_all: true,
            alloc,
        }
    }

    /// Adds an entry, if there was memory to make it, and is memory to keep it.
    pub(crate) fn add(&mut self, entry: Result<T, AllocError>)
        ensures before { IsTrue self.new.are_all → IsTrue self.old.are_all }
        ensures entries { MatchResult entry
            (λ it. IsTrue self.new.are_all
            → self.new.entries.items ≡ self.old.entries.items ++ it ∷ [])
            (λ _. self.new.are_all ≡ false) }
    {
        let Ok(entry) = entry else {
            self.are_all = false;
            return;
        };
        let Ok(()) = self.entries.push(entry) else {
            self.are_all = false;
            return;
        };
    }
}
