//! The map of one thread: a vector of pairs in the order of their keys.
ghost use Rattle.std.specs.Prelude.{◌≡◌, [], IfOk, IfErr, OnOk, OnErr};
ghost use Rattle.std.specs.FinMap as fin;
ghost use Rattle.ist_core.specs.Map.{map_of, step, pairs_between, pairs_of, listed};
ghost use Rattle.plain_map.specs.Rising.{IsRising, IsPut};
ghost use Rattle.plain_map.specs.Place.{IsAt, IsGapFor};

use ist_core::{Command, Pair, Reply};
use std::alloc::{AllocError, Global};
use std::marker::Model;

/// A map from `u64` keys to `u64` values.
///
/// Clauses see the list of its pairs, with strictly increasing keys. The map that such a list
/// represents is `map_of` of `ist_core`.
#[derive(Debug, Drop)]
pub struct Plain {
    pairs: Vec<Pair>,
}

impl Model for Plain {
    ghost use Rattle.std.specs.Prelude.{List};
    ghost use Rattle.ist_core.specs.declared.pairs.Pair.{Pair};
    ghost use Rattle.plain_map.specs.Rising.{IsRising};

    ghost Value = { List Pair };

    ghost view = { λ m. m.pairs.items };

    ghost invariant = { λ m. IsRising m.pairs.items };
}

impl Plain {
    /// Makes an empty map that allocates from `alloc`.
    pub fn new(alloc: Global) -> Plain
        ensures { result ≡ [] }
    {
        Plain {
            pairs: Vec::new(alloc),
        }
    }

    /// Makes the map of these pairs, which keeps their memory and grows in it. Allocates nothing,
    /// and never fails.
    pub fn of(pairs: Vec<Pair>) -> Plain
        requires rising { IsRising pairs.items }
        ensures value { result ≡ pairs.items }
    {
        Plain { pairs }
    }

    /// Carries out one command, and returns the value that its key had before.
    ///
    /// Only a put can run out of memory. The map then stays as it was.
    pub fn apply(&mut self, command: Command) -> Result<Reply, AllocError>
        ensures step { IfOk result
            (λ reply. (map_of self.new, reply) ≡ step (map_of self.old) command) }
        ensures refused { OnErr result (self.new ≡ self.old) }
        ensures only_put { OnErr result (IsPut command) }
    {
        match command {
            Command::Put { key, value } => self.put(key, value),
            Command::Remove { key } => Ok(self.remove(key)),
            Command::Get { key } => Ok(self.get(key)),
        }
    }

    /// Returns the pairs with a key from `first` to `last`, both included, in increasing order of
    /// keys. There are none if `first` is above `last`.
    pub fn list(&self, first: u64, last: u64) -> &[Pair]
        ensures between { result.now ≡ pairs_between first last self.now }
        ensures listed { result.now ≡ listed first last (map_of self.now) }
    {
        let from = self.pairs.partition_point(|pair| pair.key < first);
        let rest = &self.pairs[from..];
        let count = rest.partition_point(|pair| pair.key <= last);
        &rest[..count]
    }

    /// Returns all pairs, in increasing order of keys.
    pub fn pairs(&self) -> &[Pair]
        ensures all { result.now ≡ self.now }
        ensures of_map { self.now ≡ pairs_of (map_of self.now) }
        ensures rising { IsRising self.now }
    {
        self.pairs.as_slice()
    }

    /// Returns all pairs, in increasing order of keys, in the memory in which the map kept them.
    /// Allocates nothing, and never fails.
    pub fn into_pairs(self) -> Vec<Pair>
        ensures all { result.items ≡ self }
        ensures of_map { result.items ≡ pairs_of (map_of self) }
        ensures rising { IsRising result.items }
    {
        self.pairs
    }

    // Returns the value of the key.
    fn get(&self, key: u64) -> Reply
        ensures { result ≡ fin.get (map_of self.now) key }
    {
        match self.find(key) {
            Ok(at) => Some(self.pairs[at].value),
            Err(_) => None,
        }
    }

    // Sets the value of the key, and returns its previous value.
    fn put(&mut self, key: u64, value: u64) -> Result<Reply, AllocError>
        ensures reply { IfOk result (λ reply. reply ≡ fin.get (map_of self.old) key) }
        ensures after { OnOk result (map_of self.new ≡ fin.insert (map_of self.old) key value) }
        ensures refused { OnErr result (self.new ≡ self.old) }
    {
        match self.find(key) {
            Ok(at) => {
                let had = self.pairs[at].value;
                self.pairs[at] = Pair { key, value };
                Ok(Some(had))
            }
            Err(at) => {
                self.pairs.insert(at, Pair { key, value })?;
                Ok(None)
            }
        }
    }

    // Removes the key, and returns its previous value.
    fn remove(&mut self, key: u64) -> Reply
        ensures reply { result ≡ fin.get (map_of self.old) key }
        ensures after { map_of self.new ≡ fin.remove (map_of self.old) key }
    {
        match self.find(key) {
            Ok(at) => Some(self.pairs.remove(at).value),
            Err(_) => None,
        }
    }

    // Returns the place of the key, or the place where it would be inserted. A search by halving.
    fn find(&self, key: u64) -> Result<usize, usize>
        ensures found { IfOk result (IsAt self.now key) }
        ensures absent { IfErr result (IsGapFor self.now key) }
    {
        self.pairs.binary_search_by_key(&key, |pair| pair.key)
    }
}
