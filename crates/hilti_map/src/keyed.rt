ghost use Rattle.std.specs.Prelude.{◌≡◌, ◌+◌, ◌^◌, ◌<◌, [], length, slice_get, is_ok, is_some};
ghost use Rattle.std.specs.Prelude.{IfOk, IfErr, IfSome, IfNone, OnErr, None, if◌then◌else◌};
ghost use Rattle.std.specs.Option.{option_copied, option_map};
ghost use Rattle.std.specs.Map.{keys_of, lookup, lookup_key, remove_entry, set_value};
ghost use Rattle.std.specs.Map.Iter.{deref_pair};
ghost use Rattle.std.specs.BTreeMap.{insert_entry, is_at};
ghost use Rattle.std.specs.List.Sorted.{IsStrictlySortedBy};
ghost use Rattle.hilti_map.specs.Stores.{pair_of};

use hilti_base::NoMemory;
use std::alloc::Global;
use std::collections::BTreeMap;
use std::marker::Model;

/// Pairs by rising keys, a stamp with each pair, and a version: how many changes there were since it was made. It
/// takes its memory from the allocator that it was made with. A look-up, an insertion and a removal take logarithmic
/// time.
///
/// A change of the version is asked for only below version 2^63, so that no version comes twice.
#[derive(Debug, Drop)]
pub struct Keyed<K: Ord, V> {
    entries: BTreeMap<K, (V, u64)>,
    version: u64,
}

impl<K: Ord, V> Model for Keyed<K, V> {
    ghost use Rattle.hilti_map.specs.Stores.{Store, store_code};

    ghost Value = { Store K V };

    ghost coded = { store_code K.code V.code };

    ghost view = { λ keyed. record { entries = keyed.entries.entries; version = keyed.version } };
}

impl<K: Ord, V> Keyed<K, V> {
    /// An empty map at version 0. It takes no memory yet.
    pub fn new(alloc: Global) -> Keyed<K, V>
        ensures entries { result.entries ≡ [] }
        ensures version { result.version ≡ 0 }
    {
        Keyed {
            entries: BTreeMap::new(alloc),
            version: 0,
        }
    }

    pub fn version(&self) -> u64
        ensures { result ≡ self.now.version }
    {
        self.version
    }

    /// How many pairs there are. The keys rise, each strictly above the one before it.
    pub fn len(&self) -> u64
        ensures len { result ≡ length self.now.entries }
        ensures rising { IsStrictlySortedBy K.cmp (keys_of self.now.entries) }
    {
        self.entries.len() as u64
    }

    /// The pair at a place, counted from 0 by rising keys; `None` exactly past the end. It passes over the pairs before
    /// it, so it takes time in proportion to the place.
    pub fn at(&self, place: u64) -> Option<(&K, &V)>
        ensures { option_map deref_pair result
            ≡ option_map pair_of (slice_get self.now.entries place) }
    {
        match nth_entry(&self.entries, place as usize) {
            Some((key, held)) => Some((key, &held.0)),
            None => None,
        }
    }

    /// The value of a key; `None` exactly where the key is absent.
    pub fn get(&self, key: &K) -> Option<&V>
        ensures { option_copied result
            ≡ option_map (λ held. held.0) (lookup (is_at (K.cmp key.now)) self.now.entries) }
    {
        match self.entries.get(key) {
            Some(held) => Some(&held.0),
            None => None,
        }
    }

    /// The stamp of a key; `None` exactly where the key is absent.
    pub fn stamp(&self, key: &K) -> Option<u64>
        ensures { result
            ≡ option_map (λ held. held.1) (lookup (is_at (K.cmp key.now)) self.now.entries) }
    {
        match self.entries.get(key) {
            Some(held) => Some(held.1),
            None => None,
        }
    }

    /// Takes a key out; `None` exactly where it is absent, and nothing changes then.
    pub fn remove(&mut self, key: &K) -> Option<(K, V, u64)>
        requires { self.old.version < 2 ^ 63 }
        ensures key { option_map (λ taken. taken.0) result
            ≡ lookup_key (is_at (K.cmp key.now)) self.old.entries }
        ensures held { option_map (λ taken. (taken.1, taken.2)) result
            ≡ lookup (is_at (K.cmp key.now)) self.old.entries }
        ensures entries { self.new.entries ≡ remove_entry (is_at (K.cmp key.now)) self.old.entries }
        ensures unchanged { IfNone result (self.new.entries ≡ self.old.entries) }
        ensures version { self.new.version
            ≡ (if is_some result then self.old.version + 1 else self.old.version) }
    {
        match self.entries.remove_entry(key) {
            Some((key, (value, stamp))) => {
                self.version += 1;
                Some((key, value, stamp))
            }
            None => None,
        }
    }

    /// Gives a key another stamp; false exactly where the key is absent. It is no change of the version.
    pub fn set_stamp(&mut self, key: &K, stamp: u64) -> bool
        ensures found { result ≡ is_some (lookup (is_at (K.cmp key.now)) self.old.entries) }
        ensures stamped { IfSome (lookup (is_at (K.cmp key.now)) self.old.entries)
            (λ held. self.new.entries
            ≡ set_value (is_at (K.cmp key.now)) self.old.entries (held.0, stamp)) }
        ensures absent { lookup (is_at (K.cmp key.now)) self.old.entries ≡ None
            → self.new.entries ≡ self.old.entries }
        ensures version { self.new.version ≡ self.old.version }
    {
        match self.entries.get_mut(key) {
            Some(held) => {
                held.1 = stamp;
                true
            }
            None => false,
        }
    }
}

impl<K: Ord + Drop, V> Keyed<K, V> {
    /// Gives a key a value and a stamp, and answers the value that it had. A key that is there stays as it is kept, and
    /// a new one goes to its place. Without memory nothing changes, and key and value come back; this comes only for an
    /// absent key.
    pub fn insert(&mut self, key: K, value: V, stamp: u64) -> Result<Option<V>, (K, V, NoMemory)>
        requires { self.old.version < 2 ^ 63 }
        ensures old { IfOk result (λ old. old
            ≡ option_map (λ held. held.0) (lookup (is_at (K.cmp key)) self.old.entries)) }
        ensures entries { self.new.entries
            ≡ (if is_ok result then insert_entry K.cmp self.old.entries key (value, stamp)
            else self.old.entries) }
        ensures version { self.new.version
            ≡ (if is_ok result then self.old.version + 1 else self.old.version) }
        ensures absent { OnErr result (lookup (is_at (K.cmp key)) self.old.entries ≡ None) }
        ensures refused { IfErr result (λ refused. (refused.0 ≡ key) × (refused.1 ≡ value)) }
    {
        match self.entries.insert(key, (value, stamp)) {
            Ok(old) => {
                self.version += 1;
                Ok(value_of(old))
            }
            Err(failed) => {
                let (key, (value, _)) = failed.value;
                Err((key, value, NoMemory))
            }
        }
    }
}

impl<K: Ord + Drop, V: Drop> Keyed<K, V> {
    /// Drops all pairs. It counts as a change also where there is none.
    pub fn clear(&mut self)
        requires { self.old.version < 2 ^ 63 }
        ensures entries { self.new.entries ≡ [] }
        ensures version { self.new.version ≡ self.old.version + 1 }
    {
        self.entries.clear();
        self.version += 1;
    }
}

// The entry at a place, by rising keys.
#[tactic(auto, using(crate::proofs::Places::nth_shown))]
fn nth_entry<K: Ord, V>(entries: &BTreeMap<K, (V, u64)>, place: usize) -> Option<(&K, &(V, u64))>
    ensures { option_map deref_pair result ≡ slice_get entries.now.entries place }
{
    entries.iter().nth(place)
}

// The value of what was held at a key.
fn value_of<V>(held: Option<(V, u64)>) -> Option<V>
    ensures { result ≡ option_map (λ held. held.0) held }
{
    match held {
        Some((value, _)) => Some(value),
        None => None,
    }
}
