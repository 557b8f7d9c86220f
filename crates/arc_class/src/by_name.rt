//! Maps from names. A name's hash says to which part of a map the name belongs. Each part is a tree, so that a source
//! whose names share a hash takes no more steps for a name than one tree of all names would.
ghost use Rattle.std.specs.Prelude.{◌≡◌, ◌<◌, [], ℕ, List, length, Some, IfOk, OnOk};
ghost use Rattle.std.specs.Map.{update};
ghost use Rattle.std.specs.Str.{bytes_eq};
ghost use Rattle.arc_class.specs.NameMaps.{at_name, name_hash, part_of, all_parts, IsPlaced};

use std::alloc::{AllocError, Global};
use std::collections::BTreeMap;
use std::hash::{FoldHasher, Hasher};
use std::marker::Model;

/// A map from names.
#[derive(Drop)]
pub struct ByName<'a, V> {
    parts: Vec<BTreeMap<&'a [u8], V>>,
}

impl<'a, V> Model for ByName<'a, V> {
    ghost use Rattle.arc_class.specs.NameMaps.{Named, all_parts, IsPlaced};

    ghost Value = { Named V };

    ghost view = { λ m. all_parts m.parts.items };

    ghost invariant = { λ m. IsPlaced m.parts.items };
}

/// A number that names share seldom.
fn hash_of(name: &[u8]) -> u64
    ensures { result ≡ name_hash name.now }
{
    let mut hasher = FoldHasher::default();
    hasher.write(name);
    hasher.finish()
}

/// Which of so many parts the name belongs to.
fn part_of(name: &[u8], count: usize) -> usize
    requires { 0 < count }
    ensures value { result ≡ part_of name.now count }
    ensures within { result < count }
{
    if count == 1 {
        return 0;
    }
    hash_of(name) as usize % count
}

/// Makes a part, where there is none yet.
fn make_part<'a, V: Copy>(parts: &mut Vec<BTreeMap<&'a [u8], V>>) -> Result<(), AllocError>
    ensures made { OnOk result (0 < length parts.new.items) }
    ensures entries { all_parts parts.new.items ≡ all_parts parts.old.items }
    ensures placed { IsPlaced parts.old.items → IsPlaced parts.new.items }
{
    if parts.is_empty() {
        let alloc = *parts.allocator();
        parts.push(BTreeMap::new(alloc))?;
    }
    Ok(())
}

impl<'a, V: Copy> ByName<'a, V> {
    /// No names yet.
    pub fn new(alloc: Global) -> ByName<'a, V>
        ensures { result ≡ [] }
    {
        ByName {
            parts: Vec::new(alloc),
        }
    }

    /// No names yet, with room for so many: there is a part for each, so that most parts have one name or none.
    pub fn with_room(alloc: Global, names: usize) -> Result<ByName<'a, V>, AllocError>
        ensures { IfOk result (λ map. map ≡ []) }
    {
        let count = names.max(1);
        let mut parts = Vec::with_capacity(alloc, count)?;
        for _part in 0..count {
            parts.push(BTreeMap::new(alloc))?;
        }
        Ok(ByName { parts })
    }

    /// What the map has at the name.
    pub fn get(&self, name: &[u8]) -> Option<V>
        ensures { result ≡ at_name self.now name.now }
    {
        if self.parts.is_empty() {
            return None;
        }
        let part = &self.parts[part_of(name, self.parts.len())];
        part.get(name).copied()
    }

    /// Puts the value at the name, and gives what was there.
    pub fn insert(&mut self, name: &'a [u8], value: V) -> Result<Option<V>, AllocError>
        ensures old { IfOk result (λ old. old ≡ at_name self.old name.now) }
        ensures updates { OnOk result ((sought : List ℕ) → at_name self.new sought ≡ update bytes_eq (at_name self.old) name.now (Some value) sought) }
    {
        make_part(&mut self.parts)?;
        let home = part_of(name, self.parts.len());
        let old = self.parts[home].insert(name, value)?;
        Ok(old)
    }

    /// The parts of the map.
    pub fn parts(&self) -> &[BTreeMap<&'a [u8], V>]
        ensures { all_parts result.now ≡ self.now }
    {
        &self.parts
    }
}
