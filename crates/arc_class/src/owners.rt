//! Classes in turn, each with a map from names to the nearest class from it up that has the name.
ghost use Rattle.std.specs.Prelude.{◌≡◌, ◌++◌, ◌∷◌, [], length, is_some, IfOk, IfErr, OnOk, IfSome};
ghost use Rattle.std.specs.Str.{bytes_eq};
ghost use Rattle.arc_fault.specs.declared.class.ClassFault.TheVariants.{Memory};
ghost use Rattle.arc_class.specs.Owners.{no_maps, IsMap, Adds, in_map, IsOwners, view_of, view_at, views, has_at, with_own};
ghost use Rattle.arc_class.specs.Table.{at_name};

use crate::by_name::ByName;
use crate::numbered::{Node, find, has_numbers, levels_for, put};
use arc_fault::class::ClassFault;
use indexmap::IndexSet;
use std::alloc::Global;
use std::collections::BTreeMap;

/// A map from names to the numbers of classes: the first of its parts, and what it has at all names
/// that these do not have.
#[derive(Clone, Copy)]
pub struct Map {
    pub first: Option<u32>,
    pub otherwise: Option<u32>,
}

/// What maps share: the names that they have, by their numbers, parts of maps from numbers, and how many binary digits
/// these numbers have.
#[derive(Drop)]
pub struct Maps<'a> {
    names: IndexSet<&'a [u8]>,
    nodes: Vec<Node>,
    levels: u32,
}

impl<'a> Maps<'a> {
    /// Nothing to be shared yet, with numbers of so many binary digits.
    fn new(alloc: Global, levels: u32) -> Maps<'a>
        ensures none { no_maps result }
        ensures levels { result.levels ≡ levels }
    {
        Maps {
            names: IndexSet::new(alloc),
            nodes: Vec::new(alloc),
            levels,
        }
    }

    /// What the map has at the name.
    fn get(&self, map: Map, name: &'a [u8]) -> Option<u32>
        ensures { result ≡ in_map self.now map name.now }
    {
        let Some(number) = self.names.get_index_of(&name) else {
            return map.otherwise;
        };
        match find(&self.nodes, self.levels as usize, map.first, number) {
            None => map.otherwise,
            Some(class) => Some(class),
        }
    }

    /// The map with the class at the name. Memory: there was none, or so many names have no numbers.
    fn with_name(&mut self, map: Map, name: &'a [u8], class: u32) -> Result<Map, ClassFault>
        requires { IsMap self.old map }
        ensures added { IfOk result (λ made. Adds self.old self.new map made (λ sought. bytes_eq sought name.now) class) }
        ensures refused { IfErr result (λ fault. fault ≡ Memory) }
    {
        let (number, _) = self.names.insert_full(name)?;
        if !has_numbers(self.levels, self.names.len()) {
            return Err(ClassFault::Memory);
        }
        let first = put(
            &mut self.nodes,
            self.levels as usize,
            map.first,
            number,
            class,
        )?;
        Ok(Map {
            first: Some(first),
            otherwise: map.otherwise,
        })
    }

    /// The map with the class at each name of a part. Memory: there was none, or so many names have no numbers.
    fn with_part<V>(
        &mut self,
        map: Map,
        part: &BTreeMap<&'a [u8], V>,
        class: u32,
    ) -> Result<Map, ClassFault>
        requires { IsMap self.old map }
        ensures added { IfOk result (λ made. Adds self.old self.new map made (λ sought. is_some (at_name part.now.entries sought)) class) }
        ensures refused { IfErr result (λ fault. fault ≡ Memory) }
    {
        let mut made = map;
        for name in part.keys() {
            made = self.with_name(made, name, class)?;
        }
        Ok(made)
    }

    /// The map with the class at each of the names. Memory: there was none, or so many names have no
    /// numbers.
    fn with_names<V: Copy>(
        &mut self,
        map: Map,
        names: &ByName<'a, V>,
        class: u32,
    ) -> Result<Map, ClassFault>
        requires { IsMap self.old map }
        ensures added { IfOk result (λ made. Adds self.old self.new map made (λ sought. is_some (at_name names.now sought)) class) }
        ensures refused { IfErr result (λ fault. fault ≡ Memory) }
    {
        let mut made = map;
        let parts = names.parts();
        for part in parts {
            made = self.with_part(made, part, class)?;
        }
        Ok(made)
    }
}

/// For each class of a table, in the order of their numbers, which class has the nearest of each name.
#[derive(Drop)]
pub struct Owners<'a> {
    maps: Maps<'a>,
    /// The map of each class, which is known where the classes above it stand before it.
    classes: Vec<Option<Map>>,
}

impl<'a> Owners<'a> {
    /// Of no classes yet, with numbers for so many names, as far as there are so many.
    pub fn new(alloc: Global, names: usize) -> Owners<'a>
        ensures owners { IsOwners result }
        ensures none { views result ≡ [] }
    {
        Owners {
            maps: Maps::new(alloc, levels_for(names)),
            classes: Vec::new(alloc),
        }
    }

    /// The map of the class, where it is known; that of no class has nothing.
    fn map_of(&self, class: Option<usize>) -> Option<Map>
        requires { IsOwners self.now }
        ensures view { view_of self.now.maps result ≡ view_at (views self.now) class }
        ensures is_map { IfSome result (λ map. IsMap self.now.maps map) }
    {
        let Some(class) = class else {
            return Some(Map {
                first: None,
                otherwise: None,
            });
        };
        match self.classes.get(class) {
            None => None,
            Some(map) => *map,
        }
    }

    /// Adds the root, the first class, as if it had all names: what it has is built in and in no map, so it is asked for where no class
    /// below it has the name.
    pub fn add_root(&mut self) -> Result<(), ClassFault>
        requires { IsOwners self.old }
        ensures owners { OnOk result (IsOwners self.new) }
        ensures added { OnOk result (views self.new ≡ views self.old ++ Some (λ name. Some 0) ∷ []) }
        ensures refused { IfErr result (λ fault. fault ≡ Memory) }
    {
        self.classes.push(Some(Map {
            first: None,
            otherwise: Some(0),
        }))?;
        Ok(())
    }

    /// Adds a class with these names of its own, and with those of its superclass. Memory: there was
    /// none, or so many classes or names have no numbers.
    pub fn add_class<V: Copy>(
        &mut self,
        superclass: Option<usize>,
        names: &ByName<'a, V>,
    ) -> Result<(), ClassFault>
        requires { IsOwners self.old }
        ensures owners { OnOk result (IsOwners self.new) }
        ensures added { OnOk result (views self.new
            ≡ views self.old ++ with_own (λ name. is_some (at_name names.now name)) (length (views self.old)) (view_at (views self.old) superclass) ∷ []) }
        ensures refused { IfErr result (λ fault. fault ≡ Memory) }
    {
        let Some(map) = self.map_of(superclass) else {
            self.classes.push(None)?;
            return Ok(());
        };
        let classes: &[Option<Map>] = &self.classes;
        let Ok(class) = u32::try_from(classes.len()) else {
            return Err(ClassFault::Memory);
        };
        let made = self.maps.with_names(map, names, class)?;
        self.classes.push(Some(made))?;
        Ok(())
    }

    /// Whether all classes above the class stand before it, so that its names are known.
    pub fn knows(&self, class: usize) -> bool
        ensures { result ≡ is_some (view_at (views self.now) (Some class)) }
    {
        match self.classes.get(class) {
            None => false,
            Some(map) => map.is_some(),
        }
    }

    /// The nearest class from the class up that has the name, where its names are known. Where the first class was added as the root, that
    /// is the root for a name that no class below has, whether or not the root has it.
    pub fn owner(&self, class: usize, name: &'a [u8]) -> Option<usize>
        ensures { result ≡ has_at (view_at (views self.now) (Some class)) name.now }
    {
        let Some(Some(map)) = self.classes.get(class) else {
            return None;
        };
        match self.maps.get(*map, name) {
            None => None,
            Some(owner) => Some(owner as usize),
        }
    }
}
