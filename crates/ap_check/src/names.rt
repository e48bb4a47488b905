ghost use Rattle.std.specs.Prelude.{◌≡◌, ◌<◌, ◌^◌, [], OnOk};
ghost use Rattle.ap_check.specs.Names.{IsPlaceOf, with_name};
ghost use Rattle.ap_desc.specs.Reserved.{is_among};

use ap_bits::NoMemory;
use indexmap::IndexSet;
use std::alloc::Global;
use std::marker::Model;

/// Names in the order in which they were declared, each at its place, counted from 0. There are fewer than 2^32. Contracts see
/// their list.
#[derive(Drop)]
pub(crate) struct Names {
    names: IndexSet<String>,
}

impl Model for Names {
    ghost use Rattle.std.specs.Prelude.{List, ℕ, ◌<◌, ◌^◌, length, map};
    ghost use Rattle.std.specs.String.{string_bytes};
    ghost use Rattle.indexmap.specs.IndexSet.{keys};

    ghost Value = { List (List ℕ) };

    ghost view = { λ n. map string_bytes n.names.keys };

    ghost invariant = { λ n. length n.names.keys < 2 ^ 32 };
}

impl Names {
    /// The most names.
    const MOST: usize = 4_294_967_295;

    /// No names.
    pub(crate) fn new(alloc: Global) -> Names
        ensures { result ≡ [] }
    {
        Names {
            names: IndexSet::new(alloc),
        }
    }

    /// Whether the name is among them.
    pub(crate) fn contains(&self, name: &str) -> bool
        ensures { result ≡ is_among name.now self.now }
    {
        self.names.contains(name)
    }

    /// The place of a name.
    pub(crate) fn place(&self, name: &str) -> Option<u32>
        ensures { IsPlaceOf self.now name.now result }
    {
        match self.names.get_index_of(name) {
            Some(place) => Some(place as u32),
            None => None,
        }
    }

    /// Adds a name at the end. One that is there already stays at its place.
    pub(crate) fn add(&mut self, alloc: Global, name: &str) -> Result<(), NoMemory>
        ensures { OnOk result (self.new ≡ with_name self.old name.now) }
    {
        if self.names.len() >= Names::MOST {
            return Err(NoMemory);
        }
        let name = String::from_str(alloc, name)?;
        let _new = self.names.insert(name)?;
        Ok(())
    }
}
