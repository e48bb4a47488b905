//! Names in tables.
ghost use Rattle.std.specs.Prelude.{◌≡◌, [], IfOk, OnOk, not, position};
ghost use Rattle.std.specs.Str.{bytes_eq};
ghost use Rattle.ap_vr.specs.Scope.{is_among};
ghost use Rattle.ap_vr.specs.Tables.{with_name};

use ap_bits::NoMemory;
use indexmap::IndexSet;
use std::alloc::Global;
use std::marker::Model;

/// Names in the order in which they came, each once. Contracts see their list.
#[derive(Drop)]
pub(crate) struct Names {
    names: IndexSet<String>,
}

impl Model for Names {
    ghost use Rattle.std.specs.Prelude.{List, ℕ, map};
    ghost use Rattle.std.specs.String.{string_bytes};
    ghost use Rattle.indexmap.specs.IndexSet.{keys};

    ghost Value = { List (List ℕ) };

    ghost view = { λ n. map string_bytes n.names.keys };
}

impl Names {
    /// No names.
    pub(crate) fn new(alloc: Global) -> Names
        ensures { result ≡ [] }
    {
        Names {
            names: IndexSet::new(alloc),
        }
    }

    /// Whether the name is among them.
    pub(crate) fn contains(&self, name: &str) -> bool
        ensures { result ≡ is_among self.now name.now }
    {
        self.names.contains(name)
    }

    /// The place of a name.
    pub(crate) fn place(&self, name: &str) -> Option<usize>
        ensures { result ≡ position (bytes_eq name.now) self.now }
    {
        self.names.get_index_of(name)
    }

    /// Adds a name at the end, and says whether it is new. One that is there already stays at its place.
    pub(crate) fn add(&mut self, alloc: Global, name: &str) -> Result<bool, NoMemory>
        ensures table { OnOk result (self.new ≡ with_name self.old name.now) }
        ensures new { IfOk result (λ new. new ≡ not (is_among self.old name.now)) }
    {
        let name = String::from_str(alloc, name)?;
        let new = self.names.insert(name)?;
        Ok(new)
    }
}
