//! Names in the order in which they were declared.
ghost use Rattle.std.specs.Prelude.{◌≡◌, [], IfOk, OnOk, map};
ghost use Rattle.ap_net.specs.Names.{AreDistinct};
ghost use Rattle.ap_net.specs.Modules.{ModuleText};
ghost use Rattle.ap_net.specs.declared.net.Port.{Port};
ghost use Rattle.ap_flat.specs.Names.{IsPlaceOf, with_name};

use ap_bits::NoMemory;
use ap_net::module::Module;
use ap_net::net::Port;
use indexmap::IndexSet;
use std::alloc::Global;
use std::marker::Model;

/// Names in order, each at its place, counted from 0. Contracts see their list.
#[derive(Drop)]
pub(crate) struct Names {
    names: IndexSet<String>,
}

impl Model for Names {
    ghost use Rattle.std.specs.Prelude.{List, ℕ, map};
    ghost use Rattle.std.specs.String.{string_bytes};
    ghost use Rattle.indexmap.specs.IndexSet.{keys};

    ghost Value = { List (List ℕ) };

    ghost view = { λ n. map string_bytes n.names.keys };
}

impl Names {
    /// No names.
    fn new(alloc: Global) -> Names
        ensures { result ≡ [] }
    {
        Names {
            names: IndexSet::new(alloc),
        }
    }

    /// The place of a name.
    pub(crate) fn place(&self, name: &str) -> Option<usize>
        ensures { IsPlaceOf self.now name.now result }
    {
        match self.names.get_index_of(name) {
            Some(place) => Some(place),
            None => None,
        }
    }

    /// Adds a name at the end. One that is there already stays at its place.
    fn add(&mut self, alloc: Global, name: &str) -> Result<(), NoMemory>
        ensures { OnOk result (self.new ≡ with_name self.old name.now) }
    {
        let name = String::from_str(alloc, name)?;
        let _new = self.names.insert(name)?;
        Ok(())
    }

    /// The names of modules, which differ.
    pub(crate) fn of_modules(alloc: Global, modules: &[Module]) -> Result<Names, NoMemory>
        requires { AreDistinct (map (λ (m : ModuleText). m.name) modules.now) }
        ensures { IfOk result (λ names. names ≡ map (λ (m : ModuleText). m.name) modules.now) }
    {
        let mut names = Names::new(alloc);
        for whole in modules {
            names.add(alloc, whole.name().as_str())?;
        }
        Ok(names)
    }

    /// The names of ports, which differ.
    pub(crate) fn of_ports(alloc: Global, ports: &[Port]) -> Result<Names, NoMemory>
        requires { AreDistinct (map (λ (p : Port). p.name) ports.now) }
        ensures { IfOk result (λ names. names ≡ map (λ (p : Port). p.name) ports.now) }
    {
        let mut names = Names::new(alloc);
        for port in ports {
            names.add(alloc, port.name.as_str())?;
        }
        Ok(names)
    }
}
