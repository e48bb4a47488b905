//! A module as its lines say it, by names.
ghost use Rattle.std.specs.Prelude.{◌≡◌, ◌++◌, ◌∷◌, [], IfOk, OnOk};
ghost use Rattle.ap_vr.specs.Named.{blank, grown};
ghost use Rattle.ap_vr.specs.Reading.{HasFewLines};
ghost use Rattle.ap_vr.specs.Scope.{assigns_from, instances_from, nexts_from, ports_from, regs_from, wires_from};

use crate::line::{Line, NamedAssign, NamedInstance, NamedNext};
use ap_bits::{Items, NoMemory};
use ap_net::name::NetName;
use ap_net::net::{Net, Port};
use std::alloc::Global;

/// A module by the names that stand in its lines, each list in the order of the lines, and the number of
/// its first line.
#[derive(Drop)]
pub struct NamedModule {
    pub line: u32,
    pub name: NetName,
    pub ports: Items<Port>,
    pub wires: Items<Net>,
    pub regs: Items<Net>,
    pub assigns: Items<NamedAssign>,
    pub nexts: Items<NamedNext>,
    pub instances: Items<NamedInstance>,
}

impl NamedModule {
    /// A module that begins in this line.
    pub(crate) fn begin(alloc: Global, line: u32, name: NetName) -> NamedModule
        ensures { result ≡ blank line name }
    {
        NamedModule {
            line,
            name,
            ports: Items::new(alloc),
            wires: Items::new(alloc),
            regs: Items::new(alloc),
            assigns: Items::new(alloc),
            nexts: Items::new(alloc),
            instances: Items::new(alloc),
        }
    }

    /// Takes one more line.
    pub(crate) fn add(&mut self, line: Line) -> Result<(), NoMemory>
        ensures { OnOk result (self.new ≡ grown self.old line) }
    {
        match line {
            Line::Port { port, more: _more } => self.ports.push(port)?,
            Line::Wire(wire) => self.wires.push(wire)?,
            Line::Reg(register) => self.regs.push(register)?,
            Line::Assign(assign) => self.assigns.push(assign)?,
            Line::Always(next) => self.nexts.push(next)?,
            Line::Instance(instance) => self.instances.push(instance)?,
            Line::Module(_name) => {}
            Line::Clock | Line::Reset | Line::Close | Line::End => {}
        }
        Ok(())
    }

    /// The line of the first port.
    pub(crate) fn ports_from(&self) -> u32
        requires { HasFewLines self.now }
        ensures { result ≡ ports_from self.now }
    {
        self.line + 3
    }

    /// The line of the first wire.
    pub(crate) fn wires_from(&self) -> u32
        requires { HasFewLines self.now }
        ensures { result ≡ wires_from self.now }
    {
        self.line + 4 + self.ports.len() as u32
    }

    /// The line of the first register.
    pub(crate) fn regs_from(&self) -> u32
        requires { HasFewLines self.now }
        ensures { result ≡ regs_from self.now }
    {
        self.wires_from() + self.wires.len() as u32
    }

    /// The line of the first assign.
    pub(crate) fn assigns_from(&self) -> u32
        requires { HasFewLines self.now }
        ensures { result ≡ assigns_from self.now }
    {
        self.regs_from() + self.regs.len() as u32
    }

    /// The line of the first driver of a register.
    pub(crate) fn nexts_from(&self) -> u32
        requires { HasFewLines self.now }
        ensures { result ≡ nexts_from self.now }
    {
        self.assigns_from() + self.assigns.len() as u32
    }

    /// The line of the first instance.
    pub(crate) fn instances_from(&self) -> u32
        requires { HasFewLines self.now }
        ensures { result ≡ instances_from self.now }
    {
        self.nexts_from() + self.nexts.len() as u32
    }
}
