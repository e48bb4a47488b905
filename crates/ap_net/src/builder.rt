ghost use Rattle.std.specs.Prelude.{◌≡◌, ℕ, ◌+◌, ◌<◌, ◌≤◌, ◌∷◌, ◌++◌, [], List, length, map, codes, OnOk, OnErr, IfOk, ◌^◌, slice_get, Some, if◌then◌else◌};
ghost use Rattle.std.specs.List.{AllByRecursion as Each};
ghost use Rattle.ap_net.specs.Names.{IsNetName, IsNew, IsNotNumbered, numbered};
ghost use Rattle.ap_net.specs.Cells.{IsNet, CellFits, cell_value, operands};
ghost use Rattle.ap_net.specs.Wiring.{IsFree, reset_of, NextFits, IsDriven, Undriven, Unjoined, Unclocked, NoneTwice, driven_among};
ghost use Rattle.ap_net.specs.declared.net.Port.{Port};
ghost use Rattle.ap_net.specs.Modules.{ModuleText, ports_among, outputs, instance_of, module_named, Connects};
ghost use Rattle.ap_net.specs.Opened.{SolvesPart};
ghost use Rattle.ap_net.specs.Placing.{Places, output_widths, input_widths, wires_from, merged, output_wires, instance_in, with_outputs, with_placed};
ghost use Rattle.ap_net.specs.Finished.{IsFinished};
ghost use Rattle.ap_net.specs.Readings.{Always, Carries};
ghost use Rattle.ap_net.specs.Ready.{numbers};
ghost use Rattle.ap_net.specs.Late.{IsLate, IsLateUnlessSource, StayLate, Reads, Drives, Joins};
ghost use Rattle.ap_net.specs.Draft.{IsKept, Adds, CanFresh, KeepsFresh, KeepsNew, Means, blank, with_net, with_fresh, with_made, with_assign, with_next, with_instance, next_wire, names_of, is_plain, wire_count};
ghost use Rattle.ap_net.specs.Making.{Closes, Makes};

use crate::NoMemory;
use crate::cell::{Cell, Wire};
use crate::finish::finished;
use crate::module::Module;
use crate::name::NetName;
use crate::net::{Assign, Instance, ModuleNet, Next, Port, Role};
use ap_bits::Items;
use std::alloc::Global;
use std::marker::Model;

/// A module that is being built. Contracts see its name, its nets in the order of their declaration, its assigns, the drivers
/// of its registers and its instances, with all the rules on them that hold from the first declaration on.
#[derive(Drop)]
pub struct Builder {
    alloc: Global,
    name: NetName,
    nets: Vec<ModuleNet>,
    assigns: Vec<Assign>,
    nexts: Vec<Next>,
    instances: Vec<Instance>,
    wires: usize,
}

impl Model for Builder {
    ghost use Rattle.ap_net.specs.Draft.{Draft, IsDraft};

    ghost Value = { Draft };

    ghost view = { λ b. record { name = b.name; nets = b.nets.items; assigns = b.assigns.items; nexts = b.nexts.items; instances = b.instances.items } };

    ghost invariant = { λ b. IsDraft (record { name = b.name; nets = b.nets.items; assigns = b.assigns.items; nexts = b.nexts.items; instances = b.instances.items }) b.wires };
}

impl Builder {
    /// A module of this name, with `clk` and `rst` and nothing else.
    pub fn new(alloc: Global, name: &[u8]) -> Result<Builder, NoMemory>
        requires { IsNetName name.now }
        ensures { IfOk result (λ made. made ≡ blank name.now) }
    {
        let name = NetName::new(alloc, name)?;
        Ok(Builder {
            alloc,
            name,
            nets: Vec::new(alloc),
            assigns: Vec::new(alloc),
            nexts: Vec::new(alloc),
            instances: Vec::new(alloc),
            wires: 0,
        })
    }

    /// What every module that is being built keeps, as a fact that callers can use.
    pub fn rules(&self)
        ensures { IsKept self.now }
    {
        let _ = &self.nets;
    }

    /// The allocator from which the builder has its memory, for pieces of circuit that need some of their own.
    pub fn allocator(&self) -> Global {
        self.alloc
    }
}

/// Which of these ports are outputs.
fn outputs_of(alloc: Global, ports: &[Port]) -> Result<Items<bool>, NoMemory>
    ensures { IfOk result (λ list. list ≡ map (λ p. p.output) ports.now) }
{
    let mut list = Items::new(alloc);
    for port in ports {
        list.push(port.output)?;
    }
    Ok(list)
}

/// One net for each port: the next output where the port is one, else the next input.
fn connected(
    alloc: Global,
    ports: &[Port],
    inputs: &[Wire],
    outputs: &[Wire],
) -> Result<Vec<Wire>, NoMemory>
    requires inputs { length inputs.now ≡ length (input_widths ports.now) }
    requires outputs { length outputs.now ≡ length (output_widths ports.now) }
    ensures { IfOk result (λ nets.
        nets.items ≡ merged (map (λ p. p.output) ports.now) inputs.now outputs.now) }
{
    let mut nets = Vec::new(alloc);
    let mut used = 0;
    let mut driven = 0;
    for port in ports {
        if port.output {
            nets.push(outputs[driven])?;
            driven += 1;
            continue;
        }
        nets.push(inputs[used])?;
        used += 1;
    }
    Ok(nets)
}

/// How many wires a net of this role is.
fn wires_in(role: Role) -> usize
    ensures { result ≡ if is_plain role then 1 else 0 }
{
    match role {
        Role::Plain => 1,
        Role::Input | Role::Output | Role::Register(_) => 0,
    }
}

impl Builder {
    /// Declares a net; the name is its own.
    fn declare(&mut self, name: NetName, width: u32, role: Role) -> Result<Wire, NoMemory>
        requires is_name { IsNetName name }
        requires name { IsNew name (names_of self.old) }
        requires low { 1 ≤ width }
        requires high { width ≤ 64 }
        requires reset { reset_of role < 2 ^ width }
        ensures ok { OnOk result (self.new ≡ with_net self.old name width role) }
        ensures wire { IfOk result (λ w. w ≡ next_wire self.old width) }
        ensures adds { OnOk result (Adds self.old self.new) }
        ensures stay { OnOk result (StayLate self.old self.new) }
        ensures late { OnOk result (IsLateUnlessSource role self.new (next_wire self.old width)) }
        ensures named { OnOk result (KeepsFresh name self.old self.new) }
        ensures numbered { OnOk result (name ≡ numbered (wire_count self.old.nets)
            → role ≡ Role.Plain
            → CanFresh self.old → CanFresh self.new) }
        ensures err { OnErr result (self.new ≡ self.old) }
    {
        let wires = self.wires + wires_in(role);
        let number = self.nets.len();
        self.nets.push(ModuleNet { name, width, role })?;
        self.wires = wires;
        Ok(Wire { number, width })
    }

    /// Declares a net of this role under a name that isn't there.
    fn named(&mut self, name: &[u8], width: u32, role: Role) -> Result<Wire, NoMemory>
        requires is_name { IsNetName name.now }
        requires name { IsNew name.now (names_of self.old) }
        requires low { 1 ≤ width }
        requires high { width ≤ 64 }
        requires reset { reset_of role < 2 ^ width }
        ensures ok { OnOk result (self.new ≡ with_net self.old name.now width role) }
        ensures wire { IfOk result (λ w. w ≡ next_wire self.old width) }
        ensures adds { OnOk result (Adds self.old self.new) }
        ensures stay { OnOk result (StayLate self.old self.new) }
        ensures late { OnOk result (IsLateUnlessSource role self.new (next_wire self.old width)) }
        ensures fresh { OnOk result (KeepsFresh name.now self.old self.new) }
        ensures err { OnErr result (self.new ≡ self.old) }
    {
        let name = NetName::new(self.alloc, name)?;
        self.declare(name, width, role)
    }

    /// A wire whose name is `n` and the decimal number of the wires declared before it. After an error nothing changed.
    pub fn fresh(&mut self, width: u32) -> Result<Wire, NoMemory>
        requires name { IsNew (numbered (wire_count self.old.nets)) (names_of self.old) }
        requires low { 1 ≤ width }
        requires high { width ≤ 64 }
        ensures ok { OnOk result (self.new ≡ with_fresh self.old width) }
        ensures wire { IfOk result (λ w. w ≡ next_wire self.old width) }
        ensures adds { OnOk result (Adds self.old self.new) }
        ensures fresh { OnOk result (CanFresh self.old → CanFresh self.new) }
        ensures err { OnErr result (self.new ≡ self.old) }
    {
        let name = NetName::numbered(self.alloc, self.wires)?;
        self.declare(name, width, Role::Plain)
    }

    /// Declares an input port.
    pub fn input(&mut self, name: &[u8], width: u32) -> Result<Wire, NoMemory>
        requires is_name { IsNetName name.now }
        requires name { IsNew name.now (names_of self.old) }
        requires low { 1 ≤ width }
        requires high { width ≤ 64 }
        ensures ok { OnOk result (self.new ≡ with_net self.old name.now width Role.Input) }
        ensures wire { IfOk result (λ w. w ≡ next_wire self.old width) }
        ensures adds { OnOk result (Adds self.old self.new) }
        ensures stay { OnOk result (StayLate self.old self.new) }
        ensures fresh { OnOk result (KeepsFresh name.now self.old self.new) }
        ensures err { OnErr result (self.new ≡ self.old) }
    {
        self.named(name, width, Role::Input)
    }

    /// Declares an output port, which is driven later.
    pub fn output(&mut self, name: &[u8], width: u32) -> Result<Wire, NoMemory>
        requires is_name { IsNetName name.now }
        requires name { IsNew name.now (names_of self.old) }
        requires low { 1 ≤ width }
        requires high { width ≤ 64 }
        ensures ok { OnOk result (self.new ≡ with_net self.old name.now width Role.Output) }
        ensures wire { IfOk result (λ w. w ≡ next_wire self.old width) }
        ensures adds { OnOk result (Adds self.old self.new) }
        ensures stay { OnOk result (StayLate self.old self.new) }
        ensures late { OnOk result (IsLate self.new (next_wire self.old width)) }
        ensures fresh { OnOk result (KeepsFresh name.now self.old self.new) }
        ensures err { OnErr result (self.new ≡ self.old) }
    {
        self.named(name, width, Role::Output)
    }

    /// Declares a wire of this name, which is driven later.
    pub fn wire(&mut self, name: &[u8], width: u32) -> Result<Wire, NoMemory>
        requires is_name { IsNetName name.now }
        requires name { IsNew name.now (names_of self.old) }
        requires low { 1 ≤ width }
        requires high { width ≤ 64 }
        ensures ok { OnOk result (self.new ≡ with_net self.old name.now width Role.Plain) }
        ensures wire { IfOk result (λ w. w ≡ next_wire self.old width) }
        ensures adds { OnOk result (Adds self.old self.new) }
        ensures stay { OnOk result (StayLate self.old self.new) }
        ensures late { OnOk result (IsLate self.new (next_wire self.old width)) }
        ensures fresh { OnOk result (KeepsFresh name.now self.old self.new) }
        ensures err { OnErr result (self.new ≡ self.old) }
    {
        self.named(name, width, Role::Plain)
    }

    /// Declares a register, with its value after the reset edge.
    pub fn register(&mut self, name: &[u8], width: u32, reset: u64) -> Result<Wire, NoMemory>
        requires is_name { IsNetName name.now }
        requires name { IsNew name.now (names_of self.old) }
        requires low { 1 ≤ width }
        requires high { width ≤ 64 }
        requires reset { reset < 2 ^ width }
        ensures ok { OnOk result (self.new
            ≡ with_net self.old name.now width (Role.Register reset)) }
        ensures wire { IfOk result (λ w. w ≡ next_wire self.old width) }
        ensures adds { OnOk result (Adds self.old self.new) }
        ensures stay { OnOk result (StayLate self.old self.new) }
        ensures fresh { OnOk result (KeepsFresh name.now self.old self.new) }
        ensures err { OnErr result (self.new ≡ self.old) }
    {
        self.named(name, width, Role::Register(reset))
    }

    /// Drives a wire or output that was declared earlier.
    pub fn cell(&mut self, to: Wire, cell: Cell) -> Result<(), NoMemory>
        requires late { IsLate self.old to }
        requires fits { CellFits self.old.nets to.width cell }
        ensures ok { OnOk result (self.new ≡ with_assign self.old to cell) }
        ensures value { OnOk result (Always self.new (λ r. r.read to.number
            ≡ cell_value r.read to.width cell)) }
        ensures drives { OnOk result (Drives (numbers (operands cell)) to self.old self.new) }
        ensures err { OnErr result (self.new ≡ self.old) }
    {
        self.assigns.push(Assign { to, cell })?;
        Ok(())
    }

    /// Says which net a register takes at the clock edge, where that isn't said yet.
    pub fn next(&mut self, register: Wire, from: Wire) -> Result<(), NoMemory>
        requires fits { NextFits self.old.nets (record { register = register; from = from }) }
        requires unclocked { Unclocked self.old.nexts register.number }
        ensures ok { OnOk result (self.new ≡ with_next self.old register from) }
        ensures stay { OnOk result (StayLate self.old self.new) }
        ensures err { OnErr result (self.new ≡ self.old) }
    {
        self.nexts.push(Next { register, from })?;
        Ok(())
    }

    /// An instance of a finished module, whose ports after `clk` and `rst` are connected to these nets, in order. It drives the
    /// nets at the module's outputs.
    pub fn instance(&mut self, name: &[u8], whole: &Module, nets: &[Wire]) -> Result<(), NoMemory>
        requires top { self.old.name ≡ codes "top" }
        requires is_name { IsNetName name.now }
        requires name { IsNew name.now (names_of self.old) }
        requires widths { map (λ w. w.width) nets.now ≡ map (λ p. p.width) whole.now.ports }
        requires nets { Each (IsNet self.old.nets) nets.now }
        requires free { Each (IsFree self.old.nets) (driven_among (outputs whole.now) nets.now) }
        requires undriven { Each (Undriven self.old.assigns)
            (driven_among (outputs whole.now) nets.now) }
        requires unjoined { Each (Unjoined self.old.instances)
            (driven_among (outputs whole.now) nets.now) }
        requires apart { NoneTwice (driven_among (outputs whole.now) nets.now) }
        ensures ok { OnOk result (self.new ≡ with_instance self.old
            (instance_of name.now whole.now nets.now)) }
        ensures err { OnErr result (self.new ≡ self.old) }
    {
        let name = NetName::new(self.alloc, name)?;
        let module_name = whole.name().copy(self.alloc)?;
        let nets = Items::copy_of(self.alloc, nets)?;
        let drives = outputs_of(self.alloc, whole.ports())?;
        self.instances.push(Instance {
            name,
            module: module_name,
            nets,
            drives,
        })?;
        Ok(())
    }

    /// A fresh wire, where they can be had any number of times. After an error nothing changed.
    fn next_fresh(&mut self, width: u32) -> Result<Wire, NoMemory>
        requires fresh { CanFresh self.old }
        requires low { 1 ≤ width }
        requires high { width ≤ 64 }
        ensures ok { OnOk result (self.new ≡ with_fresh self.old width) }
        ensures wire { IfOk result (λ w. w ≡ next_wire self.old width) }
        ensures fresh { OnOk result (CanFresh self.new) }
        ensures names { OnOk result (KeepsNew self.old self.new) }
    {
        let _ = &self.nets;
        let wire = self.fresh(width)?;
        Ok(wire)
    }

    /// A fresh wire that is driven later. After an error the builder is good for nothing but to be dropped.
    pub fn late(&mut self, width: u32) -> Result<Wire, NoMemory>
        requires fresh { CanFresh self.old }
        requires low { 1 ≤ width }
        requires high { width ≤ 64 }
        ensures ok { OnOk result (self.new ≡ with_fresh self.old width) }
        ensures wire { IfOk result (λ w. w ≡ next_wire self.old width) }
        ensures late { IfOk result (IsLate self.new) }
        ensures stay { OnOk result (StayLate self.old self.new) }
        ensures fresh { OnOk result (CanFresh self.new) }
        ensures names { OnOk result (KeepsNew self.old self.new) }
    {
        let _ = &self.nets;
        let wire = self.next_fresh(width)?;
        Ok(wire)
    }

    /// A fresh wire for each of these ports that is an output. After an error the builder is good for nothing but to be dropped.
    fn fresh_outputs(&mut self, ports: &[Port]) -> Result<Items<Wire>, NoMemory>
        requires fresh { CanFresh self.old }
        requires widths { Each (λ (p : Port). (1 ≤ p.width) × (p.width ≤ 64)) ports.now }
        ensures ok { OnOk result (self.new ≡ with_outputs self.old ports.now) }
        ensures outputs { IfOk result (λ outs. outs
            ≡ wires_from (length self.old.nets) (output_widths ports.now)) }
        ensures fresh { OnOk result (CanFresh self.new) }
        ensures names { OnOk result (KeepsNew self.old self.new) }
    {
        let mut outputs = Items::new(self.alloc);
        for port in ports {
            if !port.output {
                continue;
            }
            outputs.push(self.next_fresh(port.width)?)?;
        }
        Ok(outputs)
    }

    /// Places an instance of a finished module over declared nets, which may be driven later: these are connected to the
    /// module's inputs, in order, and a fresh wire is made for each of its outputs. Answers these wires, in order. In a
    /// netlist the instance's part of each solution solves the module of its name, and each port equals the net that it is
    /// connected to. After an error the builder is good for nothing but to be dropped.
    pub fn place(
        &mut self,
        name: &[u8],
        whole: &Module,
        inputs: &[Wire],
    ) -> Result<Items<Wire>, NoMemory>
        requires top { self.old.name ≡ codes "top" }
        requires fresh { CanFresh self.old }
        requires is_name { IsNetName name.now }
        requires name { IsNew name.now (names_of self.old) }
        requires other { IsNotNumbered name.now }
        requires widths { map (λ w. w.width) inputs.now ≡ input_widths whole.now.ports }
        requires nets { Each (IsNet self.old.nets) inputs.now }
        ensures ok { OnOk result (self.new ≡ with_placed self.old name.now whole.now inputs.now) }
        ensures outputs { IfOk result (λ outs. outs
            ≡ output_wires (length self.old.nets) whole.now) }
        ensures nets { IfOk result (λ outs. Each (IsNet self.new.nets) outs) }
        ensures part { OnOk result (Always self.new (λ r. (m : ModuleText)
            → module_named r.modules whole.now.name ≡ Some m
            → SolvesPart m (instance_in self.old name.now whole.now inputs.now) r.read
            (r.parts (length self.old.instances)))) }
        ensures joins { OnOk result
            (Joins (instance_in self.old name.now whole.now inputs.now) self.old self.new) }
        ensures places { OnOk result
            (Places (instance_in self.old name.now whole.now inputs.now ∷ [])
            self.old self.new) }
        ensures connects { OnOk result
            (Connects whole.now (instance_in self.old name.now whole.now inputs.now)) }
    {
        whole.rules();
        let alloc = self.alloc;
        let outputs = self.fresh_outputs(whole.ports())?;
        let nets = connected(alloc, whole.ports(), inputs, outputs.as_slice())?;
        self.instance(name, whole, &nets)?;
        Ok(outputs)
    }

    /// A fresh wire that this cell drives. After an error the builder is good for nothing but to be dropped.
    pub fn make(&mut self, width: u32, cell: Cell) -> Result<Wire, NoMemory>
        requires fresh { CanFresh self.old }
        requires low { 1 ≤ width }
        requires high { width ≤ 64 }
        requires fits { CellFits self.old.nets width cell }
        ensures ok { OnOk result (self.new ≡ with_made self.old width cell) }
        ensures wire { IfOk result (λ w. w ≡ next_wire self.old width) }
        ensures net { IfOk result (λ w. IsNet self.new.nets w × (w.width ≡ width)) }
        ensures value { IfOk result (λ w. Means self.old self.new (λ read.
            read w.number ≡ cell_value read width cell)) }
        ensures carries { IfOk result (Carries self.new width (λ r x. x
            ≡ cell_value r.read width cell)) }
        ensures reads { OnOk result (Reads (numbers (operands cell)) self.old self.new) }
        ensures makes { OnOk result (Makes self.old self.new) }
    {
        let _ = &self.nets;
        let to = self.fresh(width)?;
        self.cell(to, cell)?;
        Ok(to)
    }

    /// An output port that this cell drives. After an error the builder is good for nothing but to be dropped.
    pub fn show(&mut self, name: &[u8], width: u32, cell: Cell) -> Result<Wire, NoMemory>
        requires is_name { IsNetName name.now }
        requires name { IsNew name.now (names_of self.old) }
        requires low { 1 ≤ width }
        requires high { width ≤ 64 }
        requires fits { CellFits self.old.nets width cell }
        ensures net { IfOk result (λ w. IsNet self.new.nets w × (w.width ≡ width)) }
        ensures there { IfOk result (λ w. slice_get self.new.nets w.number
            ≡ Some (record { name = name.now; width = width; role = Role.Output })) }
        ensures nets { OnOk result (self.new.nets
            ≡ (with_net self.old name.now width Role.Output).nets) }
        ensures value { IfOk result (λ w. Means self.old self.new (λ read.
            read w.number ≡ cell_value read width cell)) }
        ensures carries { IfOk result (Carries self.new width (λ r x. x
            ≡ cell_value r.read width cell)) }
        ensures reads { OnOk result (Reads (numbers (operands cell)) self.old self.new) }
        ensures adds { OnOk result (Adds self.old self.new) }
        ensures closes { OnOk result (Closes self.old self.new) }
        ensures instances { OnOk result (self.new.instances ≡ self.old.instances) }
        ensures fresh { OnOk result (KeepsFresh name.now self.old self.new) }
    {
        let _ = &self.nets;
        let to = self.output(name, width)?;
        self.cell(to, cell)?;
        Ok(to)
    }

    /// The finished module: its nets stand by kind, ports first, then wires, then registers, each kind in the order of
    /// its declaration, and are numbered so.
    pub fn finish(self) -> Result<Module, NoMemory>
        requires driven { IsDriven self.nets self.assigns self.nexts self.instances }
        requires port { 0 < length (ports_among self.nets) }
        ensures { IfOk result (IsFinished self) }
    {
        let Builder {
            alloc,
            name,
            nets,
            assigns,
            nexts,
            instances,
            wires: _,
        } = self;
        finished(alloc, name, &nets, &assigns, &nexts, &instances)
    }
}
