ghost use Rattle.std.specs.Prelude.{◌≡◌, ℕ, ◌+◌, ◌%◌, ◌^◌, ◌<◌, ◌≤◌, ◌==◌, ◌∷◌, [], List, codes, Some, if◌then◌else◌, IfOk, OnOk, bit_and};
ghost use Rattle.ap_bits.specs.Cards.{FitsWidth};
ghost use Rattle.ap_net.specs.declared.net.Instance.{Instance};
ghost use Rattle.ap_net.specs.Names.{IsNew};
ghost use Rattle.ap_net.specs.Cells.{IsNet};
ghost use Rattle.ap_net.specs.Modules.{ModuleText, IsModule, IsNetlist, module_named};
ghost use Rattle.ap_net.specs.Draft.{CanFresh, SettlesDraft, SettlesOpen, names_of};
ghost use Rattle.ap_net.specs.Making.{Makes};
ghost use Rattle.ap_net.specs.Placing.{Places};
ghost use Rattle.ap_unit.specs.Units.{IsUnit};
ghost use Rattle.ap_top.specs.Additions.{Operation, IsQuick, result_of};
ghost use Rattle.ap_top.specs.Form.{IsForm};
ghost use Rattle.ap_top.specs.FormUnit.{IsFormUnit, IsSeen, unit_name};
ghost use Rattle.ap_top.specs.Base.{registers_alone, base, IsPlaced, IsCircuit, IsShown, IsTop, IsTwoStage};
ghost use Rattle.ap_top.specs.Circuits.{nets_of};

use crate::form::Form;
use ap_bits::NoMemory;
use ap_net::builder::Builder;
use ap_net::cell::{Cell, TwoOp, Wire};
use ap_net::module::{Module, Netlist};
use ap_net::solve::{names_are_found, netlists_open};
use ap_unit::UnitKind;
use std::alloc::Global;

/// The registers: the pc, the description's register, and the valid bit and the word of stage 1.
fn with_registers(alloc: Global, form: Form) -> Result<Builder, NoMemory>
    requires { IsForm form }
    ensures { IfOk result (λ out. out ≡ registers_alone form) }
{
    let mut out = Builder::new(alloc, b"top")?;
    let _pc = out.register(b"pc", form.address, 0)?;
    let _register = out.register(b"r_R", form.width, form.start)?;
    let _valid = out.register(b"v_1", 1, 0)?;
    let _word = out.register(b"x_1", form.word, 0)?;
    Ok(out)
}

/// The registers, and the ports before the write group: the pc is fetched, nothing stalls and nothing is killed.
fn with_ports(alloc: Global, form: Form) -> Result<Builder, NoMemory>
    requires { IsForm form }
    ensures { IfOk result (λ out. out ≡ base form) }
{
    let pc = Wire {
        number: 0,
        width: form.address,
    };
    let mut out = with_registers(alloc, form)?;
    let iaddr = out.output(b"iaddr", form.address)?;
    let _idata = out.input(b"idata", form.word)?;
    let _mwait = out.input(b"mwait", 1)?;
    let stall = out.output(b"stall", 1)?;
    let kill = out.output(b"kill", 1)?;
    out.cell(iaddr, Cell::Copy(pc))?;
    out.cell(stall, Cell::Const(0))?;
    out.cell(kill, Cell::Const(0))?;
    Ok(out)
}

/// The address after the pc's.
#[tactic(auto, using(ap_net::proofs::Laws::laws))]
fn make_next_address(out: &mut Builder, pc: Wire) -> Result<Wire, NoMemory>
    requires fresh { CanFresh out.old }
    requires pc { IsNet out.old.nets pc }
    requires low { 1 ≤ pc.width }
    requires high { pc.width ≤ 64 }
    ensures net { IfOk result (λ w. IsNet out.new.nets w × (w.width ≡ pc.width)) }
    ensures value { IfOk result (λ w. (read : ℕ → ℕ) → SettlesDraft out.new read → SettlesDraft out.old read × (read w.number ≡ (read pc.number + 1) % 2 ^ pc.width)) }
    ensures makes { OnOk result (Makes out.old out.new) }
{
    let one = out.make(pc.width, Cell::Const(1))?;
    let after = out.make(pc.width, Cell::Two(TwoOp::Add, pc, one))?;
    Ok(after)
}

/// Whether the flight in the stage is the adding instruction.
#[tactic(auto, using(ap_net::proofs::Laws::laws))]
fn make_enable(out: &mut Builder, valid: Wire, word: Wire, code: u64) -> Result<Wire, NoMemory>
    requires fresh { CanFresh out.old }
    requires valid { IsNet out.old.nets valid }
    requires one_bit { valid.width ≡ 1 }
    requires word { IsNet out.old.nets word }
    requires low { 1 ≤ word.width }
    requires high { word.width ≤ 64 }
    requires code { code < 2 ^ word.width }
    ensures net { IfOk result (λ w. IsNet out.new.nets w × (w.width ≡ 1)) }
    ensures value { IfOk result (λ w. (read : ℕ → ℕ) → SettlesDraft out.new read → SettlesDraft out.old read × (read w.number ≡ bit_and (read valid.number) (if read word.number == code then 1 else 0))) }
    ensures makes { OnOk result (Makes out.old out.new) }
{
    let wanted = out.make(word.width, Cell::Const(code))?;
    let hit = out.make(1, Cell::Two(TwoOp::Eq, word, wanted))?;
    let enable = out.make(1, Cell::Two(TwoOp::And, valid, hit))?;
    Ok(enable)
}

/// What the operation of this number gives of the register and the constant, by an instance of the unit, whose input `sel` has
/// so many bits.
fn make_sum(
    out: &mut Builder,
    unit: &Module,
    number: u32,
    select: u32,
    register: Wire,
    constant: u64,
) -> Result<Wire, NoMemory>
    requires top { out.old.name ≡ codes "top" }
    requires fresh { CanFresh out.old }
    requires name { IsNew (codes "u_U") (names_of out.old) }
    requires unit { IsSeen register.width number select unit.now }
    requires register { IsNet out.old.nets register }
    requires low { 1 ≤ register.width }
    requires high { register.width ≤ 64 }
    requires constant { constant < 2 ^ register.width }
    ensures net { IfOk result (λ w. IsNet out.new.nets w × (w.width ≡ register.width)) }
    ensures value { IfOk result (λ w. (operation : Operation) → operation.number ≡ number → (exchange : ModuleText) → IsFormUnit operation register.width select exchange
        → (modules : List ModuleText) → module_named modules exchange.name ≡ Some exchange → (read : ℕ → ℕ) (parts : ℕ → ℕ → ℕ) → SettlesOpen modules out.new read parts
        → SettlesOpen modules out.old read parts × (read w.number ≡ result_of operation register.width (read register.number) constant)) }
    ensures places { OnOk result ((placed : Instance) × IsPlaced register.width select placed × Places (placed ∷ []) out.old out.new) }
{
    let sel = out.make(select, Cell::Const(u64::from(number)))?;
    let added = out.make(register.width, Cell::Const(constant))?;
    let results = out.place(b"u_U", unit, &[sel, register, added])?;
    Ok(results.as_slice()[0])
}

/// The module of a unit of this width, as its kind builds it.
fn make_unit(alloc: Global, kind: &dyn UnitKind, width: u32) -> Result<Module, NoMemory>
    requires { FitsWidth (card kind.now) width }
    ensures name { IfOk result (λ m. m.name ≡ unit_name width) }
    ensures kept { IfOk result (λ m. IsModule m) }
    ensures unit { IfOk result (λ m. IsUnit m (card kind.now) width) }
{
    let name = format!(in alloc; "k_alu_{width}")?;
    let mut out = Builder::new(alloc, name.as_bytes())?;
    kind.build(width, &mut out)?;
    let unit = out.finish()?;
    unit.rules();
    Ok(unit)
}

/// The circuit of the machine over its registers, and the nets that the rest reads.
#[derive(Drop)]
struct Circuit {
    out: Builder,
    next_address: Wire,
    enable: Wire,
    sum: Wire,
    written: Wire,
    one: Wire,
}

/// Builds the circuit, with an instance of the unit, which it gives the number of the operation.
fn make_circuit(
    alloc: Global,
    form: Form,
    unit: &Module,
    number: u32,
    select: u32,
) -> Result<Circuit, NoMemory>
    requires form { IsForm form }
    requires unit { IsSeen form.width number select unit.now }
    ensures { IfOk result (λ c. IsCircuit form number select c.out (nets_of c)) }
{
    let pc = Wire {
        number: 0,
        width: form.address,
    };
    let register = Wire {
        number: 1,
        width: form.width,
    };
    let valid = Wire {
        number: 2,
        width: 1,
    };
    let word = Wire {
        number: 3,
        width: form.word,
    };
    let mut out = with_ports(alloc, form)?;
    let next_address = make_next_address(&mut out, pc)?;
    let enable = make_enable(&mut out, valid, word, form.code)?;
    let sum = make_sum(&mut out, unit, number, select, register, form.constant)?;
    let written = out.make(form.width, Cell::Choose(enable, sum, register))?;
    let one = out.make(1, Cell::Const(1))?;
    Ok(Circuit {
        out,
        next_address,
        enable,
        sum,
        written,
        one,
    })
}

/// The circuit, and the write group shown: its enable and its value.
fn make_shown(
    alloc: Global,
    form: Form,
    unit: &Module,
    number: u32,
    select: u32,
) -> Result<Circuit, NoMemory>
    requires form { IsForm form }
    requires unit { IsSeen form.width number select unit.now }
    ensures shown { IfOk result (λ c. IsShown form number select c.out (nets_of c)) }
    ensures nexts { IfOk result (λ c. c.out.nexts ≡ []) }
{
    let mut circuit = make_circuit(alloc, form, unit, number, select)?;
    let enable = circuit.enable;
    let sum = circuit.sum;
    let out = &mut circuit.out;
    out.show(b"w_R_e", 1, Cell::Copy(enable))?;
    out.show(b"w_R_v", form.width, Cell::Copy(sum))?;
    Ok(circuit)
}

/// Says what the registers take, and finishes the module.
fn clocked(form: Form, number: u32, select: u32, circuit: Circuit) -> Result<Module, NoMemory>
    requires shown { IsShown form number select circuit.out (nets_of circuit) }
    requires nexts { circuit.out.nexts ≡ [] }
    ensures { IfOk result (λ m. IsTop form number select m) }
{
    let pc = Wire {
        number: 0,
        width: form.address,
    };
    let register = Wire {
        number: 1,
        width: form.width,
    };
    let valid = Wire {
        number: 2,
        width: 1,
    };
    let word = Wire {
        number: 3,
        width: form.word,
    };
    let fetched = Wire {
        number: 5,
        width: form.word,
    };
    let mut out = circuit.out;
    out.next(pc, circuit.next_address)?;
    out.next(register, circuit.written)?;
    out.next(valid, circuit.one)?;
    out.next(word, fetched)?;
    out.rules();
    names_are_found();
    netlists_open();
    let top = out.finish()?;
    top.rules();
    Ok(top)
}

/// The netlist of these two modules.
fn joined(alloc: Global, unit: Module, top: Module) -> Result<Netlist, NoMemory>
    requires { IsNetlist (unit ∷ top ∷ []) }
    ensures { IfOk result (λ modules. modules ≡ unit ∷ top ∷ []) }
{
    let mut modules = Vec::new(alloc);
    modules.push(unit)?;
    modules.push(top)?;
    Ok(Netlist::new(modules))
}

/// The processor of a form: the module of its unit, which this kind builds, and the module `top` with a pc, the register, and
/// one stage that holds a word or nothing. Its adding instruction does the kind's operation of this number.
pub fn two_stage(
    alloc: Global,
    form: Form,
    kind: &dyn UnitKind,
    add: u32,
) -> Result<Netlist, NoMemory>
    requires form { IsForm form }
    requires quick { IsQuick (record { card = card kind.now; number = add }) form.width }
    ensures { IfOk result (λ modules. IsTwoStage (record { card = card kind.now; number = add }) form modules) }
{
    let unit = make_unit(alloc, kind, form.width)?;
    let select = unit.ports()[0].width;
    let circuit = make_shown(alloc, form, &unit, add, select)?;
    let top = clocked(form, add, select, circuit)?;
    let design = joined(alloc, unit, top)?;
    Ok(design)
}
