//! A small top: a unit of several cycles that is placed before its operand and `adv` are driven, and a memory port whose
//! address is driven late and whose word is the operand. Every law of the builder on nets that are to come is used here once.
ghost use Rattle.std.specs.Prelude.{◌≡◌, ◌<◌, ◌≤◌, ◌∷◌, [], length, IfOk, OnOk};
ghost use Rattle.ap_bits.specs.declared.card.Latency.TheVariants.{WidthPlusOne};
ghost use Rattle.ap_net.specs.Modules.{Connects, ports_among};
ghost use Rattle.ap_net.specs.Draft.{RegistersBelow};
ghost use Rattle.ap_net.specs.Ready.{AllReady};
ghost use Rattle.ap_unit.specs.Units.{ports_by};
ghost use Rattle.circuit_tests.specs.Tiny.{tiny_base, tiny_by, tiny_next, tiny_instance, AlwaysAnswers};

use ap_bits::NoMemory;
use ap_net::builder::Builder;
use ap_net::cell::{Cell, Wire};
use ap_net::module::Module;
use ap_net::readiness::{ready_nets_are_driven, ready_nets_respond};
use ap_unit::{SlowInputs, place_slow, slow_units_depend};
use std::alloc::Global;

/// The nets that are declared first.
fn declared(alloc: Global, select: u32, width: u32) -> Result<Builder, NoMemory>
    requires select_low { 1 ≤ select }
    requires select_high { select ≤ 64 }
    requires low { 1 ≤ width }
    requires high { width ≤ 64 }
    ensures { IfOk result (λ d. d ≡ tiny_base select width) }
{
    let mut out = Builder::new(alloc, b"top")?;
    out.register(b"r_R", width, 0)?;
    out.output(b"m_M_ra", 1)?;
    out.input(b"m_M_rd", width)?;
    out.input(b"go", 1)?;
    out.input(b"sel", select)?;
    out.wire(b"a", width)?;
    out.wire(b"adv", 1)?;
    Ok(out)
}

/// The circuit: the unit is placed first; `busy` drives `adv`, `adv` the address, and the word that is read is the operand.
fn circuit(alloc: Global, unit: &Module, select: u32, width: u32) -> Result<Builder, NoMemory>
    requires unit { unit.now.ports ≡ ports_by WidthPlusOne select width }
    requires select_low { 1 ≤ select }
    requires select_high { select ≤ 64 }
    requires low { 1 ≤ width }
    requires high { width ≤ 64 }
    ensures clocked { IfOk result (λ d. RegistersBelow d.nets 1) }
    ensures nexts { IfOk result (λ d. d.nexts ≡ tiny_next width ∷ []) }
    ensures placed { IfOk result (λ d. d.instances ≡ tiny_instance unit.now select width ∷ []) }
    ensures connects { OnOk result (Connects unit.now (tiny_instance unit.now select width)) }
    ensures ports { IfOk result (λ d. 0 < length (ports_among d.nets)) }
    ensures ready { IfOk result (λ d. AllReady tiny_by d) }
{
    let mut out = declared(alloc, select, width)?;
    let kept = Wire { number: 0, width };
    let address = Wire {
        number: 1,
        width: 1,
    };
    let word = Wire { number: 2, width };
    let go = Wire {
        number: 3,
        width: 1,
    };
    let sel = Wire {
        number: 4,
        width: select,
    };
    let a = Wire { number: 5, width };
    let adv = Wire {
        number: 6,
        width: 1,
    };
    let b = kept;
    let inputs = SlowInputs { sel, a, b, go, adv };
    let shown = place_slow(&mut out, b"u_U", unit, inputs)?;
    out.cell(adv, Cell::Not(shown.busy))?;
    let late = out.make(1, Cell::Not(adv))?;
    out.cell(address, Cell::Copy(late))?;
    out.cell(a, Cell::Copy(word))?;
    out.next(kept, shown.y)?;
    Ok(out)
}

/// The small top. With every unit of these ports it has a solution, whatever its registers and inputs are given, where the word
/// that is read may depend on the address.
pub fn tiny(alloc: Global, unit: &Module, select: u32, width: u32) -> Result<Module, NoMemory>
    requires unit { unit.now.ports ≡ ports_by WidthPlusOne select width }
    requires select_low { 1 ≤ select }
    requires select_high { select ≤ 64 }
    requires low { 1 ≤ width }
    requires high { width ≤ 64 }
    ensures { IfOk result (λ m. AlwaysAnswers unit.now width m) }
{
    let out = circuit(alloc, unit, select, width)?;
    out.rules();
    ready_nets_respond();
    ready_nets_are_driven();
    slow_units_depend();
    let top = out.finish()?;
    top.rules();
    Ok(top)
}
