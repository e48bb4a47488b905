ghost use Rattle.std.specs.Prelude.{◌≡◌, ◌+◌, ◌∷◌, [], codes, length, IfOk, OnOk, Some};
ghost use Rattle.ap_bits.specs.declared.card.Latency.TheVariants.{WidthPlusOne};
ghost use Rattle.ap_net.specs.Names.{IsNetName, IsNew, IsNotNumbered};
ghost use Rattle.ap_net.specs.Cells.{IsNet};
ghost use Rattle.ap_net.specs.Draft.{CanFresh, names_of};
ghost use Rattle.ap_net.specs.Placing.{Places, instance_in};
ghost use Rattle.ap_net.specs.Modules.{ModuleText, Connects, module_named};
ghost use Rattle.ap_net.specs.Opened.{SolvesPart};
ghost use Rattle.ap_net.specs.Readings.{Always};
ghost use Rattle.ap_net.specs.Late.{Joins};
ghost use Rattle.ap_unit.specs.Units.{ports_by};
ghost use Rattle.ap_unit.specs.Slow.{AreSlowInputs, input_nets, output_nets, AlwaysSeesUnit, IsReadyByUnit, SlowUnitsDepend, AskedUnitsShow, PlacedUnitsShow};

use ap_bits::NoMemory;
use ap_net::builder::Builder;
use ap_net::cell::Wire;
use ap_net::module::Module;

/// The nets at the inputs of a unit that takes several cycles. They may be driven later.
#[derive(Clone, Copy, Debug, PartialEq, Eq)]
pub struct SlowInputs {
    /// The number of the operation.
    pub sel: Wire,
    /// The first operand.
    pub a: Wire,
    /// The second operand, of the same width.
    pub b: Wire,
    /// One bit: whether the unit is asked.
    pub go: Wire,
    /// One bit: whether the asking flight goes on at the edge.
    pub adv: Wire,
}

/// What a unit that takes several cycles shows.
#[derive(Clone, Copy, Debug, PartialEq, Eq)]
pub struct SlowOutputs {
    /// One bit: whether the unit is asked and isn't done.
    pub busy: Wire,
    /// The result, where the unit is asked and done.
    pub y: Wire,
}

/// Places the instance and tells its outputs.
fn placed_slow(
    out: &mut Builder,
    name: &[u8],
    unit: &Module,
    inputs: SlowInputs,
) -> Result<SlowOutputs, NoMemory>
    requires top { out.old.name ≡ codes "top" }
    requires fresh { CanFresh out.old }
    requires is_name { IsNetName name.now }
    requires name { IsNew name.now (names_of out.old) }
    requires other { IsNotNumbered name.now }
    requires unit { unit.now.ports ≡ ports_by WidthPlusOne inputs.sel.width inputs.a.width }
    requires inputs { AreSlowInputs out.old.nets inputs }
    ensures outputs { IfOk result (λ s. s ≡ output_nets (length out.old.nets) inputs.a.width) }
    ensures nets { IfOk result (λ s. IsNet out.new.nets s.busy × IsNet out.new.nets s.y) }
    ensures long { OnOk result (length out.new.nets ≡ length out.old.nets + 2) }
    ensures part { OnOk result (Always out.new (λ r. (m : ModuleText)
        → module_named r.modules unit.now.name ≡ Some m
        → SolvesPart m (instance_in out.old name.now unit.now (input_nets inputs)) r.read
        (r.parts (length out.old.instances)))) }
    ensures joins { OnOk result
        (Joins (instance_in out.old name.now unit.now (input_nets inputs)) out.old out.new) }
    ensures connects { OnOk result
        (Connects unit.now (instance_in out.old name.now unit.now (input_nets inputs))) }
    ensures places { OnOk result
        (Places (instance_in out.old name.now unit.now (input_nets inputs) ∷ []) out.old out.new) }
{
    let SlowInputs { sel, a, b, go, adv } = inputs;
    let results = out.place(name, unit, &[sel, a, b, go, adv])?;
    Ok(SlowOutputs {
        busy: results.as_slice()[0],
        y: results.as_slice()[1],
    })
}

/// Places an instance of a unit that takes several cycles, over declared nets. Of what it shows, `busy` is ready once `go` is,
/// and `y` once all inputs but `adv` are. In a netlist the part of the instance solves the module of the unit's name, is asked
/// what the inputs' nets say, and shows what the outputs' nets have. After an error the builder is good for nothing but to be
/// dropped.
pub fn place_slow(
    out: &mut Builder,
    name: &[u8],
    unit: &Module,
    inputs: SlowInputs,
) -> Result<SlowOutputs, NoMemory>
    requires top { out.old.name ≡ codes "top" }
    requires fresh { CanFresh out.old }
    requires is_name { IsNetName name.now }
    requires name { IsNew name.now (names_of out.old) }
    requires other { IsNotNumbered name.now }
    requires unit { unit.now.ports ≡ ports_by WidthPlusOne inputs.sel.width inputs.a.width }
    requires inputs { AreSlowInputs out.old.nets inputs }
    ensures outputs { IfOk result (λ s. s ≡ output_nets (length out.old.nets) inputs.a.width) }
    ensures nets { IfOk result (λ s. IsNet out.new.nets s.busy × IsNet out.new.nets s.y) }
    ensures long { OnOk result (length out.new.nets ≡ length out.old.nets + 2) }
    ensures sees { IfOk result
        (AlwaysSeesUnit out.new unit.now.name (length out.old.instances) inputs) }
    ensures busy { IfOk result (λ s. IsReadyByUnit unit.now.name out.new (inputs.go ∷ []) s.busy) }
    ensures y { IfOk result (λ s. IsReadyByUnit unit.now.name out.new
        (inputs.sel ∷ inputs.a ∷ inputs.b ∷ inputs.go ∷ []) s.y) }
    ensures joins { OnOk result
        (Joins (instance_in out.old name.now unit.now (input_nets inputs)) out.old out.new) }
    ensures connects { OnOk result
        (Connects unit.now (instance_in out.old name.now unit.now (input_nets inputs))) }
    ensures places { OnOk result
        (Places (instance_in out.old name.now unit.now (input_nets inputs) ∷ []) out.old out.new) }
{
    let shown = placed_slow(out, name, unit, inputs)?;
    Ok(shown)
}

/// The outputs of a unit that takes several cycles depend on the inputs on which they may.
pub fn slow_units_depend()
    ensures { SlowUnitsDepend }
{}

/// What the user of a unit that takes several cycles may rely on: `busy`, and the value where it is due, from proper inputs
/// before a cycle and from what is asked in it, whatever `adv` is; alone, and in a netlist's run.
pub fn asked_units_show()
    ensures alone { AskedUnitsShow }
    ensures placed { PlacedUnitsShow }
{}
