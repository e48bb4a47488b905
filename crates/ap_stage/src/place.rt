//! An instance of a unit that takes one cycle.
ghost use Rattle.std.specs.Prelude.{◌≡◌, ◌∷◌, [], codes, length, IfOk, OnOk, Some};
ghost use Rattle.ap_bits.specs.declared.card.Latency.TheVariants.{One};
ghost use Rattle.ap_net.specs.Cells.{IsNet};
ghost use Rattle.ap_net.specs.Draft.{CanFresh, names_of, next_wire};
ghost use Rattle.ap_net.specs.Late.{Joins};
ghost use Rattle.ap_net.specs.Modules.{Connects, ModuleText, module_named};
ghost use Rattle.ap_net.specs.Names.{IsNetName, IsNew, IsNotNumbered};
ghost use Rattle.ap_net.specs.Opened.{SolvesPart};
ghost use Rattle.ap_net.specs.Pending.{Yields};
ghost use Rattle.ap_net.specs.Placing.{Places, instance_in, with_placed};
ghost use Rattle.ap_net.specs.Readings.{Always, Carries};
ghost use Rattle.ap_unit.specs.Units.{ports_by};
ghost use Rattle.ap_stage.specs.Placed.{Operates, PlacesUnit};
ghost use Rattle.ap_stage.specs.Trees.{IsShallow};

use ap_bits::NoMemory;
use ap_net::builder::Builder;
use ap_net::cell::Wire;
use ap_net::module::Module;

/// Places the instance and tells its output.
fn placed_quick(
    out: &mut Builder,
    name: &[u8],
    unit: &Module,
    sel: Wire,
    a: Wire,
    b: Wire,
) -> Result<Wire, NoMemory>
    requires top { out.old.name ≡ codes "top" }
    requires fresh { CanFresh out.old }
    requires is_name { IsNetName name.now }
    requires name { IsNew name.now (names_of out.old) }
    requires other { IsNotNumbered name.now }
    requires unit { unit.now.ports ≡ ports_by One sel.width a.width }
    requires sel { IsNet out.old.nets sel }
    requires a { IsNet out.old.nets a }
    requires b { IsNet out.old.nets b }
    requires same { b.width ≡ a.width }
    ensures y { IfOk result (λ y. y ≡ next_wire out.old a.width) }
    ensures net { IfOk result (IsNet out.new.nets) }
    ensures ok { OnOk result
        (out.new ≡ with_placed out.old name.now unit.now (sel ∷ a ∷ b ∷ [])) }
    ensures part { OnOk result (Always out.new (λ r. (m : ModuleText)
        → module_named r.modules unit.now.name ≡ Some m
        → SolvesPart m (instance_in out.old name.now unit.now (sel ∷ a ∷ b ∷ [])) r.read
        (r.parts (length out.old.instances)))) }
    ensures joins { OnOk result
        (Joins (instance_in out.old name.now unit.now (sel ∷ a ∷ b ∷ [])) out.old out.new) }
    ensures connects { OnOk result
        (Connects unit.now (instance_in out.old name.now unit.now (sel ∷ a ∷ b ∷ []))) }
    ensures places { OnOk result
        (Places (instance_in out.old name.now unit.now (sel ∷ a ∷ b ∷ []) ∷ []) out.old out.new) }
{
    let results = out.place(name, unit, &[sel, a, b])?;
    Ok(results.as_slice()[0])
}

/// Places an instance of a unit that takes one cycle, and answers the net of its result. In every netlist whose module of the unit's
/// name computes by a card, it is the value of the operation that `sel` chooses.
pub fn place_quick(
    out: &mut Builder,
    name: &[u8],
    unit: &Module,
    sel: Wire,
    a: Wire,
    b: Wire,
) -> Result<Wire, NoMemory>
    requires top { out.old.name ≡ codes "top" }
    requires fresh { CanFresh out.old }
    requires is_name { IsNetName name.now }
    requires name { IsNew name.now (names_of out.old) }
    requires other { IsNotNumbered name.now }
    requires unit { unit.now.ports ≡ ports_by One sel.width a.width }
    requires sel { IsNet out.old.nets sel }
    requires a { IsNet out.old.nets a }
    requires b { IsNet out.old.nets b }
    requires same { b.width ≡ a.width }
    ensures carries { IfOk result (Carries out.new a.width
        (Operates unit.now.name a.width sel a b)) }
    ensures yields { IfOk result
        (Yields (sel.number ∷ a.number ∷ b.number ∷ []) out.old out.new) }
    ensures places { IfOk result (λ y.
        PlacesUnit name.now unit.now (sel ∷ a ∷ b ∷ y ∷ []) out.old out.new) }
    ensures shallow { IfOk result (λ y. IsShallow out.new 0 y.number) }
{
    let y = placed_quick(out, name, unit, sel, a, b)?;
    Ok(y)
}
