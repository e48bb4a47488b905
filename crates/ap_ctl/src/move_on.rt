//! Which flights fire, and where words are in the next cycle.
ghost use Rattle.std.specs.Prelude.{◌≡◌, ◌∷◌, ◌++◌, ◌&&◌, ◌+◌, ◌-◌, ◌<◌, ◌≤◌, [], not, if◌then◌else◌, Contains, IfOk, length};
ghost use Rattle.std.specs.List.{AllByRecursion as Each};
ghost use Rattle.ap_net.specs.Draft.{CanFresh};
ghost use Rattle.ap_net.specs.Ready.{numbers};
ghost use Rattle.ap_net.specs.Readings.{Reading};
ghost use Rattle.ap_ctl.specs.Building.{GivesEach, IsBit, Tells, is_on};
ghost use Rattle.ap_ctl.specs.Lists.{EachFrom};
ghost use Rattle.ap_ctl.specs.Meaning.{is_killable};
ghost use Rattle.ap_ctl.specs.Moves.{AreGates, coming_of, fire_of, next_numbers, next_of};

use crate::gate::{both, chosen, inverse};
use ap_bits::{Items, NoMemory};
use ap_desc::design::Design;
use ap_net::builder::Builder;
use ap_net::cell::Wire;

/// How a cycle goes on.
#[derive(Clone, Copy, Debug, PartialEq, Eq)]
pub struct Gates {
    /// The stages are held.
    pub hold: Wire,
    /// They aren't held.
    pub goes: Wire,
    /// A transfer is taken.
    pub kill: Wire,
    /// They aren't held, and no transfer is taken.
    pub lives: Wire,
}

/// The gates of a cycle, where `hold` says whether the stages are held and `taken` whether a transfer is taken if they aren't.
pub fn make_gates(out: &mut Builder, hold: Wire, taken: Wire) -> Result<Gates, NoMemory>
    requires fresh { CanFresh out.old }
    requires hold { IsBit out.old.nets hold }
    requires taken { IsBit out.old.nets taken }
    ensures hold { IfOk result (λ g. g.hold ≡ hold) }
    ensures tells { IfOk result (AreGates out.new taken) }
    ensures gives { IfOk result (λ g. GivesEach (hold.number ∷ taken.number ∷ [])
        out.old out.new (g.goes ∷ g.kill ∷ g.lives ∷ [])) }
{
    let goes = inverse(out, hold)?;
    let kill = both(out, taken, goes)?;
    let spared = inverse(out, kill)?;
    let lives = both(out, goes, spared)?;
    Ok(Gates {
        hold,
        goes,
        kill,
        lives,
    })
}

/// Whether what is in the stage isn't held and isn't killed.
fn passing(design: &Design, gates: Gates, stage: u32) -> Wire
    ensures { result ≡ if is_killable design.now stage then gates.lives else gates.goes }
{
    if design.branch.saturating_sub(stage) > design.slots {
        gates.lives
    } else {
        gates.goes
    }
}

/// Whether the flight of each stage fires.
pub fn fires(
    out: &mut Builder,
    design: &Design,
    gates: Gates,
    valid: &[Wire],
) -> Result<Items<Wire>, NoMemory>
    requires few { length valid.now < 64 }
    requires fresh { CanFresh out.old }
    requires goes { IsBit out.old.nets gates.goes }
    requires lives { IsBit out.old.nets gates.lives }
    requires valid { Each (IsBit out.old.nets) valid.now }
    ensures long { IfOk result (λ nets. length nets ≡ length valid.now) }
    ensures tells { IfOk result (λ nets. EachFrom (λ stage w. Tells out.new
        (fire_of design.now gates valid.now stage) w) 1 nets) }
    ensures gives { IfOk result (GivesEach
        (gates.goes.number ∷ gates.lives.number ∷ numbers valid.now) out.old out.new) }
{
    let mut nets = Items::new(out.allocator());
    for place in 0..valid.len() {
        let open = passing(design, gates, place as u32 + 1);
        let fire = both(out, valid[place], open)?;
        nets.push(fire)?;
    }
    Ok(nets)
}

/// Whether a word comes to the stage after so many: the fetched one, or that of the stage before.
fn coming(design: &Design, gates: Gates, fires: &[Wire], place: usize) -> Wire
    requires { place ≤ length fires.now }
    ensures one { Contains (gates.goes ∷ gates.lives ∷ fires.now) result }
    ensures value { (r : Reading) → is_on r result ≡ coming_of design.now gates fires.now place r }
{
    if place == 0 {
        return passing(design, gates, 0);
    }
    fires[place - 1]
}

/// Whether there is a word in each stage in the next cycle.
pub fn next_valid(
    out: &mut Builder,
    design: &Design,
    gates: Gates,
    valid: &[Wire],
    fires: &[Wire],
) -> Result<Items<Wire>, NoMemory>
    requires few { length valid.now < 64 }
    requires fresh { CanFresh out.old }
    requires hold { IsBit out.old.nets gates.hold }
    requires goes { IsBit out.old.nets gates.goes }
    requires lives { IsBit out.old.nets gates.lives }
    requires valid { Each (IsBit out.old.nets) valid.now }
    requires fires { Each (IsBit out.old.nets) fires.now }
    requires long { length fires.now ≡ length valid.now }
    ensures long { IfOk result (λ nets. length nets ≡ length valid.now) }
    ensures tells { IfOk result (λ nets. EachFrom (λ stage w. Tells out.new
        (next_of design.now gates valid.now fires.now stage) w) 1 nets) }
    ensures gives { IfOk result (GivesEach (next_numbers gates valid.now fires.now)
        out.old out.new) }
{
    let mut nets = Items::new(out.allocator());
    for place in 0..valid.len() {
        let from = coming(design, gates, fires, place);
        let next = chosen(out, gates.hold, valid[place], from)?;
        nets.push(next)?;
    }
    Ok(nets)
}
