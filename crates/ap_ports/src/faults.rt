//! The least fault of a design's ports and stages.
ghost use Rattle.std.specs.Prelude.{◌≡◌, IfNone, IfOk, IfSome, IsOk};
ghost use Rattle.ap_desc.specs.Least.{HoldsNowhere};
ghost use Rattle.ap_desc.specs.Meaning.{IsLeastPortFault, MeetsPortFault};
ghost use Rattle.ap_desc.specs.Sound.{IsSound};
ghost use Rattle.ap_ports.specs.Elsewhere.{AreFirstStages};
ghost use Rattle.ap_ports.specs.Firsts.{IsLeastIn, MeetsOneOf};
ghost use Rattle.ap_ports.specs.Sooner.{is_before, sooner, refusal_at};

use crate::first::{first_line, first_stages};
use ap_bits::NoMemory;
use ap_desc::design::Design;
use ap_desc::laws::least_fault_is_looked_at;
use ap_desc::{Fault, Refusal};

/// The kinds of fault of ports and stages.
const KINDS: [Fault; 8] = [
    Fault::TwiceInInstruction,
    Fault::TwoStages,
    Fault::StageZero,
    Fault::StageOrder,
    Fault::EarlyCommit,
    Fault::ChainLoop,
    Fault::UnstableOperand,
    Fault::TooManySlots,
];

/// Whether the first fault comes before the second: by phase, then by line, then by number.
fn is_before(one: Refusal, other: Refusal) -> bool
    ensures { result ≡ is_before one other }
{
    let number = one.kind.number();
    let other_number = other.kind.number();
    one.phase < other.phase
        || one.phase == other.phase
            && (one.line < other.line || one.line == other.line && number < other_number)
}

/// The fault that comes first of two.
fn sooner(one: Option<Refusal>, other: Option<Refusal>) -> Option<Refusal>
    ensures { result ≡ sooner one other }
{
    match (one, other) {
        (Some(first), Some(second)) => { if is_before(second, first) { other } else { one } }
        (None, _) => other,
        _ => one,
    }
}

/// The refusal for a kind of fault that first holds at this line.
fn refusal_at(kind: Fault, line: Option<u32>) -> Option<Refusal>
    ensures { result ≡ refusal_at kind line }
{
    match line {
        Some(line) => Some(Refusal {
            phase: kind.phase(),
            line,
            kind,
        }),
        None => None,
    }
}

/// The least fault of these kinds.
fn least_of(design: &Design, stages: &[Option<u32>], kinds: &[Fault]) -> Option<Refusal>
    requires sound { IsSound design.now }
    requires stages { AreFirstStages design.now stages.now }
    ensures { IsLeastIn (MeetsOneOf design.now kinds.now) result }
{
    let [kind, rest @ ..] = kinds else {
        return None;
    };
    let here = refusal_at(*kind, first_line(design, stages, *kind));
    sooner(here, least_of(design, stages, rest))
}

/// The least fault of the design's ports and stages, by phase, line and number; none exactly where there is none. It takes no memory, and
/// never fails.
pub fn judge(design: &Design) -> Result<Option<Refusal>, NoMemory>
    requires { IsSound design.now }
    ensures ok { IsOk result }
    ensures some { IfOk result (λ found. IfSome found (IsLeastPortFault design.now)) }
    ensures none { IfOk result (λ found. IfNone found (HoldsNowhere (MeetsPortFault design.now))) }
{
    least_fault_is_looked_at();
    let stages = first_stages(design);
    Ok(least_of(design, &stages, &KINDS))
}
