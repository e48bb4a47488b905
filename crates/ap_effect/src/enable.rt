//! Whether something is written through a port: a balanced tree of `|` over its writers.
ghost use Rattle.std.specs.Prelude.{◌≤◌, IfOk, length};
ghost use Rattle.std.specs.List.{AllByRecursion as Each, list_any};
ghost use Rattle.ap_net.specs.Draft.{CanFresh};
ghost use Rattle.ap_ctl.specs.Building.{Tells};
ghost use Rattle.ap_stage.specs.Wiring.{IsWiring};
ghost use Rattle.ap_effect.specs.Writers.{IsGuarded, is_acting, writer_numbers, writing_numbers};

use crate::gate::{both, either};
use crate::write::Writer;
use ap_bits::NoMemory;
use ap_net::builder::Builder;
use ap_net::cell::Wire;

/// Whether a writer acts where its stage fires: its condition is 1, and so is its guard, where it has one.
fn acts(out: &mut Builder, writer: Writer) -> Result<Wire, NoMemory>
    requires fresh { CanFresh out.old }
    requires writer { IsGuarded out.old.nets writer }
    ensures tells { IfOk result (Tells out.new (λ r. is_acting r writer)) }
    ensures wiring { IfOk result (IsWiring (writer_numbers writer) out.old out.new) }
{
    match writer.guard {
        None => Ok(writer.cond),
        Some(guard) => {
            let acts = both(out, writer.cond, guard)?;
            Ok(acts)
        }
    }
}

/// Whether one of these writers acts where their stage fires. A writer without a guard takes no cell of its own.
pub fn any_acts(out: &mut Builder, writers: &[Writer]) -> Result<Wire, NoMemory>
    requires fresh { CanFresh out.old }
    requires some { 1 ≤ length writers.now }
    requires writers { Each (IsGuarded out.old.nets) writers.now }
    ensures tells { IfOk result (Tells out.new (λ r. list_any (is_acting r) writers.now)) }
    ensures wiring { IfOk result (IsWiring (writing_numbers writers.now) out.old out.new) }
{
    if writers.len() == 1 {
        let alone = acts(out, writers[0])?;
        return Ok(alone);
    }
    let middle = writers.len() / 2;
    let first = any_acts(out, &writers[..middle])?;
    let second = any_acts(out, &writers[middle..])?;
    let any = either(out, first, second)?;
    Ok(any)
}
