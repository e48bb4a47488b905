//! The nets of an instruction's locals, line by line.
ghost use Rattle.std.specs.Prelude.{◌≡◌, ◌<◌, OnOk, Some, length, slice_set};
ghost use Rattle.ap_net.specs.Draft.{CanFresh};
ghost use Rattle.ap_net.specs.Making.{Makes};
ghost use Rattle.ap_stage.specs.Reads.{AreFrom};
ghost use Rattle.ap_stage.specs.Rows.{AreClosed, AreLines, AreMade, Fills, IsLine, Keeps, StaysElse, StaysLow};
ghost use Rattle.ap_stage.specs.Sources.{IsGround, IsRow, LieIn, source_numbers};

use crate::line::line_net;
use crate::source::{Ground, Scope, net_at};
use ap_bits::NoMemory;
use ap_desc::design::Act;
use ap_net::builder::Builder;
use ap_net::cell::Wire;

/// A line of an instruction that makes a local.
#[derive(Clone, Copy, Debug, PartialEq, Eq)]
pub struct Line {
    pub act: Act,
    /// The number of the local.
    pub local: u32,
}

/// Puts a net at a place of a row.
pub(crate) fn put(row: &mut [Option<Wire>], place: u32, net: Wire)
    requires { place < length row.old }
    ensures { row.new ≡ slice_set row.old place (Some net) }
{
    row[place as usize] = Some(net);
}

/// Gives the line's local a net, where it has none and the line's operands have some.
fn fill(
    out: &mut Builder,
    ground: &Ground,
    scope: &Scope,
    row: &mut [Option<Wire>],
    line: Line,
) -> Result<(), NoMemory>
    requires fresh { CanFresh out.old }
    requires ground { IsGround out.old.nets ground.now }
    requires fields { LieIn ground.now.word.width scope.now }
    requires row { IsRow out.old.nets scope.now row.old }
    requires line { IsLine ground.now scope.now line }
    ensures row { OnOk result (IsRow out.new.nets scope.now row.new) }
    ensures fills { OnOk result (Fills out.new ground.now scope.now row.old row.new line) }
    ensures low { OnOk result (StaysLow ground.now out.old row.old out.new row.new) }
    ensures from { OnOk result (AreFrom (source_numbers ground.now row.old) out.old out.new
        (source_numbers ground.now row.new)) }
    ensures makes { OnOk result (Makes out.old out.new) }
{
    let had = net_at(row, line.local);
    if had.is_some() {
        return Ok(());
    }
    let found = line_net(out, ground, scope, row, line.act)?;
    let Some(net) = found else {
        return Ok(());
    };
    put(row, line.local, net);
    Ok(())
}

/// Gives the locals of these lines nets, as far as what the lines take has some. What has a net keeps it, and no other local gets one. No
/// more `? :` stand before what came than before what was there.
pub fn sweep(
    out: &mut Builder,
    ground: &Ground,
    scope: &Scope,
    lines: &[Line],
    row: &mut [Option<Wire>],
) -> Result<(), NoMemory>
    requires fresh { CanFresh out.old }
    requires ground { IsGround out.old.nets ground.now }
    requires fields { LieIn ground.now.word.width scope.now }
    requires row { IsRow out.old.nets scope.now row.old }
    requires lines { AreLines ground.now scope.now lines.now }
    requires made { AreMade out.old ground.now scope.now row.old lines.now }
    ensures row { OnOk result (IsRow out.new.nets scope.now row.new) }
    ensures made { OnOk result (AreMade out.new ground.now scope.now row.new lines.now) }
    ensures closed { OnOk result (AreClosed row.new lines.now (length lines.now)) }
    ensures keeps { OnOk result (Keeps row.old row.new) }
    ensures others { OnOk result (StaysElse lines.now row.old row.new) }
    ensures low { OnOk result (StaysLow ground.now out.old row.old out.new row.new) }
    ensures from { OnOk result (AreFrom (source_numbers ground.now row.old) out.old out.new
        (source_numbers ground.now row.new)) }
    ensures makes { OnOk result (Makes out.old out.new) }
{
    for line in lines {
        fill(out, ground, scope, row, *line)?;
    }
    Ok(())
}
