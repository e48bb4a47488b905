//! From the index of a cell to a line for each cell.
ghost use Rattle.std.specs.Prelude.{◌≡◌, ◌*◌, ◌^◌, IfOk, OnOk, All, length};
ghost use Rattle.ap_net.specs.Cells.{IsNet};
ghost use Rattle.ap_net.specs.Draft.{CanFresh, Means};
ghost use Rattle.ap_net.specs.Making.{Makes};
ghost use Rattle.ap_comb.specs.Choices.{IsOfWidth, values_of};
ghost use Rattle.ap_store.specs.Writers.{one_hot, split_lines};

use ap_bits::NoMemory;
use ap_comb::parts::bit;
use ap_net::builder::Builder;
use ap_net::cell::{Cell, TwoOp, Wire};

/// Two lines for each line: the first is as it where the net `bit` is 0, the second where it is 1, and the other one is 0.
#[tactic(auto, using(ap_net::proofs::Laws::laws))]
fn split(out: &mut Builder, bit: Wire, lines: &[Wire]) -> Result<Vec<Wire>, NoMemory>
    requires fresh { CanFresh out.old }
    requires bit { IsNet out.old.nets bit }
    requires one_bit { bit.width ≡ 1 }
    requires lines { All (IsOfWidth out.old.nets 1) lines.now }
    ensures count { IfOk result (λ made. length made.items ≡ 2 * length lines.now) }
    ensures nets { IfOk result (λ made. All (IsOfWidth out.new.nets 1) made.items) }
    ensures value { IfOk result (λ made. Means out.old out.new (λ read.
        values_of read made.items ≡ split_lines (read bit.number) (values_of read lines.now))) }
    ensures makes { OnOk result (Makes out.old out.new) }
{
    let opposite = out.make(1, Cell::Not(bit))?;
    let mut made = Vec::new(out.allocator());
    for line in lines {
        let first = out.make(1, Cell::Two(TwoOp::And, *line, opposite))?;
        let second = out.make(1, Cell::Two(TwoOp::And, *line, bit))?;
        made.push(first)?;
        made.push(second)?;
    }
    Ok(made)
}

/// A line of one bit for each value of the net `index`: it is as `on` where the index has this value, and else 0.
#[tactic(auto, using(ap_net::proofs::Laws::laws))]
pub(crate) fn decoded(out: &mut Builder, index: Wire, on: Wire) -> Result<Vec<Wire>, NoMemory>
    requires fresh { CanFresh out.old }
    requires index { IsNet out.old.nets index }
    requires on { IsOfWidth out.old.nets 1 on }
    ensures count { IfOk result (λ lines. length lines.items ≡ 2 ^ index.width) }
    ensures nets { IfOk result (λ lines. All (IsOfWidth out.new.nets 1) lines.items) }
    ensures value { IfOk result (λ lines. Means out.old out.new (λ read. values_of read lines.items
        ≡ one_hot (read on.number) (read index.number) (2 ^ index.width))) }
    ensures makes { OnOk result (Makes out.old out.new) }
{
    let mut lines = Vec::new(out.allocator());
    lines.push(on)?;
    let mut place = index.width;
    while place > 0 {
        place -= 1;
        let chosen = bit(out, index, place)?;
        lines = split(out, chosen, &lines)?;
    }
    Ok(lines)
}
