//! The ports of a stage, served one after another in an order in which each finds the nets of its users' operands.
ghost use Rattle.std.specs.Prelude.{◌≡◌, ◌∷◌, [], codes, OnOk};
ghost use Rattle.std.specs.List.{AllByRecursion as Each};
ghost use Rattle.ap_net.specs.Draft.{CanFresh};
ghost use Rattle.ap_stage.specs.Chained.{AreApart, AreNodes, IsFull, IsNode, IsServedNode, IsWhole, UsesOnly};
ghost use Rattle.ap_stage.specs.Courses.{AreSame, CanServe, GoOn, IsCourse, users_of};
ghost use Rattle.ap_stage.specs.Served.{ServesNodes, StayReady, port_of};
ghost use Rattle.ap_stage.specs.Sources.{IsGround};

use crate::node::Course;
use crate::serve::{QuickUnit, ReadPort, SlowUnit, serve_quick, serve_read, serve_slow};
use crate::source::Ground;
use ap_bits::NoMemory;
use ap_net::builder::Builder;
use ap_net::module::Module;

/// A port of a stage whose results go to locals.
#[derive(Drop)]
pub enum Node {
    /// A unit that takes one cycle.
    Quick(QuickUnit),
    /// A unit that takes several cycles.
    Slow(SlowUnit),
    /// A read port of a file or a memory.
    Read(ReadPort),
}

/// Serves a port, where all operands of its users have nets.
fn serve_node(
    out: &mut Builder,
    ground: &Ground,
    courses: &mut [Course],
    node: &Node,
    modules: &[Module],
) -> Result<(), NoMemory>
    requires top { out.old.name ≡ codes "top" }
    requires fresh { CanFresh out.old }
    requires ground { IsGround out.old.nets ground.now }
    requires courses { Each (IsCourse out.old ground.now) courses.old }
    requires node { IsNode out.old ground.now courses.old modules.now node.now }
    requires can { CanServe (users_of (port_of node.now) courses.old) }
    ensures courses { OnOk result (Each (IsCourse out.new ground.now) courses.new) }
    ensures go_on { OnOk result (GoOn (port_of node.now) courses.old courses.new) }
    ensures served { OnOk result
        (IsServedNode out.new ground.now modules.now courses.new node.now) }
    ensures serves { OnOk result (ServesNodes (node.now ∷ []) out.old out.new) }
    ensures ready { OnOk result (StayReady ground.now (node.now ∷ []) out.old courses.old out.new
        courses.new) }
{
    match node {
        Node::Quick(unit) => {
            serve_quick(out, ground, courses, unit, &modules[unit.module as usize])?;
            Ok(())
        }
        Node::Slow(unit) => {
            serve_slow(out, ground, courses, unit)?;
            Ok(())
        }
        Node::Read(read) => {
            serve_read(out, ground, courses, read)?;
            Ok(())
        }
    }
}

/// Serves the ports of a stage once each, for all instructions that use them, and gives their results to these. The ports stand in an order
/// in which the operands of each one's users come, by wiring, from results of ports before it alone, as a chain order has it.
pub fn serve_stage(
    out: &mut Builder,
    ground: &Ground,
    courses: &mut [Course],
    nodes: &[Node],
    modules: &[Module],
) -> Result<(), NoMemory>
    requires top { out.old.name ≡ codes "top" }
    requires fresh { CanFresh out.old }
    requires ground { IsGround out.old.nets ground.now }
    requires courses { Each (IsCourse out.old ground.now) courses.old }
    requires whole { Each IsWhole courses.old }
    requires nodes { AreNodes out.old ground.now courses.old nodes.now modules.now 0 }
    requires apart { AreApart nodes.now }
    requires only { Each (UsesOnly nodes.now) courses.old }
    ensures courses { OnOk result (Each (IsCourse out.new ground.now) courses.new) }
    ensures same { OnOk result (AreSame courses.old courses.new) }
    ensures full { OnOk result (Each IsFull courses.new) }
    ensures served { OnOk result
        (Each (IsServedNode out.new ground.now modules.now courses.new) nodes.now) }
    ensures serves { OnOk result (ServesNodes nodes.now out.old out.new) }
    ensures ready { OnOk result (StayReady ground.now nodes.now out.old courses.old out.new
        courses.new) }
{
    for place in 0..nodes.len() {
        serve_node(out, ground, courses, &nodes[place], modules)?;
    }
    Ok(())
}
