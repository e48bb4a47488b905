//! The data of a stage: its instructions begin, and then its ports are served.
ghost use Rattle.std.specs.Prelude.{◌≡◌, codes, IfOk};
ghost use Rattle.std.specs.List.{AllByRecursion as Each};
ghost use Rattle.ap_desc.specs.Chains.{IsChainOrder};
ghost use Rattle.ap_net.specs.Draft.{CanFresh};
ghost use Rattle.ap_pipe.specs.Slots.{AreHomes};
ghost use Rattle.ap_stage.specs.Trees.{IsShallow};
ghost use Rattle.ap_stages.specs.Begun.{AreShared, AreStageNets, base_numbers};
ghost use Rattle.ap_stages.specs.Staged.{AreChoicesOf, IsStaged};
ghost use Rattle.ap_stages.specs.Stood.{AreApartSupplies, AreStanding};

use crate::begin::{SharedNets, StageNets, begin_stage};
use crate::nodes::{Supplied, stage_nodes};
use ap_bits::NoMemory;
use ap_desc::design::{Design, Node as DesignNode};
use ap_merge::Choice;
use ap_net::builder::Builder;
use ap_net::module::Module;
use ap_pipe::StageSlots;
use ap_stage::chain::{Node, serve_stage};
use ap_stage::node::Course;
use ap_stage::source::Ground;

/// A stage whose ports serve its instructions.
#[derive(Drop)]
pub struct ServedStage {
    pub ground: Ground,
    /// The instructions of the design, in their order, each with a net for each local that its lines make in the stage.
    pub courses: Vec<Course>,
    pub nodes: Vec<Node>,
}

/// Makes the data of a stage: `table` has its slots and the homes of its live locals, `choices` are those of the design's paths, `order` is
/// a chain order of the stage's nodes, and `supplies` has with what each of these is served.
pub fn make_stage(
    out: &mut Builder,
    design: &Design,
    number: u32,
    table: &StageSlots,
    choices: &[Choice],
    order: &[DesignNode],
    supplies: &[Supplied],
    modules: &[Module],
    shared: &SharedNets,
    own: &StageNets,
) -> Result<ServedStage, NoMemory>
    requires top { out.old.name ≡ codes "top" }
    requires fresh { CanFresh out.old }
    requires homes { AreHomes design.now number table.now.widths table.now.homes }
    requires choices { AreChoicesOf design.now choices.now }
    requires order { IsChainOrder design.now number order.now }
    requires stand { AreStanding design.now out.old modules.now supplies.now order.now }
    requires apart { AreApartSupplies supplies.now }
    requires shared { AreShared design.now out.old.nets shared.now }
    requires own { AreStageNets design.now out.old.nets table.now own.now }
    requires low { Each (IsShallow out.old 0) (base_numbers shared.now own.now) }
    ensures { IfOk result (λ s. IsStaged design.now number table.now choices.now supplies.now order.now
        modules.now shared.now own.now out.old out.new s.ground s.courses.items s.nodes.items) }
{
    let nodes = stage_nodes(out.allocator(), design, choices, supplies, order)?;
    let begun = begin_stage(out, design, number, table, shared, own)?;
    let ground = begun.ground;
    let mut courses = begun.courses;
    serve_stage(out, &ground, &mut courses, &nodes, modules)?;
    Ok(ServedStage {
        ground,
        courses,
        nodes,
    })
}
