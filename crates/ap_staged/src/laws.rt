//! Laws of the definitions. They do nothing: their contracts are what they say.
ghost use Rattle.ap_staged.specs.Grounds.{DrivenAreNamed, GroundsAreNamed, SharedAreNamed};
ghost use Rattle.ap_staged.specs.Led.{LeadFilesStand, LeadsBankReads, LeadsHaveReadNets, LeadsNameShared, PlacedWiresAreApart};
ghost use Rattle.ap_staged.specs.Ports.{FileReadsAreOf, KnownAreQuick, MemReadsAreOf, QuickUnitsAreOf, SlowPortsArePlaced, SlowUnitsAreOf, SuppliedPortsAreOf};
ghost use Rattle.ap_staged.specs.Served.{StagedAreServed};
ghost use Rattle.ap_staged.specs.Stages.{StagedAreOf, StagedStandOver};
ghost use Rattle.ap_staged.specs.Standing.{DeclaredMemsStand, OrdersAreNumbered, PlacedUnitsStand, SuppliesStand};
ghost use Rattle.ap_staged.specs.Together.{EachWasMade};

use ap_values::laws::served_stages_are_of;

/// Where a stage was begun over registers that take what is written to them, and over input ports, the nets on which its lines stand are what
/// they are named for, in each draft that goes on from there.
pub fn grounds_are_named()
    ensures { GroundsAreNamed }
{}

/// The registers and input ports of a `top` are such nets: those of a draft in which the registers stand as they were banked, and those of each
/// draft that goes on from where they were driven.
pub fn shared_are_named()
    ensures banked { SharedAreNamed }
    ensures driven { DrivenAreNamed }
{}

/// The instructions of a stage that was made were started and served, in each draft that goes on from there.
pub fn staged_are_served()
    ensures { StagedAreServed }
{}

/// The modules that a `top` knows serve its units of one cycle. What was placed for a node is the design's: a unit of one cycle computes by its card, over any modules that have the design's parts; a unit
/// over late wires takes several cycles; the read ports of files are joined to the files' instances; the reads of memories are at their ports.
pub fn placed_are_of()
    ensures known { KnownAreQuick }
    ensures quick { QuickUnitsAreOf }
    ensures slow { SlowUnitsAreOf }
    ensures files { FileReadsAreOf }
    ensures mems { MemReadsAreOf }
{}

/// So the ports that a stage makes of its nodes, served with what was placed, are those of the design; and those of several cycles have the wires
/// of the units that were placed.
pub fn supplied_ports_are_of()
    ensures ports { SuppliedPortsAreOf }
    ensures slow { SlowPortsArePlaced }
{}

/// A stage that was made over the front's registers and control's conditions, of what was placed for the design's nodes, is a stage of the design
/// in a finished draft: with the homes that the table of slots gives to live locals.
pub fn staged_are_of()
    ensures stages { StagedAreOf }
    ensures over { StagedStandOver }
{
    served_stages_are_of();
}

/// Where all that was placed stands in a draft, the nodes of the design can be served with it: a stage can be made of them. Units of several
/// cycles stand as they were placed, and memories as their ports were declared, where their wires are driven later still.
pub fn supplies_stand()
    ensures nodes { SuppliesStand }
    ensures orders { OrdersAreNumbered }
    ensures units { PlacedUnitsStand }
    ensures mems { DeclaredMemsStand }
{}

/// Of the stages that were made one after another over the registers of the front and what control decodes, each was made over its own.
pub fn stages_are_made_over()
    ensures { EachWasMade }
{}

/// The first part of a `top` gives to the stages, however the draft grows: registers and input ports by their names, two nets for each read port
/// of its files, the files as they were banked, with their read ports at these nets, and these ports standing where their indices are driven
/// later still.
pub fn leads_serve_stages()
    ensures shared { LeadsNameShared }
    ensures nets { LeadsHaveReadNets }
    ensures reads { LeadsBankReads }
    ensures stand { LeadFilesStand }
{}

/// Where units of several cycles were placed over the first part of a `top`, no two of the wires are one that stages drive: those of the units,
/// the indices at read ports and the addresses at which memories are read.
pub fn placed_wires_are_apart()
    ensures { PlacedWiresAreApart }
{}
