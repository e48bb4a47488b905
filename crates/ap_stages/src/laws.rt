//! Laws of the definitions. They do nothing: their contracts are what they say.
ghost use Rattle.ap_stages.specs.Around.{NodesAreDriven, PlacedAreJoined, StagesAreReady, StagesLeaveNames, StagesLeaveNodes, StagesLeaveWires, UnusedAreInNone, UnusedAreUnnamed};
ghost use Rattle.ap_stages.specs.Onward.{OthersStand, SharedGoOn};
ghost use Rattle.ap_stages.specs.Own.{OwnNetsAreReadable};

/// What stands for the nodes of further stages stands on while the ports of a stage are served, where these drive no wire of theirs and no
/// instance that is placed has the name of one of their units. So do the registers and the input ports.
pub fn stages_go_on()
    ensures others { OthersStand }
    ensures shared { SharedGoOn }
{}

/// Once all stages are made: what came, what was driven and all nets of their instructions are ready where the nets on which the stages
/// stand are, and what is given for nodes. A wire that is there for no node is late still, a name that no stage's unit has is new still,
/// and what stands for a node that no stage has stands still. The wires of a node of some stage are driven. Each instance that was placed
/// connects one of the modules.
pub fn stages_are_made()
    ensures ready { StagesAreReady }
    ensures wires { StagesLeaveWires }
    ensures names { StagesLeaveNames }
    ensures nodes { StagesLeaveNodes }
    ensures driven { NodesAreDriven }
    ensures joined { PlacedAreJoined }
{}

/// What is asked of the nets of all stages holds where they are registers of the stages and what control decodes.
pub fn own_nets_are_readable()
    ensures { OwnNetsAreReadable }
{}

/// A node that no line uses is in none of the orders of a design's paths. No unit that is in one has the name of a unit that is in none.
pub fn unused_nodes_are_nowhere()
    ensures orders { UnusedAreInNone }
    ensures names { UnusedAreUnnamed }
{}
