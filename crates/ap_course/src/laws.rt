//! Laws of the definitions. They do nothing: their contracts are what they say.
ghost use Rattle.ap_course.specs.Choices.{ChoicesGoOverUsers, UsersFitFiles, UsersFitMems, UsersFitUnits};
ghost use Rattle.ap_course.specs.Laws.{FieldsLie, InstrsAreWhole, LinesCanBeMade, LocalsStand, NodesAreOrdered, OperandsHaveOrigins, PortsAreInOrder, UsesAreApart};

/// In a design that fits its cards, what an instruction has in a stage can be made: its fields lie within a code word; its lines without a
/// port name what is there, with the widths that they ask for, and in their order none looks at a local of its own or of a later one;
/// those that use ports make locals of their own.
pub fn instructions_can_be_made()
    ensures fields { FieldsLie }
    ensures lines { LinesCanBeMade }
    ensures uses { UsesAreApart }
{}

/// Where the locals that are live into the stage have their nets, each operand of an instruction's lines comes from somewhere, and no two of
/// its lines use one port. So do the operands of lines that write or transfer.
pub fn instructions_are_whole()
    ensures whole { InstrsAreWhole }
    ensures operands { OperandsHaveOrigins }
{}

/// Where the live locals of a stage have their homes, those of an instruction stand in the slots: each in one that has room for it, none
/// twice, and none that a line of the stage makes.
pub fn live_locals_stand_in_slots()
    ensures { LocalsStand }
{}

/// The port of each line stands once in the order of the stage's nodes, and all ports from which the line's operands come by wiring stand
/// before it.
pub fn ports_are_in_order()
    ensures { PortsAreInOrder }
{}

/// Where nodes stand in a chain order, their ports do so for the stage's instructions: each that these use is there, once, and what an
/// operand takes from a port by wiring comes from one before.
pub fn nodes_are_ordered()
    ensures { NodesAreOrdered }
{}

/// Of a design that fits its cards, the choice for the first operand of a node goes over the instructions of its stage that use it.
pub fn choices_go_over_users()
    ensures { ChoicesGoOverUsers }
{}

/// The instructions that use a node of a stage fit it: operations are of the unit's card, operands, indices and addresses have the widths that
/// are asked for, and the local that gets the result has its width.
pub fn users_fit_nodes()
    ensures units { UsersFitUnits }
    ensures files { UsersFitFiles }
    ensures mems { UsersFitMems }
{}
