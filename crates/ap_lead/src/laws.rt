//! Laws of the definitions. They do nothing: their contracts are what they say.
ghost use Rattle.ap_lead.specs.Idle.{GroupsAreOfUsed, IdlePortsHaveNone, NewNamesAreOff};
ghost use Rattle.ap_lead.specs.Leading.{FilesAreInstances, LeadGivesFiles, LeadGivesRegs, LeadsFollow};
ghost use Rattle.ap_lead.specs.Left.{KnownFilesNeed, LeadFilesStand, LeadsLeaveRest};
ghost use Rattle.ap_lead.specs.Seen.{LeadsAreSeen, LeadsBegin, RegsAreClocked};
ghost use Rattle.ap_lead.specs.Storing.{FilesAreKnown};
ghost use Rattle.ap_lead.specs.Writes.{FileWritesAreShown, RegWritesAreShown};

/// A register or a write port of a file has the outputs that show its writes, with the bits that it wants, where some line writes it, and
/// nothing where none does.
pub fn writes_are_shown()
    ensures regs { RegWritesAreShown }
    ensures files { FileWritesAreShown }
{}

/// The modules of the files are those that stand behind the ones of kinds.
pub fn files_are_known()
    ensures { FilesAreKnown }
{}

/// However the draft grows on, registers take what is written and files are banked, as the border asks.
pub fn lead_gives_storages()
    ensures regs { LeadGivesRegs }
    ensures files { LeadGivesFiles }
{}

/// The instances of the files are instances of any modules that have the parts of the design.
pub fn files_are_instances()
    ensures { FilesAreInstances }
{}

/// What came in each step is among the nets that are known, or follows from them; and each draft grows from the one before.
pub fn leads_follow()
    ensures { LeadsFollow }
{}

/// A top begins with the ports of its outside and with nothing else.
pub fn leads_begin()
    ensures { LeadsBegin }
{}

/// However the draft grows on, and whatever else the outside looks at, it looks at nothing for the registers and the inputs, for the word that
/// is fetched where it is fetched, and for what a memory reads where it is read.
pub fn lead_is_seen()
    ensures { LeadsAreSeen }
{}

/// However the draft grows on, the registers of the description take something.
pub fn lead_is_clocked()
    ensures { RegsAreClocked }
{}

/// The write ports of registers and files that have outputs are those through which some line writes.
pub fn groups_are_used()
    ensures { GroupsAreOfUsed }
{}

/// No net is named for the enable of a register's or a file's write port through which no line writes; so its name, which pieces that come
/// later leave free, reads as 0.
pub fn idle_ports_are_off()
    ensures none { IdlePortsHaveNone }
    ensures off { NewNamesAreOff }
{}

/// What the first part leaves to those that come later: the names of valid bits and units are new, all outputs are driven later, no two ports
/// have one number, and the registers of the front take nothing yet.
pub fn lead_leaves_rest()
    ensures { LeadsLeaveRest }
{}

/// There are an index and a value for each read port of each file, of its bits; the indices are driven later, and each value is ready once its
/// index is.
pub fn lead_files_stand()
    ensures { LeadFilesStand }
{}

/// By the names of the modules that are built for a shelf, files depend as they do.
pub fn files_need_as_known()
    ensures { KnownFilesNeed }
{}
