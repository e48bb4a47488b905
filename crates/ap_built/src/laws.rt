//! Laws of the definitions. They do nothing: their contracts are what they say.
ghost use Rattle.ap_built.specs.FileReads.{FilesJoinReads};
ghost use Rattle.ap_built.specs.Front.{FrontsGiveBorder};
ghost use Rattle.ap_built.specs.Ordered.{OrderedTopsAreBuilt};
ghost use Rattle.ap_built.specs.Running.{MadeTopsRun};
ghost use Rattle.ap_built.specs.Top.{TopsAreProcessors};

use ap_bank::laws::{files_give_the_border, regs_give_the_border};
use ap_data::laws::{stages_have_data, units_are_asked};
use ap_steps::laws::{built_modules_are_finished, tops_are_ready};
use ap_values::laws::effects_are_by_data;
use ap_whole::laws::{homes_are_found, whole_processors_run};

/// Where a draft has the pc, the registers of flights and control, driven and by their names, they are what the border asks of them: with
/// the homes that the table of slots gives to live locals.
pub fn fronts_give_the_border()
    ensures { FrontsGiveBorder }
{
    homes_are_found();
}

/// The read ports of a register file, as the border has it, are joined to the nets over which the file was placed.
pub fn files_join_reads()
    ensures { FilesJoinReads }
{}

/// A top whose pieces stand as their crates say of them is a whole processor: what the border asks of each comes from the piece's own law,
/// over the same registers, nets of control, files and homes.
pub fn tops_are_processors()
    ensures { TopsAreProcessors }
{
    fronts_give_the_border();
    regs_give_the_border();
    files_give_the_border();
    files_join_reads();
    stages_have_data();
    units_are_asked();
    effects_are_by_data();
}

/// A top whose drafts follow each other in the steps in which it is built, where what came in each step follows from the nets that it should,
/// is built in steps: all its nets are ready in the end.
pub fn ordered_tops_are_built()
    ensures { OrderedTopsAreBuilt }
{
    tops_are_ready();
}

/// A top that was built in steps of its pieces, over any modules that have the parts of its design, ends a netlist with them. The netlist runs
/// on every image and trace and for every number of cycles, and each run keeps the machine's state before each cycle and shows its rows.
pub fn made_tops_run()
    ensures { MadeTopsRun }
{
    built_modules_are_finished();
    tops_are_processors();
    whole_processors_run();
}
