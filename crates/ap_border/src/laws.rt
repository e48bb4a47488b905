//! Laws of the definitions. They do nothing: their contracts are what they say.
ghost use Rattle.ap_border.specs.Control.{ControlIsShown, ValidBitsGo, ValidBitsStart};
ghost use Rattle.ap_border.specs.Fetch.{FetchIsShown, FetchStarts};
ghost use Rattle.ap_border.specs.Files.{CellsAreStored, StoragesGo};
ghost use Rattle.ap_border.specs.Flights.{FlightsGoOn};
ghost use Rattle.ap_border.specs.Units.{BusyGoesByGo};
ghost use Rattle.ap_border.specs.Processor.{ProcessorsAreCircuits, ProcessorsAreTheMachine, ProcessorsHaveRegisters};
ghost use Rattle.ap_border.specs.SlowUnits.{AgesAreShown, BusyIsShown};
ghost use Rattle.ap_border.specs.StageData.{InstrsAreRead};
ghost use Rattle.ap_border.specs.StageShown.{CompleteProcessorsAreTheMachine, DataAreShown};
ghost use Rattle.ap_border.specs.Storages.{PortsAreShown, RegsAreStored};
ghost use Rattle.ap_border.specs.Named.{NamesAreRead, PartsAreRead, RegistersAreRead};

use ap_store::cells_go_alone;

/// What a run has by a name is in each cycle the value of the net of that name, in top and in the parts of instances; what a register
/// takes it holds in the next cycle.
pub fn names_are_read()
    ensures nets { NamesAreRead }
    ensures registers { RegistersAreRead }
    ensures parts { PartsAreRead }
{}

/// Where a draft has control, the signals of each cycle of its run show it: which stages are busy and held, and whether a transfer is
/// taken. All stages are empty at the start, and from then on their valid bits are what control means.
pub fn control_is_shown()
    ensures shows { ControlIsShown }
    ensures starts { ValidBitsStart }
    ensures goes { ValidBitsGo }
{}

/// Where a draft has the pc beside control, the word at the pc is fetched in each cycle, and the pc takes what the border asks.
pub fn fetch_is_shown()
    ensures goes { FetchIsShown }
    ensures starts { FetchStarts }
{}

/// Where a draft has the registers of flights and the valid bits go on as the border asks, words, addresses and locals pass from stage to
/// stage, and stay where a stage is held.
pub fn flights_go_on()
    ensures { FlightsGoOn }
{}

/// Where a draft has the registers of a design, what is shown through a port is a write of that port, and registers and memories store
/// what is shown.
pub fn registers_store_writes()
    ensures ports { PortsAreShown }
    ensures stores { RegsAreStored }
{}

/// Whether a unit of several cycles is busy follows from what it was asked in earlier cycles and from `go`, and not from its operands.
pub fn busy_goes_by_go()
    ensures { BusyGoesByGo }
{}

/// Where a draft has the units of several cycles, their ages go on as the border asks, and the stages that use them show that they are busy
/// where earlier cycles asked them properly.
pub fn slow_units_are_shown()
    ensures ages { AgesAreShown }
    ensures busy { BusyIsShown }
{}

/// Where a draft has the register files of a design, each cell stores what is written to it, in the order of the groups. So all storages
/// store what is shown.
pub fn files_store_writes()
    ensures cells { CellsAreStored }
    ensures storages { StoragesGo }
{
    cells_go_alone();
}

/// All pieces together: where besides the stages' data show what the border asks of them, a processor's netlist keeps the machine's state
/// before each cycle and shows its rows.
pub fn processors_are_the_machine()
    ensures circuits { ProcessorsAreCircuits }
    ensures registers { ProcessorsHaveRegisters }
    ensures machine { ProcessorsAreTheMachine }
{
    cells_go_alone();
}

/// Where a draft has an instruction's data in a stage, in a cycle in which the stage has a flight of it the values of its operands meet the
/// equations of its lines, but for units that take several cycles.
pub fn instructions_are_read()
    ensures { InstrsAreRead }
{}

/// Where a draft has the data of all stages' instructions, these show what the border asks of them. So a complete processor is the machine.
pub fn complete_processors_are_the_machine()
    ensures data_shown { DataAreShown }
    ensures machine { CompleteProcessorsAreTheMachine }
{
    cells_go_alone();
}
