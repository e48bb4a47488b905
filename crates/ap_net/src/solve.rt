ghost use Rattle.ap_net.specs.Flat.{NamesAreFound, RegistersAreFound, NetlistsOpen};
ghost use Rattle.ap_net.specs.Registers.{ResetsFit, TakenFit};
ghost use Rattle.ap_net.specs.Held.{RegistersHold, HeldOnce};
ghost use Rattle.ap_net.specs.Alone.{ModulesAreSolvable, AgreeOnClosedSets, PartsRunAlone};
ghost use Rattle.ap_net.specs.Sources.{AlwaysSolvable, SolvedOnce, AgreeingAreEqual};

/// Whatever inputs and registers are given, in some order that no net leads back to itself, the equations of a netlist
/// have a solution.
#[tactic(auto, using(crate::proofs::Fits::solvable))]
pub fn solution_exists()
    ensures { AlwaysSolvable }
{}

/// Where every net has its driver, there is one solution at most for what inputs and registers are given.
pub fn solution_is_unique()
    ensures given { SolvedOnce }
    ensures agreeing { AgreeingAreEqual }
{}

/// The numbers of nets and registers are found by their names.
#[tactic(auto, using(crate::proofs::Found::found_names))]
pub fn names_are_found()
    ensures nets { NamesAreFound }
    ensures registers { RegistersAreFound }
{}

/// An opened netlist is well formed: the laws on solutions and on names hold of it.
pub fn netlists_open()
    ensures { NetlistsOpen }
{}

/// What the registers of an opened netlist take at the reset edge, and from a solution at each clock edge, fits them.
#[tactic(auto, using(crate::proofs::Registers::edges_fit))]
pub fn registers_fit()
    ensures resets { ResetsFit }
    ensures taken { TakenFit }
{}

/// What a register that is there holds is one value, which the look-up by its name finds.
pub fn registers_hold()
    ensures each { RegistersHold }
    ensures once { HeldOnce }
{}

/// A module without instances, no net of which depends on itself, has a solution whatever its registers and inputs are given,
/// and two that agree at the sources of a set of nets agree on the set, where it has with each net what its cell reads.
pub fn modules_are_solvable()
    ensures solvable { ModulesAreSolvable }
    ensures agreeing { AgreeOnClosedSets }
{}

/// The part of an instance, over the cycles of a netlist's run, is a run of its module alone.
pub fn parts_run_alone()
    ensures { PartsRunAlone }
{}
