//! Laws of the definitions. They do nothing: their contracts are what they say.
ghost use Rattle.ap_work.specs.Leaving.{WorkFitsParts, WorkGrows, WorkLeavesLate};
ghost use Rattle.ap_work.specs.Ordering.{KnownUnitsNeed, WorkFollows};
ghost use Rattle.ap_work.specs.Serving.{WorkServesBorder};
ghost use Rattle.ap_work.specs.Working.{OpenFrontsStand, WorkIsControlled, WorkStands};

use ap_asked::laws::served_units_give_the_border;

/// Open registers and ports are what the second part needs of the first, however the draft grows.
pub fn open_fronts_stand()
    ensures { OpenFrontsStand }
{}

/// Control and its nets stand in each later draft; and once outputs show what it says, as the border asks.
pub fn work_stands()
    ensures nets { WorkStands }
    ensures controlled { WorkIsControlled }
{}

/// Each draft grows from the one before, the valid bits take something, and the instances of units fit any modules that have the parts.
pub fn work_grows()
    ensures grows { WorkGrows }
    ensures parts { WorkFitsParts }
{}

/// What the stages drive is still late: what units wait for, whether a transfer is taken, and all that was late before.
pub fn work_leaves_late()
    ensures { WorkLeavesLate }
{}

/// Over any modules that have the design's parts the units are what the border asks, in each later draft, and so are their busy nets.
pub fn work_serves_the_border()
    ensures { WorkServesBorder }
{
    served_units_give_the_border();
}

/// What came in each step is among the nets that are known, or follows from them.
pub fn work_follows()
    ensures follows { WorkFollows }
    ensures needs { KnownUnitsNeed }
{}
