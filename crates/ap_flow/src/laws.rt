//! Laws of the definitions. They do nothing: their contracts are what they say.
ghost use Rattle.ap_flow.specs.Border.{FlowsGiveFront, FlowsLeave};
ghost use Rattle.ap_flow.specs.Followed.{FlowsFollow, FlowsGrow};
ghost use Rattle.ap_flow.specs.Served.{ServedCanLeave, StagesCanLeave, StagesHaveInstrs};

use ap_commit::laws::leaving_stands;
use ap_whole::laws::homes_are_found;

/// A stage that was served has the instructions of the design, where its conditions tell which of them its word matches, and the net of each
/// local that is live into the stage after it; so all stages that were served can leave what the next ones take.
pub fn stages_can_leave()
    ensures leave { StagesCanLeave }
    ensures instrs { StagesHaveInstrs }
    ensures all { ServedCanLeave }
{}

/// Each draft grows from the one before, and each register of the front takes something in the end.
pub fn flows_grow()
    ensures { FlowsGrow }
{}

/// What came in each step follows from nets that were there before, by the numbers and the drafts of all of the `top`.
pub fn flows_follow()
    ensures { FlowsFollow }
{}

/// With control, the pc and the registers of the stages are the front of a finished `top`, whatever was built further on.
pub fn flows_give_the_front()
    ensures { FlowsGiveFront }
{}

/// What the instructions of each stage leave is what a whole processor has of the stage.
pub fn flows_leave()
    ensures { FlowsLeave }
{
    leaving_stands();
    homes_are_found();
}
