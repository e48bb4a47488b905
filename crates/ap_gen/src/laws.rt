//! Laws of the definitions. They do nothing: their contracts are what they say.
ghost use Rattle.ap_gen.specs.Started.{KnownAreSlow, LeadsAreControlled};
ghost use Rattle.ap_gen.specs.Whole.{TopsAreBuilt, TopsAreOrdered, TopsFitParts};

use ap_act::laws::acts_are_made;
use ap_flow::laws::{flows_give_the_front, flows_leave};
use ap_lead::laws::{idle_ports_are_off, lead_gives_storages, lead_leaves_rest};
use ap_rest::laws::{idle_memories_are_off, reads_are_served, rests_grow};
use ap_staged::laws::{leads_serve_stages, staged_are_of, stages_are_made_over};
use ap_stages::laws::stages_are_made;
use ap_work::laws::{open_fronts_stand, work_serves_the_border, work_stands};

/// Over the first part of a `top` the second can be made, of modules that the top knows.
pub fn top_can_start()
    ensures leads { LeadsAreControlled }
    ensures modules { KnownAreSlow }
{
    lead_leaves_rest();
    open_fronts_stand();
}

/// A `top` that was put together is built of the pieces of a processor, whatever the modules are that have the parts of its design.
pub fn tops_are_built()
    ensures { TopsAreBuilt }
{
    lead_leaves_rest();
    lead_gives_storages();
    idle_ports_are_off();
    work_stands();
    work_serves_the_border();
    leads_serve_stages();
    stages_are_made_over();
    staged_are_of();
    stages_are_made();
    rests_grow();
    idle_memories_are_off();
    acts_are_made();
    flows_give_the_front();
    flows_leave();
}

/// What came in each step of a `top` that was put together of its parts is in order.
pub fn tops_are_ordered()
    ensures { TopsAreOrdered }
{
    reads_are_served();
}

/// The instances of a `top` that was put together of its parts are instances of any modules that have the parts of the design.
pub fn tops_fit_parts()
    ensures { TopsFitParts }
{}
