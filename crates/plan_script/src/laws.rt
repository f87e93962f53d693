//! The laws of plans. Each is proved, and does nothing: a caller has it by the call.
ghost use Rattle.plan_script.specs.Scripts.{PlansSettle, ScriptsPerform};

/// A script of a plan is performed, event by event, and leads to the world of the plan. So all that is proved of
/// scripts is true of what threads did by a plan.
pub fn scripts_of_plans_are_performed<X>()
    ensures perform { ScriptsPerform X }
{}

/// A plan that ends in a settling releases all: each thread has taken and ended its inputs of the whole capture, and
/// what was released is what the run sends out, each output once.
pub fn plans_that_settle_release_all<X>()
    ensures settle { PlansSettle X }
{}
