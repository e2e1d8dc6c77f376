// What follows from the laws, once for every plan. Each function is the bearer of a theorem and computes nothing.
ghost use Rattle.plan.specs.Plane.{DifferModuloPeriods, DifferOnThePlane};

use crate::plan::Plan;

// Squares whose rows and columns are next to one another modulo the periods have different ranks.
pub fn touching_modulo_periods_differ<P: Plan>()
    ensures { (p : P) → DifferModuloPeriods (P.Plan.meaning p) }
{}

// Squares that touch anywhere on the plane, whose rows and columns go without end in all four directions, have different ranks.
pub fn touching_on_the_plane_differ<P: Plan>()
    ensures { (p : P) → DifferOnThePlane (P.Plan.meaning p) }
{}
