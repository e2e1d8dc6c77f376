// The theorems that all work on a draft rests on, for every kind of tone T. Each function is the bearer of one, and computes nothing.
ghost use Rattle.diffusion.specs.Theorems.{AmountSatisfiesTheRecursion, NothingElseSatisfiesTheRecursion, FixAddsOneSquare, OrderLeavesNoTrace, TotalIsKept, LossesAreTheFixedBarons, SomeSquareIsReady, NoSquaresAndAllSquaresAreClosed, SweepFixesEveryOpenSquare, SweepFinishesAClosedSet, ReplayGivesTheBandsOfTheSet, CodesTellTheSet, PartsAddUpToTheError, LastHigherNeighbourReceivesTheRest, DraftDependsOnOrderAndTables, PlainDrawingKeepsTheLaws, LawfulDrawing};

use plan::Plan;
use quantiser::Quantiser;

// The amount of a square is the drawing's tone and the parts that its lower neighbours send it.
pub fn amount_satisfies_the_recursion<T>()
    ensures { AmountSatisfiesTheRecursion T }
{}

// Whatever is so at the squares of a drawing is the amount there.
pub fn nothing_else_satisfies_the_recursion<T>()
    ensures { NothingElseSatisfiesTheRecursion T }
{}

// A fix of a ready square on the bands of a closed set gives the bands of the set with that square, which is closed again.
pub fn fix_adds_one_square<T>()
    ensures { FixAddsOneSquare T }
{}

// The bands depend on which squares are fixed, and not on the order in which they were.
pub fn order_leaves_no_trace<T>()
    ensures { OrderLeavesNoTrace T }
{}

// The drawing's total is the outputs of the fixed squares, the losses of the fixed barons and the amounts of the open squares, added.
pub fn total_is_kept<T>()
    ensures { TotalIsKept T }
{}

// The list of losses has each fixed baron once, by rising place, and no other square, with the definition's errors.
pub fn losses_are_the_fixed_barons<T>()
    ensures { LossesAreTheFixedBarons T }
{}

// While a square is open, some square is ready.
pub fn some_square_is_ready()
    ensures { SomeSquareIsReady }
{}

// The set of no square is closed, and so is that of every square.
pub fn no_squares_and_all_squares_are_closed()
    ensures { NoSquaresAndAllSquaresAreClosed }
{}

// A sweep of the ranks leaves no square open, whatever the bands hold, and counts those that were.
pub fn sweep_fixes_every_open_square<T>()
    ensures { SweepFixesEveryOpenSquare T }
{}

// From the bands of a closed set, a sweep of the ranks ends in the bands of all squares.
pub fn sweep_finishes_a_closed_set<T>()
    ensures { SweepFinishesAClosedSet T }
{}

// A sweep of just the squares of a closed set on a new job gives the bands of that set.
pub fn replay_gives_the_bands_of_the_set<T>()
    ensures { ReplayGivesTheBandsOfTheSet T }
{}

// The codes tell which squares are fixed, since no choice is 255.
pub fn codes_tell_the_set<T>()
    ensures { CodesTellTheSet T }
{}

// The parts that a square sends add up to its error.
pub fn parts_add_up_to_the_error<T>()
    ensures { PartsAddUpToTheError T }
{}

// Of the higher neighbours the last receives the error less all other parts, and each other its share by weight.
pub fn last_higher_neighbour_receives_the_rest<T>()
    ensures { LastHigherNeighbourReceivesTheRest T }
{}

// A draft depends on the plan only through the order of neighbouring ranks, and on the quantiser only through its choices and outputs.
pub fn draft_depends_on_order_and_tables<T>()
    ensures { DraftDependsOnOrderAndTables T }
{}

// The squares of a plain drawing under a lawful plan keep the laws of a neighbourhood.
pub fn plain_drawing_keeps_the_laws()
    ensures { PlainDrawingKeepsTheLaws }
{}

// Every drawing under any plan and any quantiser keeps the laws that the theorems ask for.
pub fn every_drawing_is_lawful<P: Plan, Q: Quantiser>()
    ensures { (p : P) (q : Q) → LawfulDrawing Q.Tone.Tone.algebra (P.Plan.meaning p) (Q.Quantiser.tables q) }
{}
