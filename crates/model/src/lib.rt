// The calls on a job as pure functions: on bands of any content, and on sets of squares. Each function here is the bearer of a theorem over
// every kind of tone T, and computes nothing.
#![tactic(auto)]

ghost use Rattle.model.specs.Theorems.{CallsAgreeWithTheModel, AnyCallAgreesWithTheModel, ListsOfCallsAgreeWithTheModel, ReplayJudgesEveryCode, ResumeIsAReplay, EveryListOfCallsKeepsTheDraft, FinishFixesEveryOpenSquare, SameSquaresSameBands, ResumeAcceptsJustWhatHaltWrites};

// Each call on the bands of a closed set gives the bands of the set that the model makes, with the model's answers and outputs.
pub fn calls_agree_with_the_model<T>()
    ensures { CallsAgreeWithTheModel T }
{}

// So does any call with windows of its own into lent memory.
pub fn any_call_agrees_with_the_model<T>()
    ensures { AnyCallAgreesWithTheModel T }
{}

// So does every list of calls.
pub fn lists_of_calls_agree_with_the_model<T>()
    ensures { ListsOfCallsAgreeWithTheModel T }
{}

// The squares that stand in a code band, worked again rank by rank from the drawing: their amounts where every code is the definition's, and
// nothing where one is not.
pub fn replay_judges_every_code<T>()
    ensures { ReplayJudgesEveryCode T }
{}

// What a record is refused with, and the bands that it brings back, are what a replay of its codes says.
pub fn resume_is_a_replay<T>()
    ensures { ResumeIsAReplay T }
{}

// After every list of calls on a new job the fixed squares have the definition's codes and errors, nothing is lost but what is listed, and
// the work can go on until every square is fixed.
pub fn every_list_of_calls_keeps_the_draft<T>()
    ensures { EveryListOfCallsKeepsTheDraft T }
{}

// On bands of any content Finish fixes every open square, and answers how many there were.
pub fn finish_fixes_every_open_square<T>()
    ensures { FinishFixesEveryOpenSquare T }
{}

// Lists of calls that end with the same squares fixed end with the same bands, on two jobs of equal meaning.
pub fn same_squares_same_bands<T>()
    ensures { SameSquaresSameBands T }
{}

// Resume accepts a record just when a list of calls on a new job ends where Halt writes it, and then brings back the bands entire.
pub fn resume_accepts_just_what_halt_writes<T>()
    ensures { ResumeAcceptsJustWhatHaltWrites T }
{}
