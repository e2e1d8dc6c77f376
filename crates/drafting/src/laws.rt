// What ties the file that is written to the definition of a draft. The function is the bearer of a theorem and computes nothing.
ghost use Rattle.drafting.specs.Drafts.{EverySquareIsDrafted};

// In the file each square of the drawing has its bit, found by division: 1, clothed, where the definition's code is 0.
pub fn every_square_is_drafted()
    ensures { EverySquareIsDrafted }
{}
