// What the two formats are good for, apart from what is refused. Each function is the bearer of a theorem and computes nothing.
ghost use Rattle.netpbm.specs.Files.{EveryDrawingIsRead};
ghost use Rattle.netpbm.specs.Pbm.{EverySquareHasItsBit};

// Every drawing that is written as a plain PGM, with any separators between the numbers, is read as that drawing.
pub fn every_drawing_is_read()
    ensures { EveryDrawingIsRead }
{}

// In the PBM of a draft every square has its bit at its row and column, and every spare bit is 0.
pub fn every_square_has_its_bit()
    ensures { EverySquareHasItsBit }
{}
