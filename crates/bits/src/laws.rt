// What packed bytes are good for: the bits can be read from them again. The function is the bearer of a theorem and computes nothing.
ghost use Rattle.bits.specs.Bits.{EveryBitIsKept};

// Bit k of packed codes, read by division, is that of the code at k, and 0 where the codes have ended.
pub fn every_bit_is_kept()
    ensures { EveryBitIsKept }
{}
