// Grey: one signed channel, laid out as one i32 for callers in C.
ghost use Rattle.std.specs.Prelude.{◌^◌, ◌<◌};
ghost use Rattle.std.specs.Int.Signed.{mag};

#[repr(C)]
#[derive(Clone, Copy, PartialEq, Eq, Debug)]
pub struct Grey {
    pub value: i32,
    // The value has 32 bits (`mag` of n and of -(n + 1) is n), so that the laws hold of every Grey with no premise.
    ghost fits: { mag value < 2 ^ 31 },
}
