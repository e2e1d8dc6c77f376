// What Read answers: the drawing's size and the offset behind its last sample, or the refusal's number and the offset of what is at fault. What does not
// apply is 0.
ghost use Rattle.std.specs.Prelude.{◌≡◌};
ghost use Rattle.controller.specs.Readings.{read_told};

use netpbm::{Fault, Picture};

// C reads plain numbers and no enum.
#[repr(C)]
#[derive(Clone, Copy)]
pub struct Reading {
    pub rows: usize,
    pub columns: usize,
    pub end: usize,
    pub offset: usize,
    pub refusal: u8,
}

// A picture that was read, or the fault.
impl From<Result<Picture, Fault>> for Reading {
    ghost from_gives = { λ read told. told ≡ read_told read };

    fn from(read: Result<Picture, Fault>) -> Reading {
        match read {
            Ok(picture) => Reading {
                rows: picture.size.rows,
                columns: picture.size.columns,
                end: picture.end,
                offset: 0,
                refusal: 0,
            },
            Err(fault) => Reading {
                rows: 0,
                columns: 0,
                end: 0,
                offset: fault.offset,
                refusal: fault.refusal.number(),
            },
        }
    }
}
