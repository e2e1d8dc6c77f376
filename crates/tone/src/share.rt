// The share of one channel, on plain numbers.
ghost use Rattle.std.specs.Prelude.{◌≡◌, ◌<◌, ◌≤◌, pos, int_div};
ghost use Rattle.tone.specs.Grey.{part_of};

// x ÷ total, cut toward zero. Each arm divides by a constant, which costs a multiplication and no division.
fn divided(x: i64, total: u8) -> i64
    requires least { 2 ≤ total }
    requires most { total ≤ 12 }
    ensures { result ≡ int_div x (pos total) }
{
    match total {
        2 => x / 2,
        3 => x / 3,
        4 => x / 4,
        5 => x / 5,
        6 => x / 6,
        7 => x / 7,
        8 => x / 8,
        9 => x / 9,
        10 => x / 10,
        11 => x / 11,
        _ => x / 12,
    }
}

// e × weight ÷ total, multiplied in 64 bits and cut toward zero.
pub(crate) fn part(e: i32, weight: u8, total: u8) -> i32
    requires some { 1 ≤ weight }
    requires less { weight < total }
    requires most { total ≤ 12 }
    ensures { result ≡ part_of e weight total }
{
    // A part fits 32 bits, as is proved: `try_from` would answer a Result that is always Ok.
    divided(i64::from(e) * i64::from(weight), total) as i32
}
