// Choices and outputs.
use quantiser::{Palette, Quantiser, SideBySide, Threshold};
use refusal::Refusal;
use std::test::Fail;
use tone::{Colour, Grey, Pair, Tone};

fn grey(value: i32) -> Grey {
    Grey { value }
}

fn colour(red: i32, green: i32, blue: i32) -> Colour {
    Colour {
        red: grey(red),
        green: grey(green),
        blue: grey(blue),
    }
}

#[test]
fn threshold_takes_its_own_value_up(rt: HostRuntime) {
    let threshold = Threshold { least: 128 };
    assert_eq!(rt; threshold.choose(grey(128)), 1);
    assert_eq!(rt; threshold.choose(grey(127)), 0);
    assert_eq!(rt; threshold.choose(grey(i32::MIN)), 0);
    assert_eq!(rt; threshold.output(1), grey(255));
    assert_eq!(rt; threshold.output(0), grey(0));
    assert_eq!(rt; threshold.output(2), grey(0));
}

#[test]
fn palette_takes_the_lower_of_equals(rt: HostRuntime) {
    let mut palette = Palette::new();
    assert_eq!(rt; palette.write(&[0, 0, 0, 254, 0, 0]), Ok(()));
    assert_eq!(rt; palette.choose(colour(127, 0, 0)), 0);
    assert_eq!(rt; palette.choose(colour(128, 0, 0)), 1);
    assert_eq!(rt; palette.choose(colour(i32::MIN, i32::MIN, i32::MIN)), 0);
    assert_eq!(rt; palette.output(1), colour(254, 0, 0));
    assert_eq!(rt; palette.output(2), colour(0, 0, 0));
}

#[test]
fn palette_refuses_other_lengths(rt: HostRuntime) {
    let mut palette = Palette::new();
    assert_eq!(rt; palette.count(), 1);
    assert_eq!(rt; palette.write(&[]), Err(Refusal::PaletteLength));
    assert_eq!(rt; palette.write(&[7; 49]), Err(Refusal::PaletteLength));
    assert_eq!(rt; palette.write(&[7; 51]), Err(Refusal::PaletteLength));
    assert_eq!(rt; palette.write(&[7; 4]), Err(Refusal::PaletteLength));
    assert_eq!(rt; palette.count(), 1);
    assert_eq!(rt; palette.write(&[7; 48]), Ok(()));
    assert_eq!(rt; palette.count(), 16);
}

#[test]
fn side_by_side_joins_codes(rt: HostRuntime) -> Result<(), Fail> {
    let mut palette = Palette::new();
    assert_eq!(rt; palette.write(&[0, 0, 0, 9, 0, 0, 99, 0, 0]), Ok(()));
    let both = SideBySide::new(Threshold { least: 128 }, palette)?;
    assert_eq!(rt; both.count(), 6);
    let tone = Pair {
        first: grey(200),
        second: colour(90, 0, 0),
    };
    assert_eq!(rt; both.choose(tone), 5);
    let net = Pair {
        first: grey(255),
        second: colour(99, 0, 0),
    };
    assert_eq!(rt; both.output(5), net);
    assert_eq!(rt; both.output(7), Pair::zero());
    Ok(())
}

#[test]
fn side_by_side_has_at_most_254_codes(rt: HostRuntime) -> Result<(), Fail> {
    let mut palette = Palette::new();
    assert_eq!(rt; palette.write(&[7; 48]), Ok(()));
    assert!(rt; SideBySide::new(palette, palette).is_err());
    let one = SideBySide::new(palette, Threshold { least: 0 })?;
    assert!(rt; SideBySide::new(one, Palette::new()).is_ok());
    Ok(())
}
