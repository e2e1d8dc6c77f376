// Sums, differences and shares.
use tone::{Colour, Grey, Pair, Tone};

fn grey(value: i32) -> Grey {
    Grey { value }
}

fn pair<L, R>(first: L, second: R) -> Pair<L, R> {
    Pair { first, second }
}

fn colour(red: i32, green: i32, blue: i32) -> Colour {
    Colour {
        red: grey(red),
        green: grey(green),
        blue: grey(blue),
    }
}

#[test]
fn shares_are_cut_toward_zero(rt: HostRuntime) {
    assert_eq!(rt; grey(-5).share(2, 3), grey(-3));
    assert_eq!(rt; grey(5).share(2, 3), grey(3));
    assert_eq!(rt; grey(i32::MAX).share(11, 12), grey(1968526676));
    assert_eq!(rt; grey(i32::MIN).share(11, 12), grey(-1968526677));
    assert_eq!(rt; grey(i32::MIN).share(1, 2), grey(-1073741824));
}

#[test]
fn shares_are_zero_outside_their_weights(rt: HostRuntime) {
    assert_eq!(rt; grey(100).share(0, 3), grey(0));
    assert_eq!(rt; grey(100).share(3, 3), grey(0));
    assert_eq!(rt; grey(100).share(1, 13), grey(0));
}

#[test]
fn sums_wrap(rt: HostRuntime) {
    assert_eq!(rt; grey(i32::MAX).sum(grey(1)), grey(i32::MIN));
    assert_eq!(rt; grey(i32::MIN).difference(grey(1)), grey(i32::MAX));
    assert_eq!(rt; tone::total(&[grey(100), grey(-45), grey(7)]), grey(62));
}

#[test]
fn pairs_of_pairs_go_half_by_half(rt: HostRuntime) {
    let four = pair(pair(grey(1), grey(-2)), pair(grey(30), grey(-31)));
    assert_eq!(rt;
        four.sum(four),
        pair(pair(grey(2), grey(-4)), pair(grey(60), grey(-62)))
    );
    assert_eq!(rt;
        four.share(2, 3),
        pair(pair(grey(0), grey(-1)), pair(grey(20), grey(-20)))
    );
}

#[test]
fn colours_go_channel_by_channel(rt: HostRuntime) {
    let whole = colour(9, -9, 4);
    assert_eq!(rt; whole.share(1, 4), colour(2, -2, 1));
    assert_eq!(rt; Colour::zero().difference(whole), colour(-9, 9, -4));
}
