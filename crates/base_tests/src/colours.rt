use blend_rules::{
    Mode, Plane, Px, blend, blend_laws, know_bytes, mul, pixel_laws, product_laws, scale,
    scale_laws,
};

#[test]
fn products(rt: HostRuntime) {
    let products = [mul(1, 128), mul(128, 1), mul(128, 127), mul(127, 128)];
    assert!(rt; products == [0, 1, 64, 63]);
}

/// A red that covers half.
const HALF: Px = Px {
    b: 0,
    g: 0,
    r: 128,
    a: 128,
};

const WHITE: Px = Px {
    b: 255,
    g: 255,
    r: 255,
    a: 255,
};

#[test]
fn blends_a_half_over_white(rt: HostRuntime) {
    let pink = Px {
        b: 127,
        g: 127,
        r: 255,
        a: 255,
    };
    assert!(rt; blend(Mode::Normal, HALF, WHITE) == pink);
    assert!(rt; blend(Mode::Normal, Px::CLEAR, HALF) == HALF);
}

#[test]
fn scales_each_channel(rt: HostRuntime) {
    let quarter = Px {
        b: 64,
        g: 64,
        r: 64,
        a: 64,
    };
    assert!(rt; scale(WHITE, 64) == quarter && scale(HALF, 255) == HALF);
}

#[test]
fn channels_stay_at_most_alpha(rt: HostRuntime) {
    assert!(rt; HALF.is_premultiplied() && !Px { g: 129, ..HALF }.is_premultiplied());
    assert!(rt; HALF.channel(Plane::B) == 0 && HALF.channel(Plane::G) == 0);
    assert!(rt; HALF.channel(Plane::R) == 128 && HALF.channel(Plane::A) == 128);
}

#[test]
fn modes_have_numbers(rt: HostRuntime) {
    assert!(rt; Mode::from_byte(0) == Some(Mode::Normal) && Mode::from_byte(9).is_none());
}

#[test]
fn laws_of_colours() {
    product_laws();
    scale_laws();
    blend_laws();
    pixel_laws();
    know_bytes(HALF);
}

/// What each mode makes of blue 100 over 60, and of green 150 over 100, by the number of the mode. Worked by hand.
const BLENDED: [(u8, u8); 9] = [
    (113, 172),
    (78, 143),
    (137, 192),
    (101, 183),
    (102, 162),
    (113, 172),
    (101, 183),
    (66, 94),
    (114, 134),
];

/// Whether a mode makes this of them.
fn blends_to(mode: u8, blue: u8, green: u8) -> bool {
    let source = Px {
        b: 100,
        g: 150,
        r: 0,
        a: 200,
    };
    let backdrop = Px {
        b: 60,
        g: 100,
        r: 0,
        a: 150,
    };
    let Some(mode) = Mode::from_byte(mode) else {
        return false;
    };
    let blended = blend(mode, source, backdrop);
    (blended.b, blended.g, blended.r, blended.a) == (blue, green, 0, 233)
}

#[test]
fn blends_in_each_mode(rt: HostRuntime) {
    for (mode, (blue, green)) in BLENDED.iter().enumerate() {
        assert!(rt; blends_to(mode as u8, *blue, *green), "mode {mode}");
    }
}
