use super::*;

#[test]
fn classes(rt: HostRuntime) {
    for (expected, got, want) in [
        (0, 0, Class::Expected),
        (0xFF_FFFF, 0xFF_FFFF, Class::Expected),
        (0, 0xFF_FFFF, Class::Duplicate(1)),
        (0, 0x80_0000, Class::Duplicate(0x80_0000)),
        (0, 0x7F_FFFF, Class::Ahead),
        (0, 1, Class::Ahead),
        (0x80_0000, 0, Class::Duplicate(0x80_0000)),
        (0x80_0000, 0xFF_FFFF, Class::Ahead),
        (0xFF_FFFF, 0, Class::Ahead),
        (1, 0xFF_FFFE, Class::Duplicate(3)),
    ] {
        assert!(rt; expected < 0x100_0000 && got < 0x100_0000);
        assert_eq!(rt; classify(expected, got), want, "{expected} {got}");
    }
}

#[test]
fn whole_numbers(rt: HostRuntime) {
    for (near, got, want) in [
        (0x100_0000, 0xFF_FFFF, 0xFF_FFFF),
        (0x100_0000, 1, 0x100_0001),
        (0x100_0000, 0, 0x100_0000),
        (0x100_0000, 0x80_0000, 0x80_0000),
        (0x100_0000, 0x7F_FFFF, 0x17F_FFFF),
        (0x80_0000, 0, 0),
        (0x80_0000, 0xFF_FFFF, 0xFF_FFFF),
        (0x8000_0000_0000_0000, 0xFF_FFFF, 0x7FFF_FFFF_FFFF_FFFF),
        (0x8000_0000_0000_0000, 2, 0x8000_0000_0000_0002),
    ] {
        assert!(rt; 0x80_0000 <= near && near <= 0x8000_0000_0000_0000);
        assert_eq!(rt; widen(near, got), want, "{near} {got}");
    }
}
