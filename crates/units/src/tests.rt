// Spans at the edges of their numbers.
use super::*;

fn bits(first: u32, count: u32) -> Span<ImageBit> {
    Span {
        first: ImageBit(first),
        count,
    }
}

fn bytes(first: u16, count: u32) -> Span<StationByte> {
    Span {
        first: StationByte(first),
        count,
    }
}

// One span, another, whether the first lies within it, whether they meet.
const SPANS: [(u32, u32, u32, u32, bool, bool); 10] = [
    (0, 4, 4, 4, false, false),
    (0, 5, 4, 4, false, true),
    (4, 4, 0, 5, false, true),
    (2, 3, 0, 8, true, true),
    (0, 8, 2, 3, false, true),
    (0, 8, 0, 8, true, true),
    (9, 0, 0, 8, true, false),
    (3, 0, 0, 8, true, false),
    (0, 8, 3, 0, false, false),
    (4294967295, 4294967295, 4294967295, 1, false, true),
];

#[test]
fn spans_end_before_their_end(rt: HostRuntime) {
    for (first, count, other, others, within, meets) in SPANS {
        assert_eq!(rt; bits(first, count).within(&bits(other, others)), within);
        assert_eq!(rt; bits(first, count).meets(&bits(other, others)), meets);
    }
}

#[test]
fn a_span_has_its_first_and_last_unit(rt: HostRuntime) {
    assert!(rt; bits(4, 4).has(&ImageBit(4)));
    assert!(rt; bits(4, 4).has(&ImageBit(7)));
    assert!(rt; !bits(4, 4).has(&ImageBit(8)));
    assert!(rt; !bits(4, 4).has(&ImageBit(3)));
    assert!(rt; !bits(4, 0).has(&ImageBit(4)));
}

#[test]
fn other_units_have_spans_too(rt: HostRuntime) {
    let memory = bytes(0x1000, 0x400);
    assert!(rt; bytes(0x1000, 0x400).within(&memory));
    assert!(rt; bytes(0x13ff, 1).within(&memory));
    assert!(rt; !bytes(0x13ff, 2).within(&memory));
    assert!(rt; !bytes(0x0fff, 2).within(&memory));
    assert!(rt; !bytes(0x1400, 1).meets(&memory));
    let line = Span {
        first: LinePosition(0),
        count: 3,
    };
    assert!(rt; line.has(&LinePosition(2)));
    assert!(rt; !line.has(&LinePosition(3)));
}
