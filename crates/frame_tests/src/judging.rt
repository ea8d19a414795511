// Which frames are accepted, and under which rule the others are refused.
use crate::making::{frame, head, judged, single, zeros};
use command::{Command, CommandKind};
use frame::read_frame;
use std::test::Fail;

// FPWR to station 0x1001, AL control, two bytes, with another to follow; LRW of three bytes; made by scapy.
const TWO: [u8; 29] = [
    0x05, 0x00, 0x01, 0x10, 0x20, 0x01, 0x02, 0x80, 0x00, 0x00, 0x04, 0x00, 0x00, 0x00, 0x0c, 0x00,
    0x00, 0x00, 0x01, 0x00, 0x03, 0x00, 0x00, 0x00, 0x01, 0x02, 0x03, 0x03, 0x00,
];

#[test]
fn frames_have_60_to_1514_bytes(rt: HostRuntime) -> Result<(), Fail> {
    let heap = rt.alloc();
    assert_eq!(rt; judged(single(heap, 5, 2, 59)?.as_slice()), Err((1, 0)));
    assert_eq!(rt; judged(single(heap, 5, 2, 60)?.as_slice()), Ok(1));
    assert_eq!(rt; judged(single(heap, 5, 2, 1514)?.as_slice()), Ok(1));
    assert_eq!(rt; judged(single(heap, 5, 2, 1515)?.as_slice()), Err((1, 0)));
    assert_eq!(rt; judged(&[]), Err((1, 0)));
    Ok(())
}

#[test]
fn data_have_1_to_1486_bytes(rt: HostRuntime) -> Result<(), Fail> {
    let heap = rt.alloc();
    assert_eq!(rt; judged(single(heap, 5, 0, 60)?.as_slice()), Err((3, 16)));
    assert_eq!(rt; judged(single(heap, 5, 1, 60)?.as_slice()), Ok(1));
    assert_eq!(rt; judged(single(heap, 5, 1486, 60)?.as_slice()), Ok(1));
    let mut long = single(heap, 5, 1487, 60)?;
    long.truncate(1514);
    assert_eq!(rt; judged(long.as_slice()), Err((3, 16)));
    Ok(())
}

#[test]
fn the_frame_itself_comes_first(rt: HostRuntime) -> Result<(), Fail> {
    let heap = rt.alloc();
    let mut other = head(heap, 14, 16)?;
    zeros(&mut other, 44)?;
    assert!(rt; other.len() > 16);
    other[13] = 0;
    assert_eq!(rt; judged(other.as_slice()), Err((2, 12)));
    other[13] = 0xa4;
    other[12] = 0x08;
    assert_eq!(rt; judged(other.as_slice()), Err((2, 12)));
    other[12] = 0x88;
    other[15] = 16 + 8;
    assert_eq!(rt; judged(other.as_slice()), Err((2, 14)), "bit 11");
    other[15] = 32;
    assert_eq!(rt; judged(other.as_slice()), Err((2, 14)), "type 2");
    other[15] = 0;
    assert_eq!(rt; judged(other.as_slice()), Err((2, 14)), "type 0");
    other[15] = 16;
    other[14] = 0;
    assert_eq!(rt; judged(other.as_slice()), Err((3, 16)), "no datagram");
    Ok(())
}

#[test]
fn bytes_that_are_not_judged(rt: HostRuntime) -> Result<(), Fail> {
    let heap = rt.alloc();
    let mut bytes = frame(heap, 29, &TWO, 45)?;
    bytes.extend(0..100u8)?;
    assert_eq!(rt; judged(bytes.as_slice()), Ok(2), "behind the datagrams");
    assert!(rt; bytes.len() > 12);
    bytes[0] = 1;
    bytes[11] = 7;
    assert_eq!(rt;
        judged(bytes.as_slice()),
        Ok(2),
        "the stations' Ethernet addresses"
    );
    Ok(())
}

#[test]
fn datagrams_stand_one_behind_the_other(rt: HostRuntime) -> Result<(), Fail> {
    let bytes = frame(rt.alloc(), 29, &TWO, 60)?;
    let Ok(mut tokens) = read_frame(bytes.as_slice()) else {
        return Err(Fail::new("refused"));
    };
    let first = tokens.next().ok_or("no first datagram")?;
    assert_eq!(rt; first.datagram_offset(), 16);
    assert_eq!(rt; first.data_offset(), 26);
    assert_eq!(rt; first.datagram().command, Command::Fpwr);
    assert_eq!(rt; first.datagram().address, 0x0120_1001);
    assert_eq!(rt; first.datagram().data, &[4u8, 0][..]);
    assert_eq!(rt; first.datagram().counter, 0);
    let second = tokens.next().ok_or("no second datagram")?;
    assert_eq!(rt; second.datagram_offset(), 30);
    assert_eq!(rt; second.datagram().command, Command::Lrw);
    assert_eq!(rt; second.datagram().address, 0x0001_0000);
    assert_eq!(rt; second.datagram().data, &[1u8, 2, 3][..]);
    assert_eq!(rt; second.datagram().counter, 3);
    assert!(rt; tokens.next().is_none());
    Ok(())
}

#[test]
fn a_size_that_ends_inside_a_header(rt: HostRuntime) -> Result<(), Fail> {
    let heap = rt.alloc();
    assert_eq!(rt; judged(frame(heap, 9, &TWO, 60)?.as_slice()), Err((3, 16)));
    assert_eq!(rt;
        judged(frame(heap, 13, &TWO, 60)?.as_slice()),
        Err((3, 16)),
        "inside the counter"
    );
    assert_eq!(rt;
        judged(frame(heap, 20, &TWO, 60)?.as_slice()),
        Err((3, 30)),
        "inside the second header"
    );
    assert_eq!(rt;
        judged(frame(heap, 28, &TWO, 60)?.as_slice()),
        Err((3, 30)),
        "inside the second counter"
    );
    assert_eq!(rt;
        judged(frame(heap, 14, &TWO, 60)?.as_slice()),
        Err((3, 16)),
        "the flag of the last"
    );
    assert_eq!(rt;
        judged(frame(heap, 30, &TWO, 60)?.as_slice()),
        Err((3, 30)),
        "the flag before the last"
    );
    Ok(())
}

#[test]
fn a_frame_shorter_than_its_datagrams(rt: HostRuntime) -> Result<(), Fail> {
    let heap = rt.alloc();
    let mut cut = single(heap, 5, 100, 60)?;
    cut.truncate(60);
    assert_eq!(rt; judged(cut.as_slice()), Err((3, 16)));
    // the first datagram fills the frame and says that another follows, which is not there
    let mut first = single(heap, 5, 32768 + 32, 60)?;
    assert!(rt; first.len() == 60);
    first[14] = 100;
    assert_eq!(rt; judged(first.as_slice()), Err((3, 60)));
    // an unlisted command in it comes before what is missing
    first[16] = 9;
    assert_eq!(rt; judged(first.as_slice()), Err((4, 16)));
    Ok(())
}

#[test]
fn reserved_bits_are_zero(rt: HostRuntime) -> Result<(), Fail> {
    let heap = rt.alloc();
    for bit in [2048u16, 4096, 8192, 16384] {
        let bytes = single(heap, 5, bit + 2, 60)?;
        assert_eq!(rt; judged(bytes.as_slice()), Err((3, 16)));
    }
    Ok(())
}

#[test]
fn unlisted_commands_are_refused(rt: HostRuntime) -> Result<(), Fail> {
    let heap = rt.alloc();
    for command in [9u8, 13, 14, 255] {
        assert_eq!(rt;
            judged(single(heap, command, 2, 60)?.as_slice()),
            Err((4, 16))
        );
    }
    for command in [0u8, 1, 2, 3, 4, 5, 6, 7, 8, 10, 11, 12] {
        assert_eq!(rt; judged(single(heap, command, 2, 60)?.as_slice()), Ok(1));
    }
    assert_eq!(rt;
        judged(single(heap, 9, 0, 60)?.as_slice()),
        Err((3, 16)),
        "3 before 4"
    );
    let mut both = frame(heap, 29, &TWO, 60)?;
    assert!(rt; both.len() > 40);
    both[16] = 9;
    both[36] = 0;
    assert_eq!(rt;
        judged(both.as_slice()),
        Err((4, 16)),
        "the first datagram before the second"
    );
    Ok(())
}

#[test]
fn commands_classify_themselves(rt: HostRuntime) {
    assert_eq!(rt; Command::from(0).kind(), CommandKind::Idle);
    for code in 1..=8u8 {
        assert_eq!(rt; Command::from(code).kind(), CommandKind::Physical);
    }
    for code in 10..=12u8 {
        assert_eq!(rt; Command::from(code).kind(), CommandKind::Logical);
    }
    assert_eq!(rt; Command::from(9), Command::Unlisted(9));
    for code in 13..=255u8 {
        assert_eq!(rt; Command::from(code).kind(), CommandKind::Unlisted);
        assert_eq!(rt; u8::from(Command::from(code)), code);
    }
    assert_eq!(rt; Command::from(7).name(), "BRD");
    assert_eq!(rt; Command::from(12).name(), "LRW");
}
