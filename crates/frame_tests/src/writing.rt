// What the writer writes, and what it refuses.
use command::Command;
use frame::Datagram;
use frame_writer::{WriteFault, Writer, rewrite_frame, write_frame};

const LONG: [u8; 1487] = [7; 1487];

const AL_CONTROL: Datagram<'static> = Datagram {
    command: Command::Fpwr,
    index: 0x12,
    address: 0x0120_1001,
    irq: 0x3456,
    data: &[4, 0],
    counter: 0x0102,
};

// A refusal by its number and its place.
fn answer<T>(r: Result<T, WriteFault>) -> Result<T, (u16, usize)> {
    r.map_err(|fault| (fault.number(), fault.place()))
}

#[test]
fn the_bytes_of_a_frame(rt: HostRuntime) {
    let mut buffer = [0xee; 1520];
    assert_eq!(rt; answer(write_frame(&mut buffer, &[AL_CONTROL])), Ok(60));
    assert_eq!(rt;
        &buffer[0..12],
        &[0xff, 0xff, 0xff, 0xff, 0xff, 0xff, 2, 0, 0, 0, 0, 1][..]
    );
    assert_eq!(rt; &buffer[12..16], &[0x88, 0xa4, 14, 0x10][..]);
    assert_eq!(rt;
        &buffer[16..26],
        &[5, 0x12, 0x01, 0x10, 0x20, 0x01, 2, 0, 0x56, 0x34][..]
    );
    assert_eq!(rt; &buffer[26..30], &[4, 0, 0x02, 0x01][..]);
    for b in &buffer[30..60] {
        assert_eq!(rt; *b, 0);
    }
    for b in &buffer[60..1520] {
        assert_eq!(rt; *b, 0xee);
    }
}

#[test]
fn only_the_last_says_that_none_follows(rt: HostRuntime) {
    let mut buffer = [0; 1514];
    assert_eq!(rt;
        answer(write_frame(&mut buffer, &[AL_CONTROL, AL_CONTROL, AL_CONTROL])),
        Ok(60)
    );
    assert_eq!(rt; buffer[14], 42);
    assert_eq!(rt; buffer[23], 0x80);
    assert_eq!(rt; buffer[37], 0x80);
    assert_eq!(rt; buffer[51], 0);
}

// AL control's datagram with so many bytes of data instead.
fn with_data(bytes: usize) -> Datagram<'static> {
    Datagram {
        data: &LONG[0..bytes.min(1487)],
        ..AL_CONTROL
    }
}

#[test]
fn the_longest_datagram_fills_a_frame(rt: HostRuntime) {
    let mut buffer = [0; 1514];
    let longest = with_data(1486);
    assert_eq!(rt; answer(write_frame(&mut buffer, &[longest])), Ok(1514));
    assert_eq!(rt; &buffer[14..16], &[0xda, 0x15][..]);
    assert_eq!(rt; &buffer[22..24], &[0xce, 0x05][..]);
    assert_eq!(rt;
        answer(write_frame(&mut buffer, &[longest, AL_CONTROL])),
        Err((3, 1514))
    );
    assert_eq!(rt;
        answer(write_frame(&mut buffer, &[with_data(1487)])),
        Err((3, 16))
    );
}

#[test]
fn a_refused_addition_leaves_the_frame(rt: HostRuntime) {
    let none = with_data(0);
    let long = with_data(1486);
    let unlisted = Datagram {
        command: Command::Unlisted(9),
        ..AL_CONTROL
    };
    let mut buffer = [0; 1514];
    let mut writer = Writer::over(&mut buffer);
    assert_eq!(rt; answer(writer.add(&none)), Err((3, 16)));
    assert_eq!(rt; answer(writer.add(&AL_CONTROL)), Ok(()));
    assert_eq!(rt; answer(writer.add(&long)), Err((3, 30)));
    assert_eq!(rt; answer(writer.add(&unlisted)), Err((4, 30)));
    assert_eq!(rt; answer(writer.add(&AL_CONTROL)), Ok(()));
    assert_eq!(rt; answer(writer.finish()), Ok(60));
    assert_eq!(rt; buffer[14], 28);
    assert_eq!(rt;
        &buffer[30..40],
        &[5, 0x12, 0x01, 0x10, 0x20, 0x01, 2, 0, 0x56, 0x34][..]
    );
}

#[test]
fn an_empty_frame_and_a_short_buffer(rt: HostRuntime) {
    let mut buffer = [0xee; 1514];
    assert_eq!(rt; answer(Writer::over(&mut buffer).finish()), Err((3, 16)));
    assert_eq!(rt; answer(write_frame(&mut buffer, &[])), Err((3, 16)));
    assert_eq!(rt;
        answer(write_frame(&mut buffer[0..1513], &[AL_CONTROL])),
        Err((10, 0))
    );
    assert_eq!(rt;
        answer(write_frame(&mut buffer[0..1513], &[])),
        Err((3, 16)),
        "3 before 10"
    );
    for b in &buffer {
        assert_eq!(rt; *b, 0xee);
    }
}

#[test]
fn a_frame_is_written_again(rt: HostRuntime) {
    let mut first = [0xee; 1514];
    let mut second = [0; 1514];
    assert_eq!(rt;
        answer(write_frame(&mut first, &[AL_CONTROL, AL_CONTROL])),
        Ok(60)
    );
    assert_eq!(rt; answer(rewrite_frame(&mut second, &first[0..60])), Ok(60));
    assert_eq!(rt; &second[0..60], &first[0..60]);
    assert_eq!(rt;
        answer(rewrite_frame(&mut second, &first[0..59])),
        Err((1, 0))
    );
    assert_eq!(rt;
        answer(rewrite_frame(&mut second[0..1513], &first[0..60])),
        Err((10, 0))
    );
}
