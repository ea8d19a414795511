// What is told of frames in hex.
use frame_report::{Dissection, Rewriting, report};
use frame_text::{HexError, read_hex};
use std::test::Fail;

#[test]
fn hex_is_read_in_either_case(rt: HostRuntime) -> Result<(), Fail> {
    let heap = rt.alloc();
    let bytes = read_hex(heap, b"0 9aF fA\t\r")?;
    assert_eq!(rt; bytes.as_slice(), &[0x09, 0xaf, 0xfa][..]);
    Ok(())
}

#[test]
fn lines_that_are_no_frame(rt: HostRuntime) -> Result<(), Fail> {
    let heap = rt.alloc();
    assert!(rt; read_hex(heap, b"")?.is_empty());
    assert!(rt; read_hex(heap, b" \t\r")?.is_empty());
    match read_hex(heap, b"0g") {
        Err(e) => assert_eq!(rt; e, HexError::NotHex),
        Ok(_) => return Err(Fail::new("g is no digit")),
    }
    match read_hex(heap, b"012") {
        Err(e) => {
            assert_eq!(rt; e, HexError::OddDigits);
            Ok(())
        },
        Ok(_) => Err(Fail::new("three digits")),
    }
}

#[test]
fn every_line_counts(rt: HostRuntime) -> Result<(), Fail> {
    let text = b"# nothing\n\nxy\n  \n123 # three\n00\n";
    let told = report(rt.alloc(), &Dissection, text)?;
    assert_eq!(rt;
        told.as_str(),
        "line 3: a frame in hex has digits and blanks alone\nline 5: the number of digits is odd\nrefused 1 0: the frame has 1 bytes; it may have 60 to 1514\n"
    );
    Ok(())
}

#[test]
fn refusals_are_told_by_both(rt: HostRuntime) -> Result<(), Fail> {
    let told = report(rt.alloc(), &Rewriting, b"00\n")?;
    assert_eq!(rt;
        told.as_str(),
        "refused 1 0: the frame has 1 bytes; it may have 60 to 1514\n"
    );
    Ok(())
}
