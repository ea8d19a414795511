// Examples, at the edges.
use super::*;
use std::test::Fail;

#[test]
fn lines_stand_between_newlines(rt: HostRuntime) {
    let mut lines = Lines::of(b"a\n\nb");
    assert_eq!(rt; lines.next(), Some(&b"a"[..]));
    assert_eq!(rt; lines.next(), Some(&b""[..]));
    assert_eq!(rt; lines.next(), Some(&b"b"[..]));
    assert_eq!(rt; lines.next(), None);
}

#[test]
fn the_last_newline_begins_no_line(rt: HostRuntime) {
    assert_eq!(rt; Lines::of(b"").next(), None);
    let mut lines = Lines::of(b"\n");
    assert_eq!(rt; lines.next(), Some(&b""[..]));
    assert_eq!(rt; lines.next(), None);
}

#[test]
fn a_carriage_return_parts_words(rt: HostRuntime) -> Result<(), Fail> {
    let mut lines = Lines::of(b"a\r\n");
    let line = lines.next().ok_or("no line")?;
    assert_eq!(rt; line, &b"a\r"[..]);
    assert_eq!(rt; Words::of(line).next(), Some(&b"a"[..]));
    assert_eq!(rt; lines.next(), None);
    Ok(())
}

#[test]
fn comments_go_to_the_end(rt: HostRuntime) {
    assert_eq!(rt; uncommented(b"a # b # c"), &b"a "[..]);
    assert_eq!(rt; uncommented(b"# a"), &b""[..]);
    assert_eq!(rt; uncommented(b"a"), &b"a"[..]);
}

#[test]
fn words_stand_between_blanks(rt: HostRuntime) {
    let mut words = Words::of(b" ab\t \tc\r");
    assert_eq!(rt; words.next(), Some(&b"ab"[..]));
    assert_eq!(rt; words.next(), Some(&b"c"[..]));
    assert_eq!(rt; words.next(), None);
    assert_eq!(rt; Words::of(b" \t\r ").next(), None);
}

#[test]
fn decimals_are_at_most_32_bits(rt: HostRuntime) {
    assert_eq!(rt; decimal(b"4294967295"), Some(4294967295));
    assert_eq!(rt; decimal(b"4294967296"), None);
    assert_eq!(rt; decimal(b"99999999999999999999999999"), None);
    assert_eq!(rt; decimal(b"00000000000000000001"), Some(1));
}

#[test]
fn decimals_are_digits_alone(rt: HostRuntime) {
    assert_eq!(rt; decimal(b"0"), Some(0));
    assert_eq!(rt; decimal(b""), None);
    assert_eq!(rt; decimal(b"+1"), None);
    assert_eq!(rt; decimal(b"1:"), None);
}
