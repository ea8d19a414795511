// Plans as text, and what is answered.
use plan_report::{Accepted, Rejected};
use plan_text::read_plan;
use std::alloc::{AllocError, Global};
use std::process::Abort;
use std::test::Fail;

fn answer(heap: Global, text: &str) -> Result<String, AllocError> {
    match read_plan(heap, text.as_bytes()) {
        Ok(named) => {
            let report = Accepted { named: &named };
            format!(in heap; "{report}")
        }
        Err(error) => {
            let report = Rejected { error: &error };
            format!(in heap; "{report}")
        }
    }
}

fn all_answered(rt: &impl Abort, heap: Global, table: &[(&str, &str)]) -> Result<(), Fail> {
    for (text, expected) in table {
        assert_eq!(rt; answer(heap, text)?.as_str(), *expected, "{}", text);
    }
    Ok(())
}

// A text, and what is answered.
const UNREADABLE: [(&str, &str); 15] = [
    (
        "plan 3",
        "line 1: expected `image BYTES` or `station` and its fields\n",
    ),
    (
        "# a comment\n\nstation\n",
        "line 3: expected `image BYTES` before the first station\n",
    ),
    (
        "image 1\nimage 1\n",
        "line 2: expected a station: the image stands above already\n",
    ),
    (
        "image",
        "line 1: expected the number of bytes after `image`, 0 to 4294967295\n",
    ),
    (
        "image 4294967296",
        "line 1: expected the number of bytes after `image`, 0 to 4294967295\n",
    ),
    ("image 1 2", "line 1: expected the end of the line\n"),
    (
        "image 1\nstation out",
        "line 2: expected the first image bit after `out` or `in`, 0 to 4294967295\n",
    ),
    (
        "image 1\nstation in x 1",
        "line 2: expected the first image bit after `out` or `in`, 0 to 4294967295\n",
    ),
    (
        "image 1\nstation out 0",
        "line 2: expected the number of bits after the first bit, 0 to 4294967295\n",
    ),
    (
        "image 1\nstation mailbox -1",
        "line 2: expected the length in bytes after `mailbox`, 0 to 4294967295\n",
    ),
    (
        "image 1\nstation name",
        "line 2: expected a word after `name`\n",
    ),
    (
        "image 1\nstation name a b",
        "line 2: expected the end of the line\n",
    ),
    (
        "image 1\nstation outs 0 1",
        "line 2: expected `out FIRST BITS`, `in FIRST BITS`, `mailbox LENGTH` or `name WORD`\n",
    ),
    (
        "image 1\nstation out 0 1 out 1 1",
        "line 2: expected each of `out`, `in` and `mailbox` at most once\n",
    ),
    (
        "image 1\nstation mailbox 0 mailbox 16",
        "line 2: expected each of `out`, `in` and `mailbox` at most once\n",
    ),
];

#[test]
fn lines_that_cannot_be_read(rt: HostRuntime) -> Result<(), Fail> {
    all_answered(&rt, rt.alloc(), &UNREADABLE)
}

// Rules 6 and 7, each cause of them.
const REFUSED: [(&str, &str); 11] = [
    ("", "refused 6 0: there is no station; a plan has 1 to 32\n"),
    (
        "image 8\n# none\n",
        "refused 6 0: there is no station; a plan has 1 to 32\n",
    ),
    (
        "image 0\nnonsense",
        "refused 6 0: the image has 0 bytes; it may have 1 to 1024\n",
    ),
    (
        "image 1025",
        "refused 6 0: the image has 1025 bytes; it may have 1 to 1024\n",
    ),
    (
        "image 8\nstation out 0 70000",
        "refused 6 0: station 0: its outputs have 70000 bits; a window has at most 512\n",
    ),
    (
        "image 8\nstation\nstation in 1 0 name b",
        "refused 6 1: station 1 (b): its inputs have no bits, and then the first bit is 0, not 1\n",
    ),
    (
        "image 8\nstation mailbox 15",
        "refused 6 0: station 0: its mailbox has 15 bytes; it may have 16 to 128, or 0 for none\n",
    ),
    (
        "image 8\nstation out 56 9 name last",
        "refused 7 0: outputs 56-64 of station 0 (last) leave the image, which has 64 bits\n",
    ),
    (
        "image 1\nstation out 0 5 name a\nstation out 4 4 name b",
        "refused 7 1: outputs 0-4 of station 0 (a) and outputs 4-7 of station 1 (b) share bit 4\n",
    ),
    (
        "image 1\nstation in 0 5 name a\nstation out 2 6",
        "refused 7 1: inputs 0-4 of station 0 (a) and outputs 2-7 of station 1 share bits 2-4\n",
    ),
    (
        "image 1\nstation in 7 1 out 7 1 name a",
        "refused 7 0: outputs 7 and inputs 7 of station 0 (a) share bit 7\n",
    ),
];

#[test]
fn plans_that_are_refused(rt: HostRuntime) -> Result<(), Fail> {
    all_answered(&rt, rt.alloc(), &REFUSED)
}

// What the picture shows.
const ACCEPTED: [(&str, &str); 4] = [
    (
        "image 1\nstation out 0 4\r\nstation name b in 4 3 # b is no field\n",
        "line 3: expected the end of the line\n",
    ),
    (
        "image 1\r\nstation out 0 4\r\n\tstation in 4 3 mailbox 128 name b # the last\r\n",
        "station 0: outputs 0-3 as A, no mailbox\nstation 1 (b): inputs 4-6 as b, mailbox 128 bytes\nexpected working counter: 3\nfree bits: 1 of 8\nimage bytes: 1 (lowest bit of each byte first, `.` for a free bit)\nbyte    0 bit    0  AAAAbbb.\n",
    ),
    (
        "image 26\nstation out 135 2",
        "station 0: outputs 135-136 as A, no mailbox\nexpected working counter: 2\nfree bits: 206 of 208\nimage bytes: 26 (lowest bit of each byte first, `.` for a free bit)\nbytes 0 to 15 are free\nbyte   16 bit  128  .......A A....... ........ ........ ........ ........ ........ ........\nbytes 24 to 25 are free\n",
    ),
    (
        "image 9\nstation mailbox 16",
        "station 0: mailbox 16 bytes\nexpected working counter: 0\nfree bits: 72 of 72\nimage bytes: 9 (lowest bit of each byte first, `.` for a free bit)\nbytes 0 to 8 are free\n",
    ),
];

#[test]
fn plans_that_are_accepted(rt: HostRuntime) -> Result<(), Fail> {
    all_answered(&rt, rt.alloc(), &ACCEPTED)
}
