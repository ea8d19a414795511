// Reads frames in hex from standard input, and prints the datagrams of each or why it is refused.
#![tactic(auto)]

use frame_report::{Dissection, report};
use std::io::Read;

// As in rewrite: a function for both could promise nothing, since no contract says what is read or printed.
fn main(rt: HostRuntime) -> anyhow::Result<()> {
    let heap = rt.alloc();
    let mut text = Vec::new(heap);
    rt.stdin().read_to_end(&mut text)?;
    let told = report(heap, &Dissection, text.as_slice())?;
    rt.print(told.as_str())?;
    Ok(())
}
