// Reads frames in hex from standard input, and prints each as this project writes its datagrams, or why it
// is refused.
#![tactic(auto)]

use frame_report::{Rewriting, report};
use std::io::Read;

// As in dissect: a function for both could promise nothing, since no contract says what is read or printed.
fn main(rt: HostRuntime) -> anyhow::Result<()> {
    let heap = rt.alloc();
    let mut text = Vec::new(heap);
    rt.stdin().read_to_end(&mut text)?;
    let told = report(heap, &Rewriting, text.as_slice())?;
    rt.print(told.as_str())?;
    Ok(())
}
