// Reads a plan from standard input, and says whether it holds and who owns which bit.
#![tactic(auto)]

use anyhow::anyhow;
use plan_report::{Accepted, Rejected};
use plan_text::read_plan;
use std::io::Read;

fn main(rt: HostRuntime) -> anyhow::Result<()> {
    let heap = rt.alloc();
    let mut text = Vec::new(heap);
    rt.stdin().read_to_end(&mut text)?;
    match read_plan(heap, text.as_slice()) {
        Ok(named) => {
            let report = Accepted { named: &named };
            print!(rt; "{report}")?;
            Ok(())
        }
        Err(error) => {
            let report = Rejected { error: &error };
            print!(rt; "{report}")?;
            Err(anyhow!("the plan is refused"))
        }
    }
}
