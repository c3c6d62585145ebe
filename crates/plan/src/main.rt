#![tactic(auto)]

use std::io::Read;

/// As many bytes as the longest strip has, and one more: a longer input has its fault within these.
const LIMIT: u64 = 38 * 512 + 10 + 1;

/// Reads a strip from standard input and prints the plant that it stores, or the refusal.
fn main(rt: HostRuntime) -> anyhow::Result<()> {
    let mut bytes = Vec::new(rt.alloc());
    rt.stdin().take(LIMIT).read_to_end(&mut bytes)?;
    let text = planner::answer(rt.alloc(), &bytes)?;
    rt.print(text)?;
    Ok(())
}
