#![tactic(auto)]

use std::fs;

/// Prints what the program answers to one strip of the data folder, under the strip's name.
fn show(rt: &HostRuntime, name: &str) -> anyhow::Result<()> {
    let path = format!(in rt.alloc(); "{name}.strip")?;
    let bytes = fs::read(rt, path)?;
    let text = planner::answer(rt.alloc(), &bytes)?;
    println!(rt; "strip {name}")?;
    rt.print(text)?;
    Ok(())
}

/// Goes through the strips that the list names.
fn main(rt: HostRuntime) -> anyhow::Result<()> {
    let names = fs::read_to_string(&rt, "list")?;
    for name in names.as_str().lines() {
        show(&rt, name)?;
    }
    Ok(())
}
