// Runs the log and the readers of records at their edges, and prints what they answer.
#![tactic(auto)]

use refusal::Refusal;

mod full;
mod leaves;
mod reads;

fn main(rt: HostRuntime) -> anyhow::Result<()> {
    run(&rt)
}

fn run(rt: &HostRuntime) -> anyhow::Result<()> {
    full::run(rt)?;
    leaves::run(rt)?;
    reads::run(rt)
}

// Prints what was done, and that it was accepted or how it was refused.
fn tell<T: Drop>(rt: &HostRuntime, what: &str, answer: Result<T, Refusal>) -> anyhow::Result<()> {
    match answer {
        Ok(_) => {
            println!(rt; "{what}: accepted")?;
            Ok(())
        }
        Err(refusal) => tell_refusal(rt, what, refusal),
    }
}

fn tell_refusal(rt: &HostRuntime, what: &str, refusal: Refusal) -> anyhow::Result<()> {
    println!(rt; "{what}: {}", refusal.returned())?;
    Ok(())
}
