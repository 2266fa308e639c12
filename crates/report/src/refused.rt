// The line of a file that is refused.
use shelf::Refusal;

// Prints the refusal; answers that the file was not accepted.
pub(crate) fn print_refused(rt: &HostRuntime, refusal: Refusal) -> anyhow::Result<bool> {
    println!(rt; "  {refusal}")?;
    Ok(false)
}
