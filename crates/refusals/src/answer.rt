// What a call answered.
use sheet::Refusal;

// `04 lift of an empty place: refused 4`.
pub(crate) fn show_answer<T: Copy>(
    rt: &HostRuntime,
    call: &str,
    answer: Result<T, Refusal>,
) -> anyhow::Result<()> {
    match answer {
        Ok(_) => println!(rt; "{call}: granted")?,
        Err(refusal) => println!(rt; "{call}: refused {refusal}")?,
    }
    Ok(())
}
