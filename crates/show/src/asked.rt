// What is asked for on the command line.
use std::env;

#[derive(Clone, Copy)]
pub(crate) struct Asked {
    pub(crate) steps: u32,
    // The step length is top / bottom.
    pub(crate) top: u32,
    pub(crate) bottom: u32,
    // The branch whose voltage is traced.
    pub(crate) branch: u32,
}

fn number(word: Option<String>) -> Option<u32> {
    word?.as_str().parse().ok()
}

// The four numbers in their order.
fn four_numbers(words: &mut env::Args) -> Option<Asked> {
    Some(Asked {
        steps: number(words.next())?,
        top: number(words.next())?,
        bottom: number(words.next())?,
        branch: number(words.next())?,
    })
}

// The four numbers after the program's name.
pub(crate) fn read_words(rt: &HostRuntime) -> anyhow::Result<Option<Asked>> {
    let mut words = env::args(rt)?;
    let _ = words.next();
    Ok(four_numbers(&mut words))
}
