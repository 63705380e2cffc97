// The card files, each with its whole key.
use anyhow::Context;
use printed_key::whole_key;
use std::fs;

// A file for each refusal that a card file can meet, named by its number.
const CARD_FILES: &[&str] = &[
    "02.cards", "03.cards", "06.cards", "07.cards", "08.cards", "12.cards", "13.cards", "14.cards",
    "18.cards", "21.cards", "22.cards", "23.cards", "24.cards", "25.cards",
];

fn show_card_file(rt: &HostRuntime, name: &str) -> anyhow::Result<()> {
    let cards = fs::read(rt, name).context(format_args!("reading {name}"))?;
    let key = whole_key(rt.alloc(), cards.as_slice())?;
    println!(rt; "{name}")?;
    print!(rt; "{key}")?;
    Ok(())
}

pub(crate) fn show_card_files(rt: &HostRuntime) -> anyhow::Result<()> {
    for name in CARD_FILES {
        show_card_file(rt, name)?;
    }
    Ok(())
}
