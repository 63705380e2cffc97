// Card files with the texts that are to be printed, worked out by hand and by another program.
#![tactic(auto)]

#[cfg(test)]
mod tests;
