// A numeral: a whole number over another, with or without a minus. A signed number would be taken apart again, since `whole`
// takes the size alone.
#[derive(Clone, Copy)]
pub(crate) struct Numeral {
    pub(crate) minus: bool,
    pub(crate) top: u64,
    pub(crate) under: u64,
}
