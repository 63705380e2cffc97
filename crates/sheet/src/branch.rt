// A branch as a plan holds it.
use crate::ends::Ends;
use crate::kind::Kind;

#[derive(Clone, Copy)]
pub struct Branch {
    pub kind: Kind,
    pub ends: Ends,
}
