// The members of a word one after another, lowest first: a caller goes over them alone, and not over all places.
ghost use Rattle.std.specs.Iterator.{at_most};
ghost use Rattle.std.specs.Prelude.{◌≡◌};
ghost use Rattle.graphs.specs.Graph.{count};
ghost use Rattle.networks.specs.Words.{bits, TakesLowest};

use crate::words::{lowest, remove};

#[derive(Drop)]
pub struct Members {
    pub left: u32,
}

pub fn members_of(word: u32) -> Members
    ensures { result.left ≡ word }
{
    Members { left: word }
}

impl Iterator for Members {
    type Item = u32;

    ghost next_gives = { λ before r after. TakesLowest before.left r after.left };

    ghost remaining = { λ members. at_most (count (bits members.left) 32) };

    fn next(&mut self) -> Option<u32> {
        let k = lowest(self.left)?;
        self.left = remove(self.left, k);
        Some(k)
    }
}
