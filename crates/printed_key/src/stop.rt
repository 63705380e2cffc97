// What stands in the way of a block, told in a line in its place.
ghost use Rattle.std.specs.Prelude.{◌≡◌, ◌++◌, Some, codes};
ghost use Rattle.printed_key.specs.Blocks.{refusal_of, stop_words};
ghost use Rattle.printed_key.specs.Text.{spaced};
ghost use Rattle.printed_key.specs.declared.stop.Stop.TheVariants.{Refused, Faulty};

use crate::words::Signed;
use cards::Fault;
use sheet::Refusal;
use std::fmt;

#[derive(Clone, Copy)]
pub enum Stop {
    // The circuit or a step of it is refused.
    Refused(Refusal),
    // A card is.
    Faulty(Fault),
}

impl Stop {
    // The refusal of the circuit, the step or the card.
    pub fn refusal(self) -> Refusal
        ensures { result ≡ refusal_of self }
    {
        match self {
            Stop::Refused(refusal) => refusal,
            Stop::Faulty(fault) => fault.refusal,
        }
    }
}

impl From<Refusal> for Stop {
    ghost from_gives = { λ refusal stop. stop ≡ Refused refusal };

    fn from(refusal: Refusal) -> Stop {
        Stop::Refused(refusal)
    }
}

impl From<Fault> for Stop {
    ghost from_gives = { λ fault stop. stop ≡ Faulty fault };

    fn from(fault: Fault) -> Stop {
        Stop::Faulty(fault)
    }
}

// `refused 12 -0 +1`: the number, and the members of a shown loop or cut; `refused 7 line 1 byte 1` for a card.
impl fmt::Display for Stop {
    ghost output = { λ stop. Some (codes "refused" ++ spaced (stop_words stop)) };

    fn fmt<W: fmt::Write>(&self, f: &mut fmt::Formatter<W>) -> fmt::Result {
        match *self {
            Stop::Refused(refusal) => match refusal.shown() {
                Some(shown) => write!(f, "refused {refusal}{}", Signed(shown)),
                None => write!(f, "refused {refusal}"),
            },
            Stop::Faulty(fault) => write!(f, "refused {fault}"),
        }
    }
}
