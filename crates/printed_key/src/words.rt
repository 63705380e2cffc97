// The members of a line, each with the space before it. Each number that can be one stands ready as text, which is quicker
// than to format it at every member.
ghost use Rattle.std.specs.Prelude.{◌≡◌, ◌<◌, ◌∷◌, Some, decimal};
ghost use Rattle.printed_key.specs.Blocks.{member_words, sided, signed_words};
ghost use Rattle.printed_key.specs.Text.{spaced, listed};

use networks::{has, members_of};
use sheet::Shown;
use std::fmt;

// Each number behind a space, behind a plus, and behind a minus.
const PLAIN: [&str; 32] = [
    " 0", " 1", " 2", " 3", " 4", " 5", " 6", " 7", " 8", " 9", " 10", " 11", " 12", " 13", " 14",
    " 15", " 16", " 17", " 18", " 19", " 20", " 21", " 22", " 23", " 24", " 25", " 26", " 27",
    " 28", " 29", " 30", " 31",
];

const PLUS: [&str; 32] = [
    " +0", " +1", " +2", " +3", " +4", " +5", " +6", " +7", " +8", " +9", " +10", " +11", " +12",
    " +13", " +14", " +15", " +16", " +17", " +18", " +19", " +20", " +21", " +22", " +23", " +24",
    " +25", " +26", " +27", " +28", " +29", " +30", " +31",
];

const MINUS: [&str; 32] = [
    " -0", " -1", " -2", " -3", " -4", " -5", " -6", " -7", " -8", " -9", " -10", " -11", " -12",
    " -13", " -14", " -15", " -16", " -17", " -18", " -19", " -20", " -21", " -22", " -23", " -24",
    " -25", " -26", " -27", " -28", " -29", " -30", " -31",
];

// A place behind a space, as ` 7`.
pub(crate) fn place(k: u32) -> &'static str
    requires { k < 32 }
    ensures { result.now ≡ 32 ∷ decimal k }
{
    PLAIN[k as usize]
}

// A member of a row, as ` +7`, or ` -7` where it points against the row.
fn signed_place(k: u32, against: bool) -> &'static str
    requires { k < 32 }
    ensures { result.now ≡ 32 ∷ sided against k }
{
    if against {
        MINUS[k as usize]
    } else {
        PLUS[k as usize]
    }
}

// The members of a word, as ` 0 2`.
#[derive(Clone, Copy)]
pub(crate) struct Members(pub(crate) u32);

impl fmt::Display for Members {
    ghost output = { λ m. Some (spaced (listed (member_words m.0) 32)) };

    fn fmt<W: fmt::Write>(&self, f: &mut fmt::Formatter<W>) -> fmt::Result {
        for k in members_of(self.0) {
            f.write_str(place(k))?;
        }
        Ok(())
    }
}

// The members of a loop or cut, each behind its sign, as ` -0 +1`. A type beside `Members`, since a word has no signs.
#[derive(Clone, Copy)]
pub(crate) struct Signed(pub(crate) Shown);

impl fmt::Display for Signed {
    ghost output = { λ s. Some (spaced (listed (signed_words s.0) 32)) };

    fn fmt<W: fmt::Write>(&self, f: &mut fmt::Formatter<W>) -> fmt::Result {
        for k in members_of(self.0.members) {
            f.write_str(signed_place(k, has(self.0.against, k)))?;
        }
        Ok(())
    }
}
