// The inverses modulo 8,191 as a constant table, and their rule, proved by one computed test over all entries.
// The definitions are in specs/Inverse.antt.
#![tactic(auto)]

ghost use Rattle.std.specs.Prelude.{◌%◌};
ghost use Rattle.inverses.specs.Inverse.{IsInverse};

mod table;

// The number below 8,191 that gives 1 when multiplied with n's remainder, and 0 where that remainder is 0.
pub fn inverse(n: u16) -> u16
    ensures { IsInverse (n % 8191) result }
{
    table::INVERSES[(n % 8191) as usize]
}
