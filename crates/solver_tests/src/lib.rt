// Worked systems in both arithmetics. A system's row r begins at place 64 + 16 × r, its right side after its entries.
#![tactic(auto)]

#[cfg(test)]
mod tests {
    use solver::{Unsolved, solve};

    // y = 3 and 2 x + y = 7: the second row has to be swapped up.
    #[test]
    fn swaps_a_pivot_up(rt: HostRuntime) {
        let mut work = [0.0; 304];
        work[65] = 1.0;
        work[66] = 3.0;
        work[80] = 2.0;
        work[81] = 1.0;
        work[82] = 7.0;
        assert_eq!(rt; solve(&mut work, 2), Ok(()));
        assert_eq!(rt; work[66], 2.0);
        assert_eq!(rt; work[82], 3.0);
    }

    // 3 x + y = 1 and x + 3 y = 1: the last bit of y shows the order of the operations.
    #[test]
    fn rounds_in_order(rt: HostRuntime) {
        let mut work = [0.0; 304];
        work[64] = 3.0;
        work[65] = 1.0;
        work[66] = 1.0;
        work[80] = 1.0;
        work[81] = 3.0;
        work[82] = 1.0;
        assert_eq!(rt; solve(&mut work, 2), Ok(()));
        assert_eq!(rt; work[66], 0.25);
        assert_eq!(rt; work[82], 0.25000000000000006);
    }

    // 2 y + z = 4, x + y + z = 3 and 2 x + y + 3 z = 10 have the solution -1, 0, 4.
    #[test]
    fn solves_in_remainders(rt: HostRuntime) {
        let mut work = [0u16; 304];
        work[65] = 2;
        work[66] = 1;
        work[67] = 4;
        work[80] = 1;
        work[81] = 1;
        work[82] = 1;
        work[83] = 3;
        work[96] = 2;
        work[97] = 1;
        work[98] = 3;
        work[99] = 10;
        assert_eq!(rt; solve(&mut work, 3), Ok(()));
        assert_eq!(rt; work[67], 8190);
        assert_eq!(rt; work[83], 0);
        assert_eq!(rt; work[99], 4);
    }

    // The second row is 4,096 times the first modulo 8,191, and no multiple of it otherwise.
    #[test]
    fn singular_in_remainders(rt: HostRuntime) {
        let mut work = [0u16; 304];
        work[64] = 1;
        work[65] = 2;
        work[80] = 4096;
        work[81] = 1;
        assert_eq!(rt; solve(&mut work, 2), Err(Unsolved::NoPivot));
    }

    #[test]
    fn too_little_room(rt: HostRuntime) {
        let mut work = [7u16; 303];
        assert_eq!(rt; solve(&mut work, 1), Err(Unsolved::NoRoom));
        let mut more = [7u16; 304];
        assert_eq!(rt; solve(&mut more, 16), Err(Unsolved::NoRoom));
        assert_eq!(rt; more[64], 7);
    }
}
