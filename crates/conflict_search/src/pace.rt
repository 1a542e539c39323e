// When the search begins anew.

// How many conflicts the shortest run has.
const UNIT: u64 = 64;

// The runs' lengths: 1, 1, 2, 1, 1, 2, 4 and so on, times the shortest (Luby, Sinclair and Zuckerman, "Optimal speedup of Las Vegas
// algorithms", 1993).
#[derive(Clone, Copy)]
pub(crate) struct Pace {
    run: u64,
    length: u64,
    left: u64,
}

impl Pace {
    pub(crate) fn new() -> Pace {
        Pace {
            run: 1,
            length: 1,
            left: UNIT,
        }
    }

    // Counts a conflict.
    pub(crate) fn count(&mut self) {
        self.left = self.left.saturating_sub(1);
    }

    // Whether the run is over; the next one begins then.
    pub(crate) fn is_over(&mut self) -> bool {
        if self.left != 0 {
            return false;
        }
        if self.run & self.run.wrapping_neg() == self.length {
            self.run = self.run.wrapping_add(1);
            self.length = 1;
        } else {
            self.length = self.length.saturating_mul(2);
        }
        self.left = self.length.saturating_mul(UNIT);
        true
    }
}
