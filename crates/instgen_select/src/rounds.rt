// Whose turn it is among the three orders, and for how long. The lengths were measured on 340 generated problems, with partners
// in three orders: turns of equal length lose chains of equations, and turns of 30 or 10 picks cost entries.

// The orders in which entries are picked.
#[derive(Clone, Copy, PartialEq, Eq)]
pub(crate) enum Order {
    /// Those that came with the latest pick first, of these those with the fewest variables, and of these the newest.
    Latest,
    /// The newest first.
    Newest,
    /// The least first.
    Least,
}

// The picks by `Newest` in the first round, and those by `Least`.
const SHORT: u64 = 100;

// How many times as many are by `Latest`.
const LATEST_SHARE: u64 = 9;

// A round is longer by this part of it than the one before.
const GROWTH: u64 = 5;

// The order whose turn it is, the picks that it has left, and the length of the short turns of this round.
#[derive(Clone, Copy)]
pub(crate) struct Rounds {
    pub(crate) order: Order,
    left: u64,
    short: u64,
}

impl Rounds {
    pub(crate) fn new() -> Rounds {
        Rounds {
            order: Order::Latest,
            left: SHORT * LATEST_SHARE,
            short: SHORT,
        }
    }

    fn begin(&mut self, order: Order) {
        self.left = match order {
            Order::Latest => self.short.saturating_mul(LATEST_SHARE),
            Order::Newest | Order::Least => self.short,
        };
        self.order = order;
    }

    // One pick more was made.
    pub(crate) fn advance(&mut self) {
        self.left = self.left.saturating_sub(1);
        if self.left > 0 {
            return;
        }
        match self.order {
            Order::Latest => self.begin(Order::Newest),
            Order::Newest => self.begin(Order::Least),
            Order::Least => {
                self.short = self.short.saturating_add(self.short / GROWTH);
                self.begin(Order::Latest);
            }
        }
    }
}
