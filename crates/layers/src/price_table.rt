ghost use Rattle.std.specs.Prelude.{◌≡◌, ℕ, ◌≤◌, length, take, replicate};
ghost use Rattle.layers.specs.Maximum.{mins};

// A price for each of the most operators that a task can have. Its methods ask that the row fits: a struct of the row and the
// front of the table would hold that fact, but each method would then owe a clause on the one of the two that it leaves alone.
#[derive(Clone, Copy)]
pub struct PriceTable {
    prices: [u32; 256],
}

impl PriceTable {
    // One of zeros.
    pub fn new() -> PriceTable
        ensures { result.prices ≡ replicate 256 0 }
    {
        PriceTable { prices: [0; 256] }
    }

    // Keeps a copy of the row.
    pub fn keep(&mut self, row: &[u32])
        requires { length row.now ≤ 256 }
        ensures { take (length row.now) self.new.prices ≡ row.now }
    {
        let count = row.len();
        self.prices[..count].copy_from_slice(row);
    }

    // Writes what was kept back into the row.
    pub fn restore(&self, row: &mut [u32])
        requires { length row.old ≤ 256 }
        ensures { row.new ≡ take (length row.old) self.now.prices }
    {
        let count = row.len();
        row.copy_from_slice(&self.prices[..count]);
    }

    // Exchanges what was kept and the row.
    pub fn swap(&mut self, row: &mut [u32])
        requires { length row.old ≤ 256 }
        ensures kept { take (length row.old) self.new.prices ≡ row.old }
        ensures back { row.new ≡ take (length row.old) self.old.prices }
    {
        let count = row.len();
        self.prices[..count].swap_with_slice(row);
    }

    // Leaves in the row the lesser of the price kept and the price in the row.
    pub fn leave_lesser(&self, row: &mut [u32])
        requires { length row.old ≤ 256 }
        ensures { row.new ≡ mins (take (length row.old) self.now.prices) row.old }
    {
        // Over positions and not a zip, after which the check knows the row's length and none of its prices.
        for (operator, price) in row.iter_mut().enumerate() {
            *price = self.prices[operator].min(*price);
        }
    }
}
