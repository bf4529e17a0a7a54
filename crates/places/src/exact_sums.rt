// Sums of amounts that may pass 64 bits, exact whatever the numbers are.
ghost use Rattle.std.specs.Prelude.{◌+◌, ◌*◌, ◌/◌, ◌%◌, ◌^◌, ◌<◌, ◌≡◌};

use records::Record;

// 2^32: the halves of a number are its quotient and its remainder by it.
pub const HALF: u64 = 4294967296;

// 2^31: as many times HALF is 2^63.
const HALVES_OF_HIGH: u64 = 2147483648;

// A sum that may pass 64 bits: high * 2^63 + low.
#[derive(Clone, Copy)]
pub struct Wide {
    pub high: u64,
    pub low: u64,
    pub ghost low_fits: { low < 2 ^ 63 },
}

// The sum of no number.
impl Default for Wide {
    ghost use Rattle.places.specs.ExactSums.{IsNoSum};

    ghost is_default = { IsNoSum };

    fn default() -> Wide {
        Wide { high: 0, low: 0 }
    }
}

impl Wide {
    ghost use Rattle.places.specs.ExactSums.{Added, wide};

    // A number below 2^63 more.
    fn add_half(self, x: u64) -> Wide
        requires { (x < 2 ^ 63) × (self.high < 65536) }
        ensures { Added self x 1 result }
    {
        let sum = self.low + x;
        if Record::MAX_AMOUNT < sum {
            return Wide {
                high: self.high + 1,
                low: sum - Record::MAX_AMOUNT - 1,
            };
        }
        Wide {
            high: self.high,
            low: sum,
        }
    }

    // One number more.
    pub fn add(self, x: u64) -> Wide
        requires { self.high < 65535 }
        ensures { Added self x 2 result }
    {
        if Record::MAX_AMOUNT < x {
            let w = Wide {
                high: self.high + 1,
                low: self.low,
            };
            return w.add_half(x - Record::MAX_AMOUNT - 1);
        }
        self.add_half(x)
    }

    // high * 2^32 + low more: sums of the halves of numbers.
    pub fn add_halves(self, high: u64, low: u64) -> Wide
        requires { (low < 2 ^ 63) × (self.high * 2 ^ 31 + high < 65535 * 2 ^ 31) }
        ensures { wide result ≡ wide self + (high * 2 ^ 32 + low) }
    {
        let w = Wide {
            high: self.high + high / HALVES_OF_HIGH,
            low: self.low,
        };
        let v = w.add_half(high % HALVES_OF_HIGH * HALF);
        v.add_half(low)
    }
}

// Two sums of the halves of numbers, by 2^32.
#[derive(Clone, Copy, Default)]
pub struct Halved {
    pub high: u64,
    pub low: u64,
}

impl Halved {
    // One number more.
    pub fn add(self, x: u64) -> Halved
        requires { (self.high < 2 ^ 63) × (self.low < 2 ^ 63) }
        ensures { (result.high ≡ self.high + x / 2 ^ 32) × (result.low ≡ self.low + x % 2 ^ 32) }
    {
        Halved {
            high: self.high + x / HALF,
            low: self.low + x % HALF,
        }
    }
}

// What was sent and what was received.
#[derive(Clone, Copy, Default)]
pub struct Flows {
    pub sent: Halved,
    pub received: Halved,
}
