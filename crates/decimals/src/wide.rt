// Numbers of two digits in base 2^60.
ghost use Rattle.std.specs.Prelude.{◌≡◌, ℕ, ◌+◌, ◌-◌, ◌*◌, ◌^◌, ◌<◌, ◌≤◌, leb};
ghost use Rattle.decimals.specs.Wide.{value};

#[derive(Clone, Copy)]
pub struct Wide {
    pub high: u64,
    pub low: u64,
}

impl Wide {
    // It, so many times: few enough that nothing overflows.
    pub fn times(self, factor: u64) -> Wide
        requires { (self.low < 2 ^ 60) × (self.high < 2 ^ 60) × (factor < 8) }
        ensures { (result.low < 2 ^ 60) × (value result ≡ factor * value self) }
    {
        let t = self.low * factor;
        Wide {
            high: self.high * factor + t / 0x1000_0000_0000_0000,
            low: t % 0x1000_0000_0000_0000,
        }
    }

    pub fn at_most(self, other: Wide) -> bool
        requires { (self.low < 2 ^ 60) × (other.low < 2 ^ 60) }
        ensures { result ≡ leb (value self) (value other) }
    {
        if self.high == other.high {
            self.low <= other.low
        } else {
            self.high < other.high
        }
    }
}

// One digit of a quotient, and what is left.
#[derive(Clone, Copy)]
pub struct Digit {
    pub rest: Wide,
    pub digit: u64,
}

// t less m, if m is no more, and t itself otherwise. The borrow is added before it is taken, so that the choice needs no branch.
pub fn digit_of(t: Wide, m: Wide) -> Digit
    requires { (t.low < 2 ^ 60) × (m.low < 2 ^ 60) × (t.high < 2 ^ 60) × (m.high < 2 ^ 60) × (value t < 2 * value m) }
    ensures { (result.rest.low < 2 ^ 60) × (result.digit < 2) × (value result.rest < value m) × (result.digit * value m + value result.rest ≡ value t) }
{
    let low = t.low + 0x1000_0000_0000_0000 - m.low;
    let high = t.high + 0x1000_0000_0000_0000 + low / 0x1000_0000_0000_0000 - m.high - 1;
    if high < 0x1000_0000_0000_0000 {
        return Digit { rest: t, digit: 0 };
    }
    let rest = Wide {
        high: high % 0x1000_0000_0000_0000,
        low: low % 0x1000_0000_0000_0000,
    };
    Digit { rest, digit: 1 }
}

// a * 5^k
pub fn with_fives(a: Wide, k: u64) -> Wide
    requires { (a.low < 2 ^ 60) × (value a * 5 ^ k < 2 ^ 110) }
    ensures { (result.low < 2 ^ 60) × (value result ≡ value a * 5 ^ k) }
{
    let mut w = a;
    for _ in 0..k {
        w = w.times(5);
    }
    w
}
