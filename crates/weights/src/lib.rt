// Degrees and weights as the code keeps them. A weight is exact up to 2^62, and every weight above that is told by 2^62 + 1: so one that is far too large is
// found without being formed. It is no Option: 0 times a weight that is too large is 0 again.
// Begin with specs/Capped.antt, then with `sum`, `product` and `power`.
#![tactic(auto)]

ghost use Rattle.std.specs.Prelude.{◌≡◌, ◌+◌, ◌*◌, ◌^◌, ◌<◌, max};
ghost use Rattle.weights.specs.Capped.{capped};

use algebra::LARGEST_WEIGHT;

// A number above every weight that is allowed.
const TOO_HEAVY: u64 = LARGEST_WEIGHT + 1;

// The larger of two degrees, or of two powers.
pub fn larger(m: u64, n: u64) -> u64
    ensures { result ≡ max m n }
{
    m.max(n)
}

// Any number as a weight.
pub fn cap(w: u64) -> u64
    ensures { result ≡ capped w }
{
    w.min(TOO_HEAVY)
}

// A sum of more than 64 bits is above 2^62 wherever it stops.
pub fn sum(v: u64, w: u64) -> u64
    ensures { result ≡ capped (v + w) }
{
    cap(v.saturating_add(w))
}

// The product of two numbers below this one is below 2^62.
const SMALL: u64 = 0x8000_0000;

// And so is a product. Small numbers are the usual case: without a test of their own an estimate of few terms took up to half as long again.
pub fn product(v: u64, w: u64) -> u64
    ensures { result ≡ capped (v * w) }
{
    if v < SMALL && w < SMALL {
        return v * w;
    }
    cap(v.saturating_mul(w))
}

// (std's `saturating_pow` takes an exponent of 32 bits, and this one has 64.) Product by product, so nothing above 2^62 is multiplied again. The powers of 0 and 1 are known, but for the power 0, which is 1.
pub fn power(w: u64, e: u64) -> u64
    ensures { result ≡ capped (w ^ e) }
{
    if e == 0 {
        return 1;
    }
    if w <= 1 {
        return w;
    }
    let mut power = cap(w);
    for _ in 1..e {
        power = product(power, w);
    }
    power
}
