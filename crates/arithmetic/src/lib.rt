// Whole-number arithmetic in code: the greatest common divisor by halving and subtracting, both counted. What it is,
// numbers defines; tasks, words and times are left to the crates above.
#![tactic(auto)]

ghost use Rattle.std.specs.Prelude.{◌≡◌, suc, ◌-◌, ◌*◌, ◌/◌, ◌^◌, ◌≤◌, ◌<◌};
ghost use Rattle.numbers.specs.Numbers.{gcd};
ghost use Rattle.numbers.specs.Halving.{common_power, is_even, step, steps, most_steps};
ghost use Rattle.numbers.specs.Power.{IsPower};

// The largest power of two that divides both numbers: the lowest bit that is set in one of them.
fn common_power(x: u64, y: u64) -> u64
    requires { 0 < x }
    ensures { result ≡ common_power x y }
{
    let either = x | y;
    either & (!either + 1)
}

// Whether n, a multiple of a power of two u, is an even multiple: its bit u is 0.
fn is_even(u: u64, n: u64) -> bool
    requires { IsPower u }
    ensures { result ≡ is_even u n }
{
    n & u == 0
}

// A halving: half the number, and one more than the halvings and subtractions made before it.
fn halve(n: u64, before: u32) -> (u64, u32)
    requires { before < most_steps }
    ensures { result ≡ (n / 2, suc before) }
{
    (n / 2, before + 1)
}

// A subtraction: the difference, and one more than were made.
fn subtract(larger: u64, smaller: u64, made: u32) -> (u64, u32)
    requires { (smaller ≤ larger) × (made < most_steps) }
    ensures { result ≡ (larger - smaller, suc made) }
{
    (larger - smaller, made + 1)
}

// Two numbers on the way to their greatest common divisor, and the halvings and subtractions made so far.
#[derive(Clone, Copy)]
struct Pair {
    a: u64,
    b: u64,
    steps: u32,
}

impl Pair {
    // One step: the number that is an even multiple of u is halved; where neither is, the smaller is subtracted from
    // the larger.
    fn step(self, u: u64) -> Pair
        requires { IsPower u × (self.steps < most_steps) }
        ensures { ((result.a, result.b) ≡ step u self.a self.b) × (result.steps ≡ suc self.steps) }
    {
        if is_even(u, self.a) {
            let (a, steps) = halve(self.a, self.steps);
            return Pair { a, steps, ..self };
        }
        if is_even(u, self.b) {
            let (b, steps) = halve(self.b, self.steps);
            return Pair { b, steps, ..self };
        }
        if self.b < self.a {
            let (a, steps) = subtract(self.a, self.b, self.steps);
            return Pair { a, steps, ..self };
        }
        let (b, steps) = subtract(self.b, self.a, self.steps);
        Pair { b, steps, ..self }
    }
}

// A greatest common divisor, and the halvings and subtractions that it took.
#[derive(Clone, Copy)]
pub struct Divisor {
    pub value: u64,
    pub steps: u32,
}

// The greatest common divisor, by halving and subtracting alone. Twos that both numbers have stay in: both are
// multiples of u throughout, and one is halved only while it is an even multiple.
pub fn common_divisor(x: u64, y: u64) -> Divisor
    requires { (0 < x) × (0 < y) × (x * y < 2 ^ 50) }
    ensures { (result.value ≡ gcd x y) × (result.steps ≡ steps x y) × (result.steps ≤ most_steps) }
{
    let u = common_power(x, y);
    let mut p = Pair {
        a: x,
        b: y,
        steps: 0,
    };
    while p.a != p.b {
        p = p.step(u);
    }
    Divisor {
        value: p.a,
        steps: p.steps,
    }
}
