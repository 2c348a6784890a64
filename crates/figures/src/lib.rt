// A set's figures in code: the two numbers of a refusal, and the job time. What they are, taskset defines; which
// refusal is given is left to the crates above.
#![tactic(auto)]

ghost use Rattle.std.specs.Prelude.{◌≡◌, ◌≤◌};
ghost use Rattle.taskset.specs.Quantities.{job_ticks};
ghost use Rattle.taskset.specs.Refusals.{number, second};

use taskset::Refusal;

// The number of a refusal.
pub fn number_of(f: Refusal) -> u64
    ensures { result ≡ number f }
{
    match f {
        Refusal::TextDeparts(_) => 1,
        Refusal::BadWord(_) => 2,
        Refusal::NotAbove(_) => 3,
        Refusal::TooLong(_) => 4,
        Refusal::WorkShort(_) => 5,
        Refusal::TooShort(_) => 6,
        Refusal::NoPlan => 7,
        Refusal::BadPlan(_) => 8,
        Refusal::EnergyOver(_) => 9,
        Refusal::BelowIdle(_) => 10,
        Refusal::TooManyPlans => 11,
    }
}

// The number that is returned beside it.
pub fn second_of(f: Refusal) -> u64
    ensures { result ≡ second f }
{
    match f {
        Refusal::NoPlan | Refusal::TooManyPlans => 0,
        Refusal::TextDeparts(k)
        | Refusal::BadWord(k)
        | Refusal::NotAbove(k)
        | Refusal::TooLong(k)
        | Refusal::WorkShort(k)
        | Refusal::TooShort(k)
        | Refusal::BadPlan(k)
        | Refusal::EnergyOver(k)
        | Refusal::BelowIdle(k) => k as u64,
    }
}

// The ticks of a job of so many cycles at a rate: cycles over rate, rounded up.
pub fn job_ticks(cycles: u32, rate: u32) -> u32
    requires { 1 ≤ rate }
    ensures { result ≡ job_ticks cycles rate }
{
    cycles.div_ceil(rate)
}
