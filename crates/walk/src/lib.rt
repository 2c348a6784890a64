// The walk: a set and a plan, from tick 0 to the hyper-period, or from first releases to twice that, under the rule of
// the earliest deadline. Its answer is the definition's walk, which goes tick by tick, with what that says of the endless
// walk. Which plan is selected, and texts, are left to others.
#![tactic(auto)]

ghost use Rattle.std.specs.Prelude.{◌≡◌, ◌↔◌, ℕ, cond, ◌*◌, ◌<◌, ◌≤◌, length, IsTrue, Ok};
ghost use Rattle.layout.specs.declared.Layout.TheVariants.{Ordinary};
ghost use Rattle.taskset.specs.Quantities.{hyper_limit, all_zero};
ghost use Rattle.taskset.specs.Refusals.{walk_checks};
ghost use Rattle.taskset.specs.Calls.{SetAfter};
ghost use Rattle.walk.specs.Answers.{Walked};
ghost use Rattle.walk.specs.Steps.{PlanAnswers, Holds, SetGiven, SoundPlan};
ghost use Rattle.ticks.specs.Arrays.{timing_at};

use checks::Set;
use layout::Layout;
use taskset::{Checked, Measured, Refusal, WalkAnswer, WalkEnd};
use ticks::Timing;

// Check 8: the first word that is not 1 to m, the plan's length if it is short, n if it is long; or that the plan is
// sound.
fn check_plan(plan: &[u32], m: usize, n: usize) -> Result<(), usize>
    ensures { PlanAnswers m n plan.now result }
{
    for (k, r) in plan.iter().enumerate() {
        if n <= k {
            return Err(n);
        }
        if !(1..=m).contains(&(*r as usize)) {
            return Err(k);
        }
    }
    if plan.len() < n {
        return Err(plan.len());
    }
    Ok(())
}

// A set's n tasks as the walk takes them, with their job times under a plan, at the front of an array.
fn tasks_of(set: &[u32], plan: &[u32], m: usize, n: usize, tasks: &mut [Timing; 32])
    requires set_given { SetGiven m n set.now }
    requires sound_plan { SoundPlan m n plan.now }
    ensures { Holds set.now plan.now n tasks.new }
{
    let set = Set {
        words: set,
        layout: Layout::Ordinary,
        rates: m,
        tasks: n,
    };
    for (t, r) in plan.iter().enumerate() {
        tasks[t] = Timing {
            period: set.period(t),
            time: set.job_time(t, *r as usize),
            first: set.first(t),
        };
    }
}

// Whether all first releases are 0.
fn are_all_zero(tasks: &[Timing]) -> bool
    ensures { IsTrue result ↔ ((t : ℕ) → t < length tasks.now → (timing_at tasks.now t).first ≡ 0) }
{
    tasks.iter().all(|task| task.first == 0)
}

// The walk's last tick: the hyper-period where the first releases are all 0, else twice that.
fn last_tick(tasks: &[Timing], hyper: u32) -> u32
    requires { hyper ≤ hyper_limit }
    ensures { result ≡ cond (all_zero (λ t. (timing_at tasks.now t).first) (length tasks.now)) hyper (2 * hyper) }
{
    if !are_all_zero(tasks) {
        return 2 * hyper;
    }
    hyper
}

// Checks 2, 3, 4 and 8, in this order.
pub fn ready(set: &[u32], plan: &[u32]) -> Checked
    ensures { SetAfter (walk_checks set.now plan.now) Ordinary set.now result }
{
    let measured = checks::check_set(set, Layout::Ordinary)?;
    match check_plan(plan, measured.rates, measured.tasks) {
        Err(k) => Err(Refusal::BadPlan(k)),
        Ok(()) => Ok(measured),
    }
}

// How the walk ends, of a set and a plan that have passed the checks: it refuses nothing.
pub fn walk_checked(set: &[u32], plan: &[u32], measured: Measured) -> WalkEnd
    requires { SetAfter (walk_checks set.now plan.now) Ordinary set.now (Ok measured) }
    ensures { Walked set.now plan.now (Ok result) }
{
    let mut tasks = [Timing {
        period: 0,
        time: 0,
        first: 0,
    }; 32];
    tasks_of(set, plan, measured.rates, measured.tasks, &mut tasks);
    let given = &tasks[..measured.tasks];
    let end = last_tick(given, measured.hyper as u32);
    ticks::run(given, end)
}

// The walk of a set under a plan: refusal 2, 3, 4 or 8, or what the walk to its last tick says.
pub fn walk(set: &[u32], plan: &[u32]) -> WalkAnswer
    ensures { Walked set.now plan.now result }
{
    let measured = ready(set, plan)?;
    Ok(walk_checked(set, plan, measured))
}
