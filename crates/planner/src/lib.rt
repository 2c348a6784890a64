// The calls that plan a list, the planner's and the dull engine's (document 02, note 7): the checks in their order, then
// the choice among the set's options by an engine. How options are laid out is left to the crate options, how the choice
// is made to the crates choice, by the table, and exhaustive, through all plans.
#![tactic(auto)]

ghost use Rattle.std.specs.Prelude.{◌≡◌, ◌≤◌, [], ◌∷◌, length, Ok};
ghost use Rattle.selection.specs.Plan.{work_words};
ghost use Rattle.taskset.specs.Planning.{layout_of};
ghost use Rattle.taskset.specs.Refusals.{engine_check, ready_checks};
ghost use Rattle.taskset.specs.Calls.{SetAfter};
ghost use Rattle.checks.specs.Steps.{PassedAfter};
ghost use Rattle.planner.specs.Answers.{PlannerCall};
ghost use Rattle.planner.specs.Engines.{EngineAsked, EngineChose};

use checks::Set;
use engine::{Choice, Request};
use layout::Layout;
use taskset::{Checked, Engine, Measured, PlannerAnswer, Refusal};

// The layout of the list that an engine plans. (A match here and twice below, and no trait: the engine is a value of
// PlannerCall, and theorems speak of every one.)
fn layout_of(engine: Engine) -> Layout
    ensures { result ≡ layout_of engine }
{
    match engine {
        Engine::Table(layout) => layout,
        Engine::Exhaustive => Layout::Ordinary,
    }
}

// The working words needed for n tasks at slack g.
fn work_needed(n: usize, g: u32) -> usize
    requires { (n ≤ 32) × (1 ≤ g) }
    ensures { result ≡ work_words n g }
{
    let last = choice::last_column(n, g);
    (n + 1) * (last + 1)
}

// Check 5, or 11, of a set that has passed 2, 3, 10 and 4. (A match: PlannerCall.)
fn own_check(set: &Set, engine: Engine, work_len: usize) -> Result<(), Refusal>
    requires { set.now.layout ≡ layout_of engine }
    ensures { PassedAfter (engine_check engine set.now.words.now work_len ∷ []) result }
{
    match engine {
        Engine::Table(_) => {
            let w = work_needed(set.tasks, set.slack());
            if work_len < w {
                return Err(Refusal::WorkShort(w));
            }
            Ok(())
        }
        Engine::Exhaustive => {
            let plans = exhaustive::plan_count(set.rates, set.tasks);
            let is_many = exhaustive::MOST_PLANS < plans;
            if is_many {
                return Err(Refusal::TooManyPlans);
            }
            Ok(())
        }
    }
}

// The checks before 7, in their order: 2, 3, 10 and 4, the engine's own, and 6. Rate count, task count and hyper-period,
// or a refusal.
pub fn ready(set: &[u32], engine: Engine, plan_len: usize, work_len: usize) -> Checked
    ensures { SetAfter (ready_checks engine set.now plan_len work_len) (layout_of engine) set.now result }
{
    let layout = layout_of(engine);
    let measured = checks::check_covered(set, layout)?;
    let set = Set {
        words: set,
        layout,
        rates: measured.rates,
        tasks: measured.tasks,
    };
    own_check(&set, engine, work_len)?;
    if plan_len < measured.tasks {
        return Err(Refusal::TooShort(measured.tasks));
    }
    Ok(measured)
}

// Unit and plan by document 01's rule, chosen by the engine; the plan goes to the first words of plan, and the working
// words that the engine needs are 0 at the end. (A match: PlannerCall.)
fn choose(
    engine: Engine,
    loads: &[u64; 512],
    energies: &[u64; 512],
    q: Request,
    plan: &mut [u32],
    work: &mut [u32],
) -> Choice
    requires { EngineAsked engine q loads.now energies.now plan.old work.old }
    ensures { EngineChose engine q loads.now energies.now plan.old work.old plan.new work.new result }
{
    match engine {
        Engine::Table(_) => choice::choose(loads, energies, q, plan, work),
        Engine::Exhaustive => exhaustive::choose(loads, energies, q, plan),
    }
}

// Check 7 and the choice of a plan, for a set that has passed the checks before it. Nothing is written before 7 is
// decided.
pub fn plan_checked(
    set: &[u32],
    engine: Engine,
    plan: &mut [u32],
    work: &mut [u32],
    measured: Measured,
) -> PlannerAnswer
    requires { SetAfter (ready_checks engine set.now (length plan.old) (length work.old)) (layout_of engine) set.now (Ok measured) }
    ensures { PlannerCall engine set.now plan.old work.old plan.new work.new result }
{
    let Measured {
        rates,
        tasks,
        hyper,
    } = measured;
    let layout = layout_of(engine);
    let mut loads = [0u64; 512];
    let mut energies = [0u64; 512];
    let q = options::pose(&mut loads, &mut energies, set, layout, rates, tasks, hyper)?;
    let c = choose(engine, &loads, &energies, q, plan, work);
    Ok(options::planned(set, hyper, c))
}

// The call: a refusal that leaves plan and work as they were, or the plan that document 01 selects.
pub fn plan(set: &[u32], engine: Engine, plan: &mut [u32], work: &mut [u32]) -> PlannerAnswer
    ensures { PlannerCall engine set.now plan.old work.old plan.new work.new result }
{
    let measured = ready(set, engine, plan.len(), work.len())?;
    plan_checked(set, engine, plan, work, measured)
}
