// The entries for C: word lists and numbers in, a number out, results in a lent byte list. Thin: each entry calls the
// library's function and puts its answer into bytes. Pointers are not null and aligned, and lists lent together do not
// overlap (include/seedspell.h).
#![tactic(auto)]

ghost use Rattle.std.specs.Prelude.{◌≡◌, ◌+◌, ◌<◌, ◌≤◌, ◌^◌, length};
ghost use Rattle.layout.specs.declared.Layout.TheVariants.{Ordinary};
ghost use Rattle.taskset.specs.declared.Engine.TheVariants.{Table};
ghost use Rattle.taskset.specs.Refusals.{second};
ghost use Rattle.taskset.specs.Calls.{code};
ghost use Rattle.entries.specs.Entry.{PlanEntry, DullEntry, WalkEntry, GenerateEntry};
ghost use Rattle.entries.specs.Put.{Placed, Leavable, Left, Answers, EnoughAfter};

use layout::Layout;
use taskset::{Engine, Refusal, WalkEnd};

// How many bytes four values take.
const RESULT_BYTES: usize = 32;

// An entry's answer: its four values, or a refusal.
type Answer = Result<(u64, u64, u64, u64), Refusal>;

// A refusal in one number: its number times 2^32, plus its second number.
fn code_of(r: Refusal) -> u64
    requires { second r < 2 ^ 32 }
    ensures { result ≡ code r }
{
    figures::number_of(r) * 4_294_967_296 + figures::second_of(r)
}

// Puts the eight bytes of v, lowest first, at a place of d.
fn put_value(d: &mut [u8], at: usize, v: u64)
    requires { at + 8 ≤ length d.old }
    ensures { Placed at v d.old d.new }
{
    d[at..at + 8].copy_from_slice(&v.to_le_bytes());
}

// Leaves an answer: 0 and its values in the first 32 bytes of d, or a refusal, which is returned.
fn leave(d: &mut [u8], answer: Answer) -> u64
    requires { Leavable (length d.old) answer }
    ensures { Left answer d.old d.new result }
{
    match answer {
        Ok((first, second, third, fourth)) => {
            put_value(d, 0, first);
            put_value(d, 8, second);
            put_value(d, 16, third);
            put_value(d, 24, fourth);
            0
        }
        Err(r) => code_of(r),
    }
}

// Refuses result bytes that are too few for four values.
fn enough(results_len: usize) -> Result<(), Refusal>
    ensures { EnoughAfter results_len result }
{
    if results_len < RESULT_BYTES {
        return Err(Refusal::TooShort(RESULT_BYTES));
    }
    Ok(())
}

// The walk's values: 1, busy, idle, preempted; or 0, tick, task, 0. Too few result bytes are refused before a tick is
// walked.
fn walk_values(set: &[u32], plan: &[u32], results_len: usize) -> Answer
    ensures { Answers (WalkEntry set.now plan.now) results_len result }
{
    let measured = walk::ready(set, plan)?;
    enough(results_len)?;
    match walk::walk_checked(set, plan, measured) {
        WalkEnd::Kept {
            busy,
            idle,
            preempted,
        } => Ok((1, busy, idle, preempted)),
        WalkEnd::Missed { tick, task } => Ok((0, tick, task, 0)),
    }
}

// The walk: 0 and 32 result bytes, or a refusal.
#[unsafe(no_mangle)]
pub extern "C" fn seedspell_walk(set: &[u32], plan: &[u32], results: &mut [u8]) -> u64
    ensures { WalkEntry set.now plan.now results.old results.new result }
{
    let answer = walk_values(set, plan, results.len());
    leave(results, answer)
}

// The values of a list planned by an engine: unit, load, L, energy. Too few result bytes are refused before 7.
fn plan_values(
    set: &[u32],
    engine: Engine,
    plan: &mut [u32],
    work: &mut [u32],
    results_len: usize,
) -> Answer
    ensures { Answers (λ d. PlanEntry engine set.now plan.old work.old d plan.new work.new) results_len result }
{
    let measured = planner::ready(set, engine, plan.len(), work.len())?;
    enough(results_len)?;
    let p = planner::plan_checked(set, engine, plan, work, measured)?;
    Ok((p.unit, p.load, p.hyper, p.energy))
}

// The planner, of the ordinary list: 0 and 32 result bytes, or a refusal.
#[unsafe(no_mangle)]
pub extern "C" fn seedspell_plan(
    set: &[u32],
    plan: &mut [u32],
    work: &mut [u32],
    results: &mut [u8],
) -> u64
    ensures { PlanEntry (Table Ordinary) set.now plan.old work.old results.old plan.new work.new results.new result }
{
    let engine = Engine::Table(Layout::Ordinary);
    let answer = plan_values(set, engine, plan, work, results.len());
    leave(results, answer)
}

// The dull engine. C lends it no working words; the one that is lent here stays as it is.
#[unsafe(no_mangle)]
pub extern "C" fn seedspell_plan_dull(set: &[u32], plan: &mut [u32], results: &mut [u8]) -> u64
    ensures { DullEntry set.now plan.old results.old plan.new results.new result }
{
    let mut spare = [0u32; 1];
    let answer = plan_values(set, Engine::Exhaustive, plan, &mut spare, results.len());
    leave(results, answer)
}

// The generator's values: the set's length, 0, 0, 0. Too few result bytes are refused before a word is written.
fn generate_values(seed: u32, n: u32, set: &mut [u32], results_len: usize) -> Answer
    ensures { Answers (λ d. GenerateEntry seed n set.old d set.new) results_len result }
{
    let needed = generator::ready(n, set.len())?;
    enough(results_len)?;
    generator::put_set(seed, n, set);
    Ok((needed as u64, 0, 0, 0))
}

// The generator: 0 and 32 result bytes, or a refusal.
#[unsafe(no_mangle)]
pub extern "C" fn seedspell_generate(seed: u32, n: u32, set: &mut [u32], results: &mut [u8]) -> u64
    ensures { GenerateEntry seed n set.old results.old set.new results.new result }
{
    let answer = generate_values(seed, n, set, results.len());
    leave(results, answer)
}
