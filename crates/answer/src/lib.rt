// The program's whole job as a call, text in, text out: it reads the set, plans it, walks the plan, and gives the
// lines, or the line of the refusal. Standard input and output are left to the program.
#![tactic(auto)]

ghost use Rattle.answer.specs.Answer.{Responds};
ghost use Rattle.answer.specs.Steps.{PutAnswer, PutSet, PlannedSet, PlannedAfter};

use layout::Layout;
use lines::WalkFigures;
use places::{MOST_TASKS, MOST_WORDS};
use taskset::{CopyAnswer, Engine, Planned, Refusal, WalkEnd};

// The working words that the program has.
const WORK_WORDS: usize = 16_384;

// The plan for a set's words, to the front of the plan list: how many tasks it has, and what it comes to.
fn plan_set(set: &[u32], plan: &mut [u32; MOST_TASKS]) -> Result<(usize, Planned), Refusal>
    ensures { PlannedAfter set.now plan.new result }
{
    let mut work = [0u32; WORK_WORDS];
    let engine = Engine::Table(Layout::Ordinary);
    let measured = planner::ready(set, engine, MOST_TASKS, WORK_WORDS)?;
    let planned = planner::plan_checked(set, engine, plan, &mut work, measured)?;
    Ok((measured.tasks, planned))
}

// The lines of a plan that was given, with those of its walk. A plan from the planner is always kept.
fn answer_plan(set: &[u32], plan: &[u32], planned: Planned, text: &mut [u8; 2048]) -> usize
    requires { PlannedSet set.now plan.now planned.unit planned.load planned.hyper planned.energy }
    ensures { PutSet set.now text.old text.new result }
{
    match walk::walk(set, plan) {
        Ok(
            WalkEnd::Kept {
                busy,
                idle,
                preempted,
            },
        ) => {
            let w = WalkFigures {
                busy,
                idle,
                preempted,
            };
            lines::put_plan(text, planned, plan, w)
        }
        Ok(WalkEnd::Missed { .. }) => unreachable!(),
        Err(_) => unreachable!(),
    }
}

// The lines for a set's words: of a plan, or of the planner's refusal.
fn answer_set(set: &[u32], text: &mut [u8; 2048]) -> usize
    ensures { PutSet set.now text.old text.new result }
{
    let mut plan = [0u32; MOST_TASKS];
    match plan_set(set, &mut plan) {
        Ok((tasks, planned)) => answer_plan(set, &plan[..tasks], planned, text),
        Err(r) => lines::put_refused(text, r),
    }
}

// The lines for a text.
fn answer_text(input: &[u8], text: &mut [u8; 2048]) -> usize
    ensures { PutAnswer input.now text.old text.new result }
{
    let mut set = [0u32; MOST_WORDS];
    match reader::read(input, &mut set) {
        Ok(n) => answer_set(&set[..n], text),
        Err(r) => lines::put_refused(text, r),
    }
}

// What the program prints for an input, to the front of the buffer lent: how many bytes, or 6 with the bytes needed and
// nothing changed.
pub fn respond(input: &[u8], output: &mut [u8]) -> CopyAnswer
    ensures { Responds input.now output.old output.new result }
{
    let mut text = [0u8; 2048];
    let n = answer_text(input, &mut text);
    if output.len() < n {
        return Err(Refusal::TooShort(n));
    }
    Ok(printer::put_bytes(output, &text[..n]))
}
