// The lines that the program prints: of a plan, of its rates, of its walk, and of a refusal. What stands in them is
// left to the caller.
#![tactic(auto)]

ghost use Rattle.std.specs.Prelude.{◌++◌, ◌≤◌, length};
ghost use Rattle.taskset.specs.Refusals.{number, second};
ghost use Rattle.printer.specs.Puts.{Put};
ghost use Rattle.lines.specs.Lines.{pair_line, plan_line, rate_line, rate_lines, walk_line, refused_line};

use printer::{Buffer, Sink};
use taskset::{Planned, Refusal};

// A line of two numbers behind a name. Inlined, so that the name's length is known where it is copied: else the program
// would ask the C library for memmove, which is in no list of what is trusted.
#[inline(always)]
fn pair<S: Sink>(sink: &mut S, name: &[u8], first: u64, beside: u64)
    requires { S.fits sink.old (pair_line name.now first beside) }
    ensures { S.takes sink.old (pair_line name.now first beside) sink.new }
{
    sink.put_bytes(name);
    sink.put_number(first);
    sink.put_field(b" ", beside);
    sink.put_bytes(b")\n");
}

// The line of a refusal, to the front of a buffer. How many bytes.
pub fn put_refused(buf: &mut [u8], f: Refusal) -> usize
    requires { length (refused_line (number f) (second f)) ≤ length buf.old }
    ensures { Put (refused_line (number f) (second f)) buf.old buf.new result }
{
    let mut lent = Buffer { all: buf, at: 0 };
    pair(
        &mut lent,
        b"(refused ",
        figures::number_of(f),
        figures::second_of(f),
    );
    lent.at
}

// A task's line. (A function of its own: a byte string in a loop would be part of the loop's invariant.)
fn rate<S: Sink>(sink: &mut S, task: u64, rate: u64)
    requires { S.fits sink.old (rate_line task rate) }
    ensures { S.takes sink.old (rate_line task rate) sink.new }
{
    pair(sink, b"(rate ", task, rate);
}

// A line for each rate number of a plan.
fn rates<S: Sink>(sink: &mut S, plan: &[u32])
    requires { S.fits sink.old (rate_lines 1 plan.now) }
    ensures { S.takes sink.old (rate_lines 1 plan.now) sink.new }
{
    for (place, number) in plan.iter().enumerate() {
        rate(sink, (place + 1) as u64, u64::from(*number));
    }
}

// The plan's own line.
fn plan_line<S: Sink>(sink: &mut S, unit: u64, load: u64, hyper: u64, energy: u64)
    requires { S.fits sink.old (plan_line unit load hyper energy) }
    ensures { S.takes sink.old (plan_line unit load hyper energy) sink.new }
{
    sink.put_field(b"(plan (unit ", unit);
    sink.put_field(b") (load ", load);
    sink.put_field(b" ", hyper);
    sink.put_field(b") (energy ", energy);
    sink.put_bytes(b"))\n");
}

// The line of a walk that was kept.
fn walk_line<S: Sink>(sink: &mut S, busy: u64, idle: u64, preempted: u64)
    requires { S.fits sink.old (walk_line busy idle preempted) }
    ensures { S.takes sink.old (walk_line busy idle preempted) sink.new }
{
    sink.put_field(b"(walk (busy ", busy);
    sink.put_field(b") (idle ", idle);
    sink.put_field(b") (preempted ", preempted);
    sink.put_bytes(b"))\n");
}

// The numbers of a walk's line.
#[derive(Clone, Copy)]
pub struct WalkFigures {
    pub busy: u64,
    pub idle: u64,
    pub preempted: u64,
}

// The lines of a plan: its own, one a task, and that of its walk. How many bytes.
pub fn put_plan(buf: &mut [u8], p: Planned, plan: &[u32], w: WalkFigures) -> usize
    requires { length (plan_line p.unit p.load p.hyper p.energy ++ (rate_lines 1 plan.now ++ walk_line w.busy w.idle w.preempted)) ≤ length buf.old }
    ensures { Put (plan_line p.unit p.load p.hyper p.energy ++ (rate_lines 1 plan.now ++ walk_line w.busy w.idle w.preempted)) buf.old buf.new result }
{
    let mut lent = Buffer { all: buf, at: 0 };
    plan_line(&mut lent, p.unit, p.load, p.hyper, p.energy);
    rates(&mut lent, plan);
    walk_line(&mut lent, w.busy, w.idle, w.preempted);
    lent.at
}
