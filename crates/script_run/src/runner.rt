//! The run of a script: each step is one event of the stack, whose frames go to a link that never fails.
ghost use Rattle.std.specs.Prelude.{◌≡◌, ◌∷◌, ◌++◌, [], map, IfOk, OnOk};
ghost use Rattle.efi_stack.specs.Stacks.{new_stack};
ghost use Rattle.doc_text.specs.declared.trace.TraceLine.{TraceLine as Line};
ghost use Rattle.doc_text.specs.declared.trace.TraceLine.TheVariants.{First, Last};
ghost use Rattle.script_run.specs.Calls.{call_of};
ghost use Rattle.script_run.specs.Running.{HasEvent, HasFirst, HasRun, HasSentOff, IsCalled, IsTrace, fired_lines, moved, settled, text_of};

use crate::calls::call_of;
use crate::lines::{fired_line, line_of, put_sent};
use doc_text::{TraceLine, trace_line};
use efi_base::{Bytes, NoMemory, Refuse, Tick};
use efi_link::SureLink;
use efi_stack::{AnyHandle, Stack};
use script_text::{Script, Step};
use std::alloc::Global;

/// The last moment that the stack's clock shows.
const MOST_TICK: u64 = 1 << 62;

/// Runs a script, and tells all that came of it. A step on a child that wasn't given is refused for its handle.
pub fn run_script(alloc: Global, script: &Script) -> Result<Bytes, NoMemory>
    ensures { IfOk result (IsTrace script.now) }
{
    let mut stack = Stack::new(alloc, script.mac)?;
    let mut given = Vec::new(alloc);
    let mut lines = Vec::new(alloc);
    lines.push(TraceLine::First)?;
    run_steps(
        alloc,
        &mut stack,
        &mut given,
        &mut lines,
        script.steps.as_slice(),
    )?;
    lines.push(TraceLine::Last)?;
    text_of(alloc, &lines)
}

/// These steps, one after another.
fn run_steps(
    alloc: Global,
    stack: &mut Stack,
    given: &mut Vec<AnyHandle>,
    lines: &mut Vec<TraceLine>,
    steps: &[Step],
) -> Result<(), NoMemory>
    ensures { OnOk result (HasRun given.old.items stack.old steps.now lines.old.items lines.new.items) }
{
    for step in steps {
        run_step(alloc, stack, given, lines, step)?;
    }
    Ok(())
}

/// One step, and all that comes of it.
fn run_step(
    alloc: Global,
    stack: &mut Stack,
    given: &mut Vec<AnyHandle>,
    lines: &mut Vec<TraceLine>,
    step: &Step,
) -> Result<(), NoMemory>
    ensures { OnOk result (HasEvent given.old.items stack.old step.now given.new.items stack.new lines.old.items lines.new.items) }
{
    begin(alloc, stack, given, lines, step)?;
    take_all(stack, lines)?;
    send_off(alloc, stack, lines)
}

/// The step itself, with its line.
fn begin(
    alloc: Global,
    stack: &mut Stack,
    given: &mut Vec<AnyHandle>,
    lines: &mut Vec<TraceLine>,
    step: &Step,
) -> Result<(), NoMemory>
    ensures { OnOk result (HasFirst given.old.items stack.old step.now given.new.items stack.new lines.old.items lines.new.items) }
{
    match step {
        Step::Tick(now) => {
            bring(stack, *now)?;
            lines.push(TraceLine::Tick(now.0))?;
            Ok(())
        }
        Step::Frame(frame) => {
            stack.frame(frame.as_slice())?;
            lines.push(TraceLine::Heard)?;
            Ok(())
        }
        _ => {
            let line = call(alloc, stack, given, step)?;
            lines.push(line)?;
            Ok(())
        }
    }
}

/// The clock comes to a moment; the moments of a script never fall.
fn bring(stack: &mut Stack, now: Tick) -> Result<(), NoMemory>
    ensures { OnOk result (stack.new ≡ moved stack.old now.0) }
{
    if now.0 < stack.moment().0 || now.0 > MOST_TICK {
        return Ok(());
    }
    stack.tick(now)
}

/// A call, with its line.
fn call(
    alloc: Global,
    stack: &mut Stack,
    given: &mut Vec<AnyHandle>,
    step: &Step,
) -> Result<TraceLine, NoMemory>
    ensures { IfOk result (λ line. IsCalled (call_of given.old.items step.now) given.old.items stack.old line given.new.items stack.new) }
{
    let Some(c) = call_of(alloc, given.as_slice(), step)? else {
        return Ok(TraceLine::Refused(Refuse::BadHandle));
    };
    let answer = stack.call(c);
    line_of(answer, given)
}

/// The lines of all tokens that ended.
fn take_all(stack: &mut Stack, lines: &mut Vec<TraceLine>) -> Result<(), NoMemory>
    ensures lines { OnOk result (lines.new.items ≡ lines.old.items ++ fired_lines stack.old) }
    ensures stack { OnOk result (stack.new ≡ settled stack.old) }
{
    while let Some(f) = stack.take_fired() {
        let line = fired_line(f)?;
        lines.push(line)?;
    }
    Ok(())
}

/// What the event left is sent, with the lines of the tokens that end by it and of the frames.
fn send_off(alloc: Global, stack: &mut Stack, lines: &mut Vec<TraceLine>) -> Result<(), NoMemory>
    ensures { OnOk result (HasSentOff stack.old stack.new lines.old.items lines.new.items) }
{
    let mut link = SureLink::new(alloc, Vec::new(alloc));
    stack.poll(&mut link)?;
    take_all(stack, lines)?;
    put_sent(alloc, lines, link.tries())
}

/// The lines as a text.
fn text_of(alloc: Global, lines: &[TraceLine]) -> Result<Bytes, NoMemory>
    ensures { IfOk result (λ text. text ≡ text_of lines.now) }
{
    let mut text = Vec::new(alloc);
    for line in lines {
        let spelled = trace_line(alloc, line)?;
        text.extend_from_slice(spelled.as_slice())?;
    }
    Ok(Bytes::from_vec(text))
}
