//! Lines that tell what came of an event. How they are spelled isn't here.
ghost use Rattle.std.specs.Prelude.{◌≡◌, ◌++◌, map, IfOk, OnOk};
ghost use Rattle.script_run.specs.Lines.{fired_line, given_after, line_of, sent_line, unit_of};

use doc_text::{TraceEnd, TraceLine, TraceUnit};
use drv_mnp::MnpWork;
use efi_base::{Bytes, End, NoMemory, Refuse};
use efi_link::Try;
use efi_stack::{Answer, AnyHandle, AnyWork, Fired};
use std::alloc::Global;

/// The line of an answer. A child that was made is given the next number.
pub(crate) fn line_of(answer: Answer, given: &mut Vec<AnyHandle>) -> Result<TraceLine, NoMemory>
    ensures line { IfOk result (λ line. line ≡ line_of given.old.items answer) }
    ensures given { OnOk result (given.new.items ≡ given_after given.old.items answer) }
{
    match answer {
        Answer::Done => Ok(TraceLine::Done),
        Answer::Found(mac) => Ok(TraceLine::Found(mac)),
        Answer::Made(h) => {
            given.push(h)?;
            Ok(TraceLine::Handle(given.len() as u64))
        }
        Answer::Posted(token) => Ok(TraceLine::Token(token.0)),
        Answer::Refused(Refuse::OutOfResources, _) => Err(NoMemory),
        Answer::Refused(why, _) => Ok(TraceLine::Refused(why)),
    }
}

/// What came of a work that ended well.
fn unit_of(work: AnyWork) -> TraceUnit
    ensures { result ≡ unit_of work }
{
    match work {
        AnyWork::Mnp(MnpWork::Receive(Some(frame))) => TraceUnit::Octets(frame),
        AnyWork::Mnp(_) => TraceUnit::Nothing,
        AnyWork::Arp(w) => match w.mac {
            Some(mac) => TraceUnit::Mac(mac),
            None => TraceUnit::Nothing,
        },
    }
}

/// The line of a token that ended.
pub(crate) fn fired_line(f: Fired) -> Result<TraceLine, NoMemory>
    ensures { IfOk result (λ line. line ≡ fired_line f) }
{
    match f.end {
        End::Success => Ok(TraceLine::Fired(f.token.0, TraceEnd::Success(unit_of(f.work)))),
        End::OutOfResources => Err(NoMemory),
        end => Ok(TraceLine::Fired(f.token.0, TraceEnd::Failed(end))),
    }
}

/// The lines of the frames that were sent, behind the others.
pub(crate) fn put_sent(
    alloc: Global,
    lines: &mut Vec<TraceLine>,
    tries: &[Try],
) -> Result<(), NoMemory>
    ensures { OnOk result (lines.new.items ≡ lines.old.items ++ map sent_line tries.now) }
{
    for t in tries {
        let frame = Bytes::copy_of(alloc, t.frame.as_slice())?;
        lines.push(TraceLine::Sent(frame))?;
    }
    Ok(())
}
