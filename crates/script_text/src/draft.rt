//! What the lines of a script say so far, and which line may stand behind them.
ghost use Rattle.std.specs.Prelude.{◌≡◌, IfOk};
ghost use Rattle.session_text.specs.Putting.{Puts};
ghost use Rattle.script_text.specs.Drafts.{is_at_head, may_come, next_line, next_step, noted, put_mac, put_seed, put_step, script_next, start};

use crate::step::{Step, step_of};
use crate::words::Words;
use efi_base::{Mac, NoMemory, Proto};
use session_text::{Rows, split, u32_in, unicast_mac};
use std::alloc::Global;

/// What the lines so far say, and whether the last one was read.
#[derive(Drop)]
pub struct Draft {
    /// Whether the first line was read.
    pub begun: bool,
    pub ended: bool,
    pub mac: Option<Mac>,
    pub seed: Option<u32>,
    /// The moment of the last line that tells one.
    pub last: u64,
    /// The protocols of the lines that create, in order.
    pub made: Rows<Proto>,
    /// How many lines post.
    pub posts: u64,
    pub steps: Rows<Step>,
}

/// No line was read.
pub fn new_draft(alloc: Global) -> Draft
    ensures { result ≡ start }
{
    Draft {
        begun: false,
        ended: false,
        mac: None,
        seed: None,
        last: 0,
        made: Rows::new(alloc),
        posts: 0,
        steps: Rows::new(alloc),
    }
}

/// Whether the seed and the steps are still to come.
fn is_at_head(draft: &Draft) -> bool
    ensures { result ≡ is_at_head draft.now }
{
    draft.seed.is_none() && draft.steps.is_empty()
}

/// The station's Ethernet address stands behind the first line.
fn put_mac(draft: &mut Draft, text: &[u8]) -> bool
    ensures { Puts (put_mac draft.old text.now) draft.new result }
{
    if draft.mac.is_some() || !is_at_head(draft) {
        return false;
    }
    let Some(mac) = unicast_mac(text) else {
        return false;
    };
    draft.mac = Some(mac);
    true
}

/// The station's number stands in front of the steps.
fn put_seed(draft: &mut Draft, text: &[u8]) -> bool
    ensures { Puts (put_seed draft.old text.now) draft.new result }
{
    if !is_at_head(draft) {
        return false;
    }
    let Some(seed) = u32_in(text, 0, u64::from(u32::MAX)) else {
        return false;
    };
    draft.seed = Some(seed);
    true
}

/// Whether a step may come behind the moment of the last one.
fn may_come(last: u64, step: &Step) -> bool
    ensures { result ≡ may_come last step.now }
{
    match step {
        Step::Tick(tick) => tick.0 >= last,
        _ => true,
    }
}

/// Notes what later lines are held against. Where there are more tokens than a number can tell, there is no room.
fn note(draft: &mut Draft, step: &Step) -> Result<(), NoMemory>
    ensures { IfOk result (λ _. draft.new ≡ noted draft.old step.now) }
{
    match step {
        Step::Create(proto) => draft.made.push(*proto)?,
        Step::Post(_, _) => {
            let Some(posts) = draft.posts.checked_add(1) else {
                return Err(NoMemory);
            };
            draft.posts = posts;
        }
        Step::Tick(tick) => draft.last = tick.0,
        _ => {}
    }
    Ok(())
}

/// Puts a step behind the others. Whether it may stand there.
fn put_step(draft: &mut Draft, step: Step) -> Result<bool, NoMemory>
    ensures { IfOk result (λ good. Puts (put_step draft.old step) draft.new good) }
{
    if !may_come(draft.last, &step) {
        return Ok(false);
    }
    note(draft, &step)?;
    draft.steps.push(step)?;
    Ok(true)
}

/// Reads a step. Whether it is good behind those that were read.
fn next_step(
    alloc: Global,
    draft: &mut Draft,
    key: &[u8],
    words: Words<'_>,
) -> Result<bool, NoMemory>
    ensures { IfOk result (λ good. Puts (next_step draft.old key.now words.entry) draft.new good) }
{
    match step_of(alloc, draft.made.as_slice(), draft.posts, key, words)? {
        Some(step) => put_step(draft, step),
        None => Ok(false),
    }
}

/// Reads a line between the first one and the last. Whether it is good behind those that were read.
fn next_line(alloc: Global, draft: &mut Draft, text: &[u8]) -> Result<bool, NoMemory>
    ensures { IfOk result (λ good. Puts (next_line draft.old text.now) draft.new good) }
{
    let Some((key, rest)) = split(text) else {
        return Ok(false);
    };
    if key == b"mac".as_slice() {
        return Ok(put_mac(draft, rest));
    }
    if key == b"seed".as_slice() {
        return Ok(put_seed(draft, rest));
    }
    next_step(alloc, draft, key, Words::new(rest))
}

/// Reads a line. Whether it is good behind those that were read.
#[tactic(auto, unfolding(crate::specs::Drafts::script_next))]
pub fn read_line(alloc: Global, draft: &mut Draft, text: &[u8]) -> Result<bool, NoMemory>
    ensures { IfOk result (λ good. Puts (script_next draft.old text.now) draft.new good) }
{
    if draft.ended {
        return Ok(false);
    }
    if !draft.begun {
        draft.begun = text == b"efiscript 1".as_slice();
        return Ok(draft.begun);
    }
    if text == b"end".as_slice() {
        draft.ended = true;
        return Ok(true);
    }
    next_line(alloc, draft, text)
}
