//! The schedule: which frames are dropped, come twice or late, and which sends fail.
ghost use Rattle.std.specs.Prelude.{◌≡◌, Some, None, IfOk, MatchOption};
ghost use Rattle.session_text.specs.Putting.{Puts};
ghost use Rattle.session_text.specs.Schedule.{direction_of, drop_rule, every_of, one_of, put_rule, rule_line, select_of, select_with, timed_rule};

use crate::rows::Rows;
use crate::words::{behind, number_in, split, u32_in};
use efi_base::NoMemory;

/// The most lines of a schedule.
const MOST_RULES: usize = 1_000;

/// The most ticks by which a frame comes late.
const MOST_DELAY: u64 = 1_000_000;

/// The most frames of which one is selected.
const MOST_EVERY: u64 = 65_536;

#[derive(Clone, Copy, PartialEq, Eq, Debug)]
pub enum Direction {
    /// To the station.
    Down,
    /// To the server.
    Up,
}

/// Which frames of a direction, whose numbers begin at 1.
#[derive(Clone, Copy, PartialEq, Eq, Debug)]
pub enum Select {
    One(u64),
    /// Those whose number, divided by the first, leaves the second.
    Every(u32, u32),
}

/// A line of the schedule.
#[derive(Clone, Copy, PartialEq, Eq, Debug)]
pub enum Rule {
    /// The frame doesn't come.
    Drop(Direction, Select),
    /// A copy comes so many ticks later.
    Dup(Direction, Select, u32),
    /// The frame comes so many ticks later.
    Delay(Direction, Select, u32),
    /// The station's send of this number fails.
    FailTx(u64),
}

fn direction_of(text: &[u8]) -> Option<Direction>
    ensures { result ≡ direction_of text.now }
{
    if text == b"down".as_slice() {
        return Some(Direction::Down);
    }
    if text == b"up".as_slice() {
        return Some(Direction::Up);
    }
    None
}

/// The frames whose number, divided by the first, leaves the second.
fn every_of(by: &[u8], left: &[u8]) -> Option<Select>
    ensures { result ≡ every_of by.now left.now }
{
    let Some(by) = u32_in(by, 1, MOST_EVERY) else {
        return None;
    };
    let Some(left) = number_in(left, 0, MOST_EVERY) else {
        return None;
    };
    if left >= u64::from(by) {
        return None;
    }
    Some(Select::Every(by, left as u32))
}

fn one_of(text: &[u8]) -> Option<Select>
    ensures { result ≡ one_of text.now }
{
    number_in(text, 1, u64::MAX).map(|n| Select::One(n))
}

fn select_of(text: &[u8]) -> Option<Select>
    ensures { result ≡ select_of text.now }
{
    let Some(every) = behind(text, b"every") else {
        return one_of(text);
    };
    match split(every) {
        Some((by, left)) => every_of(by, left),
        None => None,
    }
}

/// Frames, and what stands behind them.
fn select_with(text: &[u8]) -> Option<(Select, &[u8])>
    ensures { MatchOption result (select_with text.now ≡ None) (λ s. select_with text.now ≡ Some (s.0, s.1.now)) }
{
    let Some((first, rest)) = split(text) else {
        return None;
    };
    if first != b"every".as_slice() {
        return match one_of(first) {
            Some(one) => Some((one, rest)),
            None => None,
        };
    }
    let Some((by, rest)) = split(rest) else {
        return None;
    };
    let Some((left, rest)) = split(rest) else {
        return None;
    };
    match every_of(by, left) {
        Some(every) => Some((every, rest)),
        None => None,
    }
}

fn drop_rule(text: &[u8]) -> Option<Rule>
    ensures { result ≡ drop_rule text.now }
{
    let Some((direction, select)) = split(text) else {
        return None;
    };
    let Some(direction) = direction_of(direction) else {
        return None;
    };
    select_of(select).map(|select| Rule::Drop(direction, select))
}

/// A direction, frames, and ticks.
fn timed_rule(text: &[u8]) -> Option<(Direction, Select, u32)>
    ensures { result ≡ timed_rule text.now }
{
    let Some((direction, rest)) = split(text) else {
        return None;
    };
    let Some(direction) = direction_of(direction) else {
        return None;
    };
    let Some((select, ticks)) = select_with(rest) else {
        return None;
    };
    u32_in(ticks, 1, MOST_DELAY).map(|ticks| (direction, select, ticks))
}

/// The line of this word, and what stands behind it.
pub fn rule_line(key: &[u8], text: &[u8]) -> Option<Rule>
    ensures { result ≡ rule_line key.now text.now }
{
    if key == b"drop".as_slice() {
        return drop_rule(text);
    }
    if key == b"dup".as_slice() {
        return timed_rule(text).map(|t| Rule::Dup(t.0, t.1, t.2));
    }
    if key == b"delay".as_slice() {
        return timed_rule(text).map(|t| Rule::Delay(t.0, t.1, t.2));
    }
    if key == b"failtx".as_slice() {
        return number_in(text, 0, u64::MAX).map(|n| Rule::FailTx(n));
    }
    None
}

/// Puts a line behind the others. Whether it has a place.
pub fn put_rule(rules: &mut Rows<Rule>, rule: Rule) -> Result<bool, NoMemory>
    ensures { IfOk result (λ good. Puts (put_rule rules.old rule) rules.new good) }
{
    if rules.len() >= MOST_RULES {
        return Ok(false);
    }
    rules.push(rule)?;
    Ok(true)
}
