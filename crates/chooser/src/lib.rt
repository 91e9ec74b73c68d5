// The chooser: of two lent announcement lines the one whose call is better, itself and no copy.
#![tactic(auto)]

ghost use Rattle.std.specs.Prelude.{◌≡◌};
ghost use Rattle.frame.specs.Refusal.{number_of};
ghost use Rattle.chooser.specs.Choice.{announced_by, line_announced, asked_of, asked_of_line};
ghost use Rattle.chooser.specs.Choice.{chosen_number, calls_choice, choice_of, choice_number, place, place_of};

use frame::{GroupCall, Message, Refusal};

// Which of two lines is chosen.
#[derive(Clone, Copy, PartialEq, Eq)]
pub enum Winner {
    First = 1,
    Second = 2,
}

// A call with what a choice asks of it, and nothing else: what is not asked for need not be read from the line.
fn asked_of(call: GroupCall) -> GroupCall
    ensures { result ≡ asked_of call }
{
    GroupCall {
        identifier: call.identifier,
        group: call.group,
        call_type: call.call_type,
        start: call.start,
        ..GroupCall::NONE
    }
}

// What a choice asks of the call that a message announces, if it is an announcement.
fn announced_by(message: Message) -> Option<GroupCall>
    ensures { result ≡ asked_of_line (announced_by message) }
{
    match message {
        Message::Announcement(call, _) => Some(asked_of(call)),
        _ => None,
    }
}

// The same of a line, if it is readable and an announcement. Handed on as `&line[..]`, here and in choice, a line's
// place and length stay in registers.
fn line_announced(line: &[u8]) -> Option<GroupCall>
    ensures { result ≡ asked_of_line (line_announced line.now) }
{
    let frame = reader::read_line(&line[..]).ok()?;
    announced_by(frame.message)
}

// Which of two calls is chosen: the better one, where both are of one group and have two identifiers.
fn calls_choice(first: GroupCall, second: GroupCall) -> Option<Winner>
    ensures { chosen_number result ≡ calls_choice first second }
{
    if first.group != second.group || first.identifier == second.identifier {
        return None;
    }
    if group_order::better(first, second) {
        return Some(Winner::First);
    }
    Some(Winner::Second)
}

// Which of two lines is chosen, if there is a choice.
#[tactic(auto, unfolding(crate::specs::Choice::choice_of))]
pub fn choice(first: &[u8], second: &[u8]) -> Option<Winner>
    ensures { chosen_number result ≡ choice_of first.now second.now }
{
    let one = line_announced(&first[..]);
    let other = line_announced(&second[..]);
    match (one, other) {
        (Some(call), Some(other_call)) => calls_choice(call, other_call),
        _ => None,
    }
}

// Whether one can choose between two lines; else the refusal whose number is told: that of the first line, else that
// of the second, else 10 where they do not announce two calls of one group with two identifiers.
#[tactic(auto, unfolding(crate::specs::Choice::choice_number))]
pub fn choose_number(first: &[u8], second: &[u8]) -> Result<(), Refusal>
    ensures { number_of result ≡ choice_number first.now second.now }
{
    reader::check_line(first)?;
    reader::check_line(second)?;
    match choice(first, second) {
        Some(_) => Ok(()),
        None => Err(Refusal::NoChoice),
    }
}

// The line of the better call, itself and no copy; where there is no choice, no bytes where the first line begins.
// No Option: `place_of` promises these bytes, and their place.
pub fn choose<'a>(first: &'a [u8], second: &'a [u8]) -> &'a [u8]
    ensures { place result
        ≡ place_of (choice_of first.now second.now) first.entry second.entry }
{
    match choice(first, second) {
        Some(Winner::First) => first,
        Some(Winner::Second) => second,
        None => &first[..0],
    }
}
