//! What the line of a task says of its level.

ghost use Rattle.std.specs.Prelude.{◌≡◌, ◌-◌, ◌^◌, option_map, option_and_then, IfOk};
ghost use Rattle.prta_certfile.specs.Reading.{step_in, step_said, steps_said, words, first_word, overfull_in, reason_in, level_said};
ghost use Rattle.prta_number.specs.Decimal.{number_within};
ghost use Rattle.prta_certfile.specs.Parts.{level_from};
ghost use Rattle.prta_certfile.specs.declared.level.CertLevel.TheVariants.{Steps, BeyondCap};

use crate::cut::{cut, next_word};
use prta_mass::{NoMemory, UNIT};
use prta_number::number_within;
use std::alloc::Global;

// A level whose steps needn't rise.
#[derive(Drop)]
pub(crate) enum Said {
    Pairs(Vec<(u32, u64)>),
    OverFull { work: u64, hyperperiod: u64 },
    BeyondCap { peak: u64 },
}

// What stands after the name: steps after `level`, a reason after `none`. None where it isn't of the form.
pub(crate) fn read_said(alloc: Global, kind: &[u8], text: &[u8]) -> Result<Option<Said>, NoMemory>
    ensures { IfOk result (λ said. option_map level_from said ≡ level_said kind.now text.now) }
{
    if kind == b"level".as_slice() {
        return read_steps(alloc, text);
    }
    if kind == b"none".as_slice() {
        return Ok(read_reason(text));
    }
    Ok(None)
}

fn read_steps(alloc: Global, text: &[u8]) -> Result<Option<Said>, NoMemory>
    ensures { IfOk result (λ said. option_map level_from said ≡ option_map Steps (steps_said (words text.now))) }
{
    match read_pairs(alloc, text)? {
        Some(pairs) => Ok(Some(Said::Pairs(pairs))),
        None => Ok(None),
    }
}

// The steps that the words of the text write.
fn read_pairs(alloc: Global, text: &[u8]) -> Result<Option<Vec<(u32, u64)>>, NoMemory>
    ensures { IfOk result (λ pairs. option_map (λ v. v.items) pairs ≡ steps_said (words text.now)) }
{
    let mut pairs = Vec::new(alloc);
    let mut rest = Some(text);
    'words: while let Some(left) = rest {
        let (word, after) = next_word(left);
        rest = after;
        match read_pair(word) {
            Some(pair) => pairs.push(pair)?,
            None => return Ok(None),
        }
    }
    Ok(Some(pairs))
}

fn read_pair(word: &[u8]) -> Option<(u32, u64)>
    ensures { result ≡ step_said word.now }
{
    match cut(word, b':') {
        Some((place, value)) => read_step(place, value),
        None => None,
    }
}

fn read_step(place: &[u8], value: &[u8]) -> Option<(u32, u64)>
    ensures { result ≡ step_in (place.now, value.now) }
{
    match number_within(place, 0, u32::MAX as u64) {
        Some(place) => match number_within(value, 0, UNIT) {
            Some(value) => Some((place as u32, value)),
            None => None,
        },
        None => None,
    }
}

fn read_reason(text: &[u8]) -> Option<Said>
    ensures { option_map level_from result ≡ option_and_then reason_in (first_word text.now) }
{
    match cut(text, b' ') {
        Some((reason, rest)) => read_numbers(reason, rest),
        None => None,
    }
}

fn read_numbers(reason: &[u8], text: &[u8]) -> Option<Said>
    ensures { option_map level_from result ≡ reason_in (reason.now, text.now) }
{
    if reason == b"overfull".as_slice() {
        return read_overfull(text);
    }
    if reason == b"beyondcap".as_slice() {
        return read_beyond(text);
    }
    None
}

fn read_overfull(text: &[u8]) -> Option<Said>
    ensures { option_map level_from result ≡ option_and_then overfull_in (first_word text.now) }
{
    match cut(text, b' ') {
        Some((work, hyperperiod)) => read_two(work, hyperperiod),
        None => None,
    }
}

fn read_two(work: &[u8], hyperperiod: &[u8]) -> Option<Said>
    ensures { option_map level_from result ≡ overfull_in (work.now, hyperperiod.now) }
{
    match number_within(work, 0, u64::MAX) {
        Some(work) => match number_within(hyperperiod, 0, u64::MAX) {
            Some(hyperperiod) => Some(Said::OverFull { work, hyperperiod }),
            None => None,
        },
        None => None,
    }
}

fn read_beyond(text: &[u8]) -> Option<Said>
    ensures { option_map level_from result ≡ option_map BeyondCap (number_within 0 (2 ^ 64 - 1) text.now) }
{
    match number_within(text, 0, u64::MAX) {
        Some(peak) => Some(Said::BeyondCap { peak }),
        None => None,
    }
}
