//! What a line says.

ghost use Rattle.std.specs.Prelude.{◌≡◌, ◌≤◌, [], ◌∷◌, IfOk, IfSome};
ghost use Rattle.prta_session.specs.Text.{parts};
ghost use Rattle.prta_session.specs.Saying.{two_in, pair_said, pairs_in, table_in, deadline_in, allow_in, part_said, said_by, line_said};

use crate::name::{is_good_name, task_named};
use crate::part::next_part;
use prta_mass::NoMemory;
use prta_number::number_within;
use prta_sheet::Task;
use std::alloc::Global;
use std::marker::Model;

// What a line says that is of a form.
#[derive(Drop)]
pub(crate) enum Said {
    // To print.
    Print,
    // To change a part of the task of the name that stands there, if a task has it.
    Change { task: Option<usize>, part: Part },
}

// What is to be in the place of a part of a task.
#[derive(Drop)]
pub(crate) enum Part {
    Table { index: usize, pairs: Pairs },
    Deadline { value: u32 },
    Allow { p: u64, q: u64 },
}

// Pairs of a time and a weight that needn't make a table.
#[derive(Drop)]
pub(crate) struct Pairs {
    list: Vec<(u32, u64)>,
}

impl Model for Pairs {
    ghost use Rattle.std.specs.Prelude.{ℕ, List};

    ghost Value = { List (ℕ × ℕ) };

    ghost view = { λ s. s.list.items };
}

impl Pairs {
    // The pairs, in order.
    pub(crate) fn list(&self) -> &[(u32, u64)]
        ensures { result.now ≡ self.now }
    {
        &self.list
    }
}

// What the line says; None where it isn't of a form.
pub(crate) fn read_said(
    alloc: Global,
    tasks: &[Task],
    line: &[u8],
) -> Result<Option<Said>, NoMemory>
    ensures { IfOk result (λ said. said ≡ line_said tasks.now line.now) }
{
    let (kind, rest) = next_part(line, b' ');
    match rest {
        Some(rest) => read_change(alloc, tasks, kind, rest),
        None => Ok(read_print(kind)),
    }
}

fn read_print(kind: &[u8]) -> Option<Said>
    ensures { result ≡ said_by [] (kind.now ∷ []) }
{
    if kind == b"print".as_slice() {
        Some(Said::Print)
    } else {
        None
    }
}

// What a line of more than one word says, by its first word and the text after it.
fn read_change(
    alloc: Global,
    tasks: &[Task],
    kind: &[u8],
    text: &[u8],
) -> Result<Option<Said>, NoMemory>
    ensures { IfOk result (λ said. said ≡ said_by tasks.now (kind.now ∷ parts 32 text.now)) }
{
    let (name, rest) = next_part(text, b' ');
    if !is_good_name(name) {
        return Ok(None);
    }
    let Some(rest) = rest else {
        return Ok(None);
    };
    match read_part(alloc, kind, rest)? {
        Some(part) => Ok(Some(Said::Change {
            task: task_named(tasks, name),
            part,
        })),
        None => Ok(None),
    }
}

// What is to be changed, by the first word and the text after the name.
fn read_part(alloc: Global, kind: &[u8], text: &[u8]) -> Result<Option<Part>, NoMemory>
    ensures { IfOk result (λ part. part ≡ part_said kind.now (parts 32 text.now)) }
{
    if kind == b"table".as_slice() {
        return read_table(alloc, text);
    }
    if kind == b"deadline".as_slice() {
        return Ok(read_deadline(text));
    }
    if kind == b"allow".as_slice() {
        return Ok(read_allow(text));
    }
    Ok(None)
}

fn read_table(alloc: Global, text: &[u8]) -> Result<Option<Part>, NoMemory>
    ensures { IfOk result (λ part. part ≡ table_in (parts 32 text.now)) }
{
    let (index, rest) = next_part(text, b' ');
    let Some(rest) = rest else {
        return Ok(None);
    };
    let Some(index) = number_within(index, 0, u32::MAX as u64) else {
        return Ok(None);
    };
    match read_pairs(alloc, rest)? {
        Some(pairs) => Ok(Some(Part::Table {
            index: index as usize,
            pairs,
        })),
        None => Ok(None),
    }
}

fn read_deadline(text: &[u8]) -> Option<Part>
    ensures { result ≡ deadline_in (parts 32 text.now) }
{
    let (value, rest) = next_part(text, b' ');
    if rest.is_some() {
        return None;
    }
    match number_within(value, 0, u32::MAX as u64) {
        Some(value) => Some(Part::Deadline {
            value: value as u32,
        }),
        None => None,
    }
}

fn read_allow(text: &[u8]) -> Option<Part>
    ensures { result ≡ allow_in (parts 32 text.now) }
{
    match read_two(text, b' ', u64::MAX) {
        Some((p, q)) => Some(Part::Allow { p, q }),
        None => None,
    }
}

// The pairs that the words of the text write.
fn read_pairs(alloc: Global, text: &[u8]) -> Result<Option<Pairs>, NoMemory>
    ensures { IfOk result (λ pairs. pairs ≡ pairs_in (parts 32 text.now)) }
{
    let mut list = Vec::new(alloc);
    let mut rest = Some(text);
    'words: while let Some(left) = rest {
        let (word, after) = next_part(left, b' ');
        rest = after;
        match read_pair(word) {
            Some(pair) => list.push(pair)?,
            None => return Ok(None),
        }
    }
    Ok(Some(Pairs { list }))
}

fn read_pair(word: &[u8]) -> Option<(u32, u64)>
    ensures { result ≡ pair_said word.now }
{
    match read_two(word, b':', u32::MAX as u64) {
        Some((time, weight)) => Some((time as u32, weight)),
        None => None,
    }
}

// Two numbers with a byte between them, the first at most this.
fn read_two(text: &[u8], byte: u8, most: u64) -> Option<(u64, u64)>
    ensures numbers { result ≡ two_in most (parts byte text.now) }
    ensures low { IfSome result (λ two. two.0 ≤ most) }
{
    let (first, rest) = next_part(text, byte);
    let (second, more) = next_part(rest?, byte);
    if more.is_some() {
        return None;
    }
    match number_within(first, 0, most) {
        Some(first) => match number_within(second, 0, u64::MAX) {
            Some(second) => Some((first, second)),
            None => None,
        },
        None => None,
    }
}
