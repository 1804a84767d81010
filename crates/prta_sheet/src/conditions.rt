//! The conditions on a sheet's document: the key `format`, and in each of its tables the keys, their kinds and
//! their ranges.

ghost use Rattle.std.specs.Prelude.{◌≡◌, not, ◌&&◌, nat_le, length, option_map, codes, string_bytes, bytes_eq};
ghost use Rattle.std.specs.List.{list_all};
ghost use Rattle.std.specs.BTreeMap.{keys};
ghost use Rattle.toml.specs.Data.{get_member, as_table};
ghost use Rattle.toml.specs.View.{view, table_view, array_view};
ghost use Rattle.prta_mass.specs.Table.{when};
ghost use Rattle.prta_sheet.specs.declared.fault.Place.TheVariants as place;
ghost use Rattle.prta_sheet.specs.declared.fault.SheetFault.TheVariants as fault;
ghost use Rattle.prta_sheet.specs.Document.{table_at, array_at};
ghost use Rattle.prta_sheet.specs.Format.{top_rows, support_rows, task_rows, tables_row, states_cycle, is_array_of, is_table, is_pair, is_pair_with, is_share, is_time_with_weight, is_from_to, is_times, is_cycle};
ghost use Rattle.prta_sheet.specs.DocumentConditions.{is_listed, fails, format_of, format_fault, first_of, row_fault, rows_fault, fault_in, first_fault, document_fault, spot, task_spots, all_task_spots};
ghost use Rattle.prta_sheet.specs.Rows.{kind_of, range_of, row_of};

use crate::document::{array_at, integers_of, number_or, table_at, value_at};
use crate::fault::{Key, Place, SheetFault};
use crate::limits::{CYCLE_LIMIT, TIME_LIMIT};
use toml::value::Array;
use toml::{Table, Value};

/// What is tested of each table of a document.
#[derive(Clone, Copy, Debug, PartialEq, Eq)]
pub enum Condition {
    /// Each of its keys is listed.
    Listed,
    /// Each needed key is there.
    Needed,
    /// Each value is of its kind.
    Kind,
    /// Each number is in its range.
    Range,
}

/// What a key's value is.
#[derive(Clone, Copy, Debug, PartialEq, Eq)]
pub enum Form {
    /// An integer from the first number to the second.
    Integer(u32, u32),
    /// A text.
    Text,
    /// A table.
    Table,
    /// An array of tables.
    Tables,
    /// An array of pairs of a time and a weight.
    Times,
    /// An array of such arrays.
    Cycle,
    /// An array p, q that stands for p of q.
    Share,
}

// The first condition that fails, each over all tables before the next.
pub fn document_fault(document: &Table) -> Option<SheetFault>
    ensures { result ≡ document_fault (table_view document.now) }
{
    format_fault(document)
        .or(first_fault(Condition::Listed, document))
        .or(first_fault(Condition::Needed, document))
        .or(first_fault(Condition::Kind, document))
        .or(first_fault(Condition::Range, document))
}

// The value of `format` is the integer 1 or 2.
fn format_fault(document: &Table) -> Option<SheetFault>
    ensures { result ≡ format_fault (table_view document.now) }
{
    let format = format_of(document);
    (format != 1 && format != 2).then_some(SheetFault::Format)
}

// The number of the format; 0 where there is none.
fn format_of(document: &Table) -> u64
    ensures { result ≡ format_of (table_view document.now) }
{
    number_or(document, "format", 0)
}

// The first table that a condition refuses.
fn first_fault(condition: Condition, document: &Table) -> Option<SheetFault>
    ensures { result ≡ first_fault condition (table_view document.now) }
{
    top_fault(condition, document)
        .or(support_fault(condition, document))
        .or(tasks_fault(condition, document))
}

fn support_fault(condition: Condition, document: &Table) -> Option<SheetFault>
    ensures { result ≡ first_of (fault_in condition) (spot place.Support (λ table. support_rows) (table_at (codes "support") (table_view document.now))) }
{
    match table_at(document, "support") {
        Some(table) => support_table_fault(condition, table),
        None => None,
    }
}

fn tasks_fault(condition: Condition, document: &Table) -> Option<SheetFault>
    ensures { result ≡ first_of (fault_in condition) (all_task_spots (format_of (table_view document.now)) (array_at (codes "task") (table_view document.now))) }
{
    match array_at(document, "task") {
        Some(items) => items_fault(condition, format_of(document), items),
        None => None,
    }
}

// The first table among the elements of `task` that a condition refuses.
fn items_fault(condition: Condition, format: u64, items: &Array) -> Option<SheetFault>
    ensures { result ≡ first_of (fault_in condition) (task_spots format 0 (array_view items.now)) }
{
    for i in 0..items.len() {
        if let Some(fault) = item_fault(condition, format, i, &items[i]) {
            return Some(fault);
        }
    }
    None
}

fn item_fault(condition: Condition, format: u64, i: usize, item: &Value) -> Option<SheetFault>
    ensures { result ≡ first_of (fault_in condition) (spot (place.Task i) (λ table. task_rows (states_cycle format table)) (as_table (view item.now))) }
{
    match item.as_table() {
        Some(table) => task_table_fault(condition, states_cycle(format, table), i, table),
        None => None,
    }
}

// In format 2 a task may have the key `cycle` in place of `times`.
fn states_cycle(format: u64, table: &Table) -> bool
    ensures { result ≡ states_cycle format (table_view table.now) }
{
    format == 2 && value_at(table, "cycle").is_some()
}

// What refuses the top.
#[tactic(auto, using(crate::proofs::Keys::list_all_keys))]
fn top_fault(condition: Condition, table: &Table) -> Option<SheetFault>
    ensures { result ≡ fault_in condition (record { at = place.Top; rows = top_rows; table = table_view table.now }) }
{
    match condition {
        Condition::Listed => unlisted(Place::Top, all_are_top_keys(table)),
        Condition::Needed | Condition::Kind | Condition::Range => top_row_fault(condition, table),
    }
}

fn top_row_fault(condition: Condition, table: &Table) -> Option<SheetFault>
    ensures { result ≡ rows_fault condition (record { at = place.Top; rows = top_rows; table = table_view table.now }) }
{
    let at = Place::Top;
    let tested = Tested {
        condition,
        at,
        table,
    };
    tested
        .row("format", Key::Format, true, Form::Integer(1, 2))
        .or(tested.row("cap", Key::Cap, false, Form::Integer(3, 16_384)))
        .or(tested.row(
            "hyperperiods",
            Key::Hyperperiods,
            false,
            Form::Integer(1, 64),
        ))
        .or(tested.row("turns", Key::Turns, false, Form::Integer(0, 64)))
        .or(tested.row("support", Key::Support, false, Form::Table))
        .or(tested.row("task", Key::Task, true, Form::Tables))
}

// What refuses the table `support`.
#[tactic(auto, using(crate::proofs::Keys::list_all_keys))]
fn support_table_fault(condition: Condition, table: &Table) -> Option<SheetFault>
    ensures { result ≡ fault_in condition (record { at = place.Support; rows = support_rows; table = table_view table.now }) }
{
    match condition {
        Condition::Listed => unlisted(Place::Support, all_are_support_keys(table)),
        Condition::Needed | Condition::Kind | Condition::Range => support_row_fault(
            condition, table,
        ),
    }
}

fn support_row_fault(condition: Condition, table: &Table) -> Option<SheetFault>
    ensures { result ≡ rows_fault condition (record { at = place.Support; rows = support_rows; table = table_view table.now }) }
{
    let at = Place::Support;
    let tested = Tested {
        condition,
        at,
        table,
    };
    tested
        .row("fine", Key::Fine, true, Form::Integer(0, 16_383))
        .or(tested.row("step", Key::Step, true, Form::Integer(1, 16_384)))
}

// What refuses the table of the i-th element of `task`, which states a cycle or doesn't.
#[tactic(auto, using(crate::proofs::Keys::list_all_keys))]
fn task_table_fault(
    condition: Condition,
    cycle: bool,
    i: usize,
    table: &Table,
) -> Option<SheetFault>
    ensures { result ≡ fault_in condition (record { at = place.Task i; rows = task_rows cycle; table = table_view table.now }) }
{
    match condition {
        Condition::Listed => unlisted(Place::Task(i), all_are_task_keys(cycle, table)),
        Condition::Needed | Condition::Kind | Condition::Range => task_row_fault(
            condition, cycle, i, table,
        ),
    }
}

fn task_row_fault(condition: Condition, cycle: bool, i: usize, table: &Table) -> Option<SheetFault>
    ensures { result ≡ rows_fault condition (record { at = place.Task i; rows = task_rows cycle; table = table_view table.now }) }
{
    let at = Place::Task(i);
    let tested = Tested {
        condition,
        at,
        table,
    };
    tested
        .row("name", Key::Name, true, Form::Text)
        .or(tested.row("offset", Key::Offset, false, Form::Integer(0, 999_999)))
        .or(tested.row("period", Key::Period, true, Form::Integer(1, 1_000_000)))
        .or(tested.row("deadline", Key::Deadline, true, Form::Integer(1, 1_000_000)))
        .or(tested.tables_row(cycle))
        .or(tested.row("allow", Key::Allow, false, Form::Share))
}

// ---- keys

fn unlisted(at: Place, all_are_listed: bool) -> Option<SheetFault>
    ensures { result ≡ when (not all_are_listed) (fault.UnknownKey at) }
{
    (!all_are_listed).then_some(SheetFault::UnknownKey(at))
}

fn all_are_top_keys(table: &Table) -> bool
    ensures { result ≡ list_all (λ key. is_listed top_rows (string_bytes key)) (keys table.now) }
{
    table.keys().all(|key| is_top_key(key.as_str()))
}

fn is_top_key(key: &str) -> bool
    ensures { result ≡ is_listed top_rows key.now }
{
    (key == "format" || key == "cap" || key == "hyperperiods")
        || (key == "turns" || key == "support" || key == "task")
}

fn all_are_support_keys(table: &Table) -> bool
    ensures { result ≡ list_all (λ key. is_listed support_rows (string_bytes key)) (keys table.now) }
{
    table.keys().all(|key| is_support_key(key.as_str()))
}

fn is_support_key(key: &str) -> bool
    ensures { result ≡ is_listed support_rows key.now }
{
    key == "fine" || key == "step"
}

fn all_are_task_keys(cycle: bool, table: &Table) -> bool
    ensures { result ≡ list_all (λ key. is_listed (task_rows cycle) (string_bytes key)) (keys table.now) }
{
    table.keys().all(|key| is_task_key(cycle, key.as_str()))
}

fn is_task_key(cycle: bool, key: &str) -> bool
    ensures { result ≡ is_listed (task_rows cycle) key.now }
{
    (key == "name" || key == "offset" || key == "period")
        || (key == "deadline" || is_tables_key(cycle, key) || key == "allow")
}

fn is_tables_key(cycle: bool, key: &str) -> bool
    ensures { result ≡ bytes_eq key.now (tables_row cycle).text }
{
    if cycle {
        key == "cycle"
    } else {
        key == "times"
    }
}

// ---- rows

// A table of the document that is tested, and its place.
#[derive(Clone, Copy)]
struct Tested<'a> {
    condition: Condition,
    at: Place,
    table: &'a Table,
}

impl<'a> Tested<'a> {
    // What refuses the value at a key, or the lack of one.
    fn row(&self, text: &str, key: Key, needed: bool, form: Form) -> Option<SheetFault>
        ensures { result ≡ row_fault self.now.condition self.now.at (row_of text.now key needed form) (get_member text.now (table_view self.now.table.now)) }
    {
        let value = value_at(self.table, text);
        match self.condition {
            Condition::Listed => None,
            Condition::Needed => {
                (needed && value.is_none()).then_some(SheetFault::MissingKey(self.at, key))
            }
            Condition::Kind => {
                is_of_other_kind(form, value).then_some(SheetFault::WrongKind(self.at, key))
            }
            Condition::Range => {
                is_out_of_range(form, value).then_some(SheetFault::OutOfRange(self.at, key))
            }
        }
    }

    // What refuses the tables of a task that states a cycle, or doesn't.
    fn tables_row(&self, cycle: bool) -> Option<SheetFault>
        ensures { result ≡ row_fault self.now.condition self.now.at (tables_row cycle) (get_member (tables_row cycle).text (table_view self.now.table.now)) }
    {
        if cycle {
            self.row("cycle", Key::Cycle, true, Form::Cycle)
        } else {
            self.row("times", Key::Times, true, Form::Times)
        }
    }
}

fn is_of_other_kind(form: Form, value: Option<&Value>) -> bool
    ensures { result ≡ fails (kind_of form) (option_map (λ v. view v.now) value.entry) }
{
    match value {
        Some(value) => !has_kind(form, value),
        None => false,
    }
}

fn is_out_of_range(form: Form, value: Option<&Value>) -> bool
    ensures { result ≡ fails (range_of form) (option_map (λ v. view v.now) value.entry) }
{
    match value {
        Some(value) => !is_in_range(form, value),
        None => false,
    }
}

fn has_kind(form: Form, value: &Value) -> bool
    ensures { result ≡ kind_of form (view value.now) }
{
    match form {
        Form::Integer(_, _) => value.is_integer(),
        Form::Text => value.is_str(),
        Form::Table => value.is_table(),
        Form::Tables => are_tables(value),
        Form::Times => are_pairs(value),
        Form::Cycle => are_arrays_of_pairs(value),
        Form::Share => is_pair(value),
    }
}

fn is_in_range(form: Form, value: &Value) -> bool
    ensures { result ≡ range_of form (view value.now) }
{
    match form {
        Form::Integer(low, high) => is_from_to(low, high, value),
        Form::Text | Form::Table | Form::Tables => true,
        Form::Times => are_points(value),
        Form::Cycle => is_cycle(value),
        Form::Share => is_share(value),
    }
}

fn is_from_to(low: u32, high: u32, value: &Value) -> bool
    ensures { result ≡ is_from_to low high (view value.now) }
{
    match value.as_integer() {
        Some(n) => low as i64 <= n && n <= high as i64,
        None => false,
    }
}

// An array of tables.
fn are_tables(value: &Value) -> bool
    ensures { result ≡ is_array_of is_table (view value.now) }
{
    match value.as_array() {
        Some(items) => each_is_table(items),
        None => false,
    }
}

fn each_is_table(items: &Array) -> bool
    ensures { result ≡ list_all (λ v. is_table (view v)) items.now.items }
{
    items.iter().all(|item| item.is_table())
}

// An array of pairs of integers.
fn are_pairs(value: &Value) -> bool
    ensures { result ≡ is_array_of is_pair (view value.now) }
{
    match value.as_array() {
        Some(items) => each_is_pair(items),
        None => false,
    }
}

fn each_is_pair(items: &Array) -> bool
    ensures { result ≡ list_all (λ v. is_pair (view v)) items.now.items }
{
    items.iter().all(|item| is_pair(item))
}

// An array of arrays of pairs of integers.
fn are_arrays_of_pairs(value: &Value) -> bool
    ensures { result ≡ is_array_of (is_array_of is_pair) (view value.now) }
{
    match value.as_array() {
        Some(items) => each_has_pairs(items),
        None => false,
    }
}

fn each_has_pairs(items: &Array) -> bool
    ensures { result ≡ list_all (λ v. is_array_of is_pair (view v)) items.now.items }
{
    items.iter().all(|item| are_pairs(item))
}

#[tactic(auto, using(crate::proofs::Items::is_pair_with_integers))]
fn is_pair(value: &Value) -> bool
    ensures { result ≡ is_pair (view value.now) }
{
    integers_of(value).is_some()
}

// An array of pairs in the ranges of a time and a weight.
fn are_points(value: &Value) -> bool
    ensures { result ≡ is_times (view value.now) }
{
    match value.as_array() {
        Some(items) => each_is_point(items),
        None => false,
    }
}

fn each_is_point(items: &Array) -> bool
    ensures { result ≡ list_all (λ v. (is_pair_with is_time_with_weight) (view v)) items.now.items }
{
    items.iter().all(|item| is_point(item))
}

#[tactic(auto, using(crate::proofs::Items::is_pair_with_integers))]
fn is_point(value: &Value) -> bool
    ensures { result ≡ is_pair_with is_time_with_weight (view value.now) }
{
    match integers_of(value) {
        Some((time, weight)) => 0 <= time && time <= TIME_LIMIT as i64 && 0 <= weight,
        None => false,
    }
}

// An array of 1 to 16 such arrays.
fn is_cycle(value: &Value) -> bool
    ensures { result ≡ is_cycle (view value.now) }
{
    match value.as_array() {
        Some(items) => are_tables_of_cycle(items),
        None => false,
    }
}

fn are_tables_of_cycle(items: &Array) -> bool
    ensures { result ≡ ((nat_le 1 (length items.now.items) && nat_le (length items.now.items) 16) && list_all (λ v. is_times (view v)) items.now.items) }
{
    are_few(items) && each_has_points(items)
}

fn are_few(items: &Array) -> bool
    ensures { result ≡ (nat_le 1 (length items.now.items) && nat_le (length items.now.items) 16) }
{
    1 <= items.len() && items.len() <= CYCLE_LIMIT
}

fn each_has_points(items: &Array) -> bool
    ensures { result ≡ list_all (λ v. is_times (view v)) items.now.items }
{
    items.iter().all(|item| are_points(item))
}

// An array p, q in the ranges of an allowance.
#[tactic(auto, using(crate::proofs::Items::is_pair_with_integers))]
fn is_share(value: &Value) -> bool
    ensures { result ≡ is_pair_with is_share (view value.now) }
{
    match integers_of(value) {
        Some((part, whole)) => {
            1 <= whole && whole <= 1_000_000_000_000_000_000 && 0 <= part && part <= whole
        }
        None => false,
    }
}
