//! What a table of a sheet's document has at a key.

ghost use Rattle.std.specs.Prelude.{◌≡◌, option_map};
ghost use Rattle.toml.specs.Data.{get_member};
ghost use Rattle.toml.specs.View.{view, table_view, array_view};
ghost use Rattle.prta_sheet.specs.Document.{number_or, table_at, array_at};
ghost use Rattle.prta_sheet.specs.Stated.{text_of};
ghost use Rattle.prta_sheet.specs.Reading.{within, natural, number_in, integers_in, integers_of, point_in, point_of, share_in, share_of};

use crate::limits::TIME_LIMIT;
use toml::value::Array;
use toml::{Table, Value};

// The value at a key.
pub fn value_at<'a>(table: &'a Table, key: &str) -> Option<&'a Value>
    ensures { option_map (λ v. view v.now) result ≡ get_member key.now (table_view table.now) }
{
    table.get(key)
}

// The table at a key.
pub fn table_at<'a>(table: &'a Table, key: &str) -> Option<&'a Table>
    ensures { option_map (λ t. table_view t.now) result ≡ table_at key.now (table_view table.now) }
{
    match value_at(table, key) {
        Some(value) => value.as_table(),
        None => None,
    }
}

// The array at a key.
pub fn array_at<'a>(table: &'a Table, key: &str) -> Option<&'a Array>
    ensures { option_map (λ v. array_view v.now) result ≡ array_at key.now (table_view table.now) }
{
    match value_at(table, key) {
        Some(value) => value.as_array(),
        None => None,
    }
}

// The whole number at a key; another one where there is none.
pub fn number_or(table: &Table, key: &str, default: u64) -> u64
    ensures { result ≡ number_or default (get_member key.now (table_view table.now)) }
{
    match value_at(table, key) {
        Some(value) => match value.as_integer() {
            Some(n) => natural(n).unwrap_or(default),
            None => default,
        },
        None => default,
    }
}

// The text at a key; none of any length where there is none.
pub fn text_at<'a>(table: &'a Table, key: &str) -> &'a str
    ensures { result.now ≡ text_of (get_member key.now (table_view table.now)) }
{
    match value_at(table, key) {
        Some(value) => match value.as_str() {
            Some(text) => text,
            None => "",
        },
        None => "",
    }
}

// The whole number from low to high at a key; another one where there is none.
pub fn number_in(table: &Table, key: &str, low: u32, high: u32, default: u32) -> u32
    ensures { result ≡ number_in low high default key.now (table_view table.now) }
{
    match value_at(table, key) {
        Some(value) => match value.as_integer() {
            Some(n) => within(n, low as u64, high as u64).unwrap_or(default as u64) as u32,
            None => default,
        },
        None => default,
    }
}

// The number, where it is from low to high.
fn within(n: i64, low: u64, high: u64) -> Option<u64>
    ensures { result ≡ within low high n }
{
    match natural(n) {
        Some(n) if low <= n && n <= high => Some(n),
        _ => None,
    }
}

// The number, where it is at least 0.
fn natural(n: i64) -> Option<u64>
    ensures { result ≡ natural n }
{
    u64::try_from(n).ok()
}

// The time and the weight of a pair.
pub fn point_of(value: &Value) -> (u32, u64)
    ensures { result ≡ point_of (view value.now) }
{
    match value.as_array() {
        Some(items) => point_in(items).unwrap_or((0, 0)),
        None => (0, 0),
    }
}

fn point_in(items: &Array) -> Option<(u32, u64)>
    ensures { result ≡ point_in (array_view items.now) }
{
    let (time, weight) = integers_in(items)?;
    let time = within(time, 0, TIME_LIMIT as u64)?;
    let weight = natural(weight)?;
    Some((time as u32, weight))
}

// The allowance p of q at a key; 0 of 1 where there is none.
pub fn share_at(table: &Table, key: &str) -> (u64, u64)
    ensures { result ≡ share_of (get_member key.now (table_view table.now)) }
{
    match array_at(table, key) {
        Some(items) => share_in(items).unwrap_or((0, 1)),
        None => (0, 1),
    }
}

fn share_in(items: &Array) -> Option<(u64, u64)>
    ensures { result ≡ share_in (array_view items.now) }
{
    let (part, whole) = integers_in(items)?;
    let whole = within(whole, 1, 1_000_000_000_000_000_000)?;
    let part = within(part, 0, whole)?;
    Some((part, whole))
}

// The two integers of an array that has no more.
pub fn integers_of(value: &Value) -> Option<(i64, i64)>
    ensures { result ≡ integers_of (view value.now) }
{
    match value.as_array() {
        Some(items) => integers_in(items),
        None => None,
    }
}

fn integers_in(items: &Array) -> Option<(i64, i64)>
    ensures { result ≡ integers_in (array_view items.now) }
{
    match items.as_slice() {
        [first, second] => Some((first.as_integer()?, second.as_integer()?)),
        _ => None,
    }
}
