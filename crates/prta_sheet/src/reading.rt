//! Sheets from bytes.

ghost use Rattle.std.specs.Prelude.{◌≡◌, ◌≢◌, None, Some, true, false, IfOk, IfErr, IsOk, option_map, map, codes, [], ◌∷◌};
ghost use Rattle.std.specs.List.{list_any};
ghost use Rattle.toml.specs.View.{table_view, array_view};
ghost use Rattle.prta_mass.specs.Table.{shape_fault};
ghost use Rattle.prta_sheet.specs.Document.{document, table_at, array_at};
ghost use Rattle.prta_sheet.specs.DocumentConditions.{document_fault, first_of};
ghost use Rattle.prta_sheet.specs.SheetConditions.{part_ranges, table_fault, total_fault, later_fault};
ghost use Rattle.prta_sheet.specs.Stated.{stated, sheet_stated};
ghost use Rattle.prta_sheet.specs.Reading.{read, read_settings, read_support, read_cycle, read_cycle_items, read_task, points_of, points_of_items, is_heavy, tables_of_items, task_tables, head_of, first_faults};
ghost use Rattle.prta_sheet.specs.Refusal.{document_refusal, refusal};
ghost use Rattle.prta_sheet.specs.RefusedSheets.{RefusedSheets};
ghost use Rattle.prta_sheet.specs.Formats.{SecondFormatIsRead};

use crate::conditions::document_fault;
use crate::document::{array_at, number_in, point_of, share_at, table_at, text_at};
use crate::fault::SheetFault;
use crate::limits::SHEET_LIMIT;
use crate::making::{head_fault, make_sheet};
use crate::settings::Settings;
use crate::sheet::Sheet;
use crate::task::Task;
use prta_mass::{NoMemory, Support, TableFault, TimeTable, shape_fault};
use std::alloc::Global;
use toml::Table;
use toml::value::Array;

/// Reads the bytes of a sheet, or answers the first condition that refuses them: see `docs/FORMATS.md`. Memory may be
/// wanting at any point, whatever the bytes are.
pub fn read_sheet(alloc: Global, bytes: &[u8]) -> Result<Sheet, SheetFault>
    ensures stated { IfOk result (λ sheet. sheet_stated bytes.now ≡ Some sheet) }
    ensures accepted { IsOk result → refusal bytes.now ≡ None }
    ensures refused { IfErr result (λ fault. fault ≢ SheetFault.NoMemory → refusal bytes.now ≡ Some fault) }
{
    if bytes.len() > SHEET_LIMIT {
        return Err(SheetFault::TooLong);
    }
    let document = document(alloc, bytes)?;
    sheet_of(alloc, &document)
}

// The document that the bytes spell.
fn document(alloc: Global, bytes: &[u8]) -> Result<Table, SheetFault>
    ensures document { IfOk result (λ table. document bytes.now ≡ Some (table_view table)) }
    ensures refused { IfErr result (λ fault. fault ≢ SheetFault.NoMemory → (fault ≡ SheetFault.NotToml) × (document bytes.now ≡ None)) }
{
    match toml::table_from_slice(alloc, bytes) {
        Ok(table) => Ok(table),
        Err(fault) => {
            if fault.is_memory() {
                return Err(SheetFault::NoMemory);
            }
            Err(SheetFault::NotToml)
        }
    }
}

// The sheet that the document states.
fn sheet_of(alloc: Global, document: &Table) -> Result<Sheet, SheetFault>
    ensures stated { IfOk result (λ sheet. sheet ≡ stated (table_view document.now)) }
    ensures accepted { IsOk result → document_refusal (table_view document.now) ≡ None }
    ensures refused { IfErr result (λ fault. fault ≢ SheetFault.NoMemory → document_refusal (table_view document.now) ≡ Some fault) }
{
    if let Some(fault) = document_fault(document) {
        return Err(fault);
    }
    read(alloc, document)
}

// The sheet as it is read, of a document that passes its conditions.
fn read(alloc: Global, document: &Table) -> Result<Sheet, SheetFault>
    requires { document_fault (table_view document.now) ≡ None }
    ensures read { IfOk result (λ sheet. sheet ≡ read (table_view document.now)) }
    ensures accepted { IsOk result → later_fault (read (table_view document.now)) ≡ None }
    ensures refused { IfErr result (λ fault. fault ≢ SheetFault.NoMemory → later_fault (read (table_view document.now)) ≡ Some fault) }
{
    match task_tables(alloc, document) {
        Ok(tables) => sheet_of_tables(alloc, settings_of(document), &tables),
        Err(_) => Err(SheetFault::NoMemory),
    }
}

fn sheet_of_tables(
    alloc: Global,
    settings: Settings,
    tables: &[&Table],
) -> Result<Sheet, SheetFault>
    requires ranges { part_ranges (record { settings = settings; tasks = map (λ t. read_task (table_view t.now)) tables.now }) ≡ None }
    ensures read { IfOk result (λ sheet. sheet ≡ record { settings = settings; tasks = map (λ t. read_task (table_view t.now)) tables.now }) }
    ensures accepted { IsOk result → later_fault (record { settings = settings; tasks = map (λ t. read_task (table_view t.now)) tables.now }) ≡ None }
    ensures refused { IfErr result (λ fault. fault ≢ SheetFault.NoMemory → later_fault (record { settings = settings; tasks = map (λ t. read_task (table_view t.now)) tables.now }) ≡ Some fault) }
{
    match first_faults(alloc, tables) {
        Ok(None) => {}
        Ok(Some(fault)) => return Err(fault),
        Err(_) => return Err(SheetFault::NoMemory),
    }
    match tasks_of(alloc, tables) {
        Ok(tasks) => make_sheet(settings, tasks),
        Err(fault) => Err(fault),
    }
}

// What refuses the tasks before the sums of their weights: first their heads, then the shapes of their tables. Tasks
// can't be made of tables that are refused, so the heads are tested on tasks that have another table in place of their
// cycle.
fn first_faults(alloc: Global, tables: &[&Table]) -> Result<Option<SheetFault>, NoMemory>
    ensures { IfOk result (λ fault. fault ≡ first_faults (map (λ t. read_task (table_view t.now)) tables.now)) }
{
    let heads = heads_of(alloc, tables)?;
    match head_fault(&heads) {
        Some(fault) => Ok(Some(fault)),
        None => first_table_fault(alloc, tables),
    }
}

fn settings_of(document: &Table) -> Settings
    ensures { result ≡ read_settings (table_view document.now) }
{
    Settings {
        cap: number_in(document, "cap", 3, 16_384, 2_048),
        hyperperiods: number_in(document, "hyperperiods", 1, 64, 1),
        turns: number_in(document, "turns", 0, 64, 16),
        support: support_of(document),
    }
}

fn support_of(document: &Table) -> Option<Support>
    ensures { result ≡ read_support (table_at (codes "support") (table_view document.now)) }
{
    let table = table_at(document, "support")?;
    Some(Support {
        fine: number_in(table, "fine", 0, 16_383, 0),
        step: number_in(table, "step", 1, 16_384, 1),
    })
}

// The tables among the elements of `task`.
fn task_tables<'a>(alloc: Global, document: &'a Table) -> Result<Vec<&'a Table>, NoMemory>
    ensures { IfOk result (λ tables. map (λ t. table_view t.now) tables.items ≡ task_tables (array_at (codes "task") (table_view document.now))) }
{
    match array_at(document, "task") {
        Some(items) => tables_of(alloc, items),
        None => Ok(Vec::new(alloc)),
    }
}

fn tables_of<'a>(alloc: Global, items: &'a Array) -> Result<Vec<&'a Table>, NoMemory>
    ensures { IfOk result (λ tables. map (λ t. table_view t.now) tables.items ≡ tables_of_items (array_view items.now)) }
{
    let mut tables = Vec::new(alloc);
    for item in items {
        if let Some(table) = item.as_table() {
            tables.push(table)?;
        }
    }
    Ok(tables)
}

// The tasks, each with another table in place of its cycle.
fn heads_of(alloc: Global, tables: &[&Table]) -> Result<Vec<Task>, NoMemory>
    ensures { IfOk result (λ heads. heads.items ≡ map (λ t. head_of (read_task (table_view t.now))) tables.now) }
{
    let mut heads = Vec::new(alloc);
    for table in tables {
        let cycle = one_point(alloc)?;
        heads.push(task_of(alloc, table, cycle)?)?;
    }
    Ok(heads)
}

// A cycle of one table with one point.
fn one_point(alloc: Global) -> Result<Vec<TimeTable>, NoMemory>
    ensures { IfOk result (λ cycle. cycle.items ≡ ((1, 1) ∷ []) ∷ []) }
{
    let mut cycle = Vec::new(alloc);
    match TimeTable::new(alloc, &[(1, 1)]) {
        Ok(table) => cycle.push(table)?,
        Err(_) => return Err(NoMemory),
    }
    Ok(cycle)
}

// The task of a table, with this cycle.
fn task_of(alloc: Global, table: &Table, cycle: Vec<TimeTable>) -> Result<Task, NoMemory>
    ensures { IfOk result (λ task. task ≡ record (read_task (table_view table.now)) { cycle = cycle.items }) }
{
    Task::new(
        alloc,
        text_at(table, "name"),
        number_in(table, "offset", 0, 999_999, 0),
        number_in(table, "period", 1, 1_000_000, 1),
        number_in(table, "deadline", 1, 1_000_000, 1),
        cycle,
        share_at(table, "allow"),
    )
}

// The tables of a task, each as its points: those under `cycle`, or else the one under `times`.
fn cycle_of(alloc: Global, table: &Table) -> Result<Vec<Vec<(u32, u64)>>, NoMemory>
    ensures { IfOk result (λ cycle. map (λ points. points.items) cycle.items ≡ read_cycle (table_view table.now)) }
{
    match array_at(table, "cycle") {
        Some(items) => cycle_of_items(alloc, items),
        None => one_table(alloc, table),
    }
}

fn one_table(alloc: Global, table: &Table) -> Result<Vec<Vec<(u32, u64)>>, NoMemory>
    ensures { IfOk result (λ cycle. map (λ points. points.items) cycle.items ≡ points_of (array_at (codes "times") (table_view table.now)) ∷ []) }
{
    let mut cycle = Vec::new(alloc);
    cycle.push(points_of(alloc, array_at(table, "times"))?)?;
    Ok(cycle)
}

fn cycle_of_items(alloc: Global, items: &Array) -> Result<Vec<Vec<(u32, u64)>>, NoMemory>
    ensures { IfOk result (λ cycle. map (λ points. points.items) cycle.items ≡ read_cycle_items (array_view items.now)) }
{
    let mut cycle = Vec::new(alloc);
    for item in items {
        cycle.push(points_of(alloc, item.as_array())?)?;
    }
    Ok(cycle)
}

// The times of an array with their weights.
fn points_of(alloc: Global, items: Option<&Array>) -> Result<Vec<(u32, u64)>, NoMemory>
    ensures { IfOk result (λ points. points.items ≡ points_of (option_map (λ v. array_view v.now) items.entry)) }
{
    match items {
        Some(items) => points_of_items(alloc, items),
        None => Ok(Vec::new(alloc)),
    }
}

fn points_of_items(alloc: Global, items: &Array) -> Result<Vec<(u32, u64)>, NoMemory>
    ensures { IfOk result (λ points. points.items ≡ points_of_items (array_view items.now)) }
{
    let mut points = Vec::new(alloc);
    for item in items {
        points.push(point_of(item))?;
    }
    Ok(points)
}

// The first fault of the shapes of the tables of the tasks, in order.
fn first_table_fault(alloc: Global, tables: &[&Table]) -> Result<Option<SheetFault>, NoMemory>
    ensures { IfOk result (λ fault. fault ≡ table_fault (map (λ t. read_task (table_view t.now)) tables.now)) }
{
    for i in 0..tables.len() {
        let cycle = cycle_of(alloc, tables[i])?;
        if let Some(fault) = first_shape_fault(&cycle) {
            return Ok(Some(SheetFault::BadTable(i, fault)));
        }
    }
    Ok(None)
}

fn first_shape_fault(cycle: &[Vec<(u32, u64)>]) -> Option<TableFault>
    ensures { result ≡ first_of shape_fault (map (λ points. points.items) cycle.now) }
{
    for points in cycle {
        if let Some(fault) = shape_fault(points) {
            return Some(fault);
        }
    }
    None
}

// The tasks, or the first whose weights sum to too much.
fn tasks_of(alloc: Global, tables: &[&Table]) -> Result<Vec<Task>, SheetFault>
    requires shapes { table_fault (map (λ t. read_task (table_view t.now)) tables.now) ≡ None }
    ensures made { IfOk result (λ tasks. tasks.items ≡ map (λ t. read_task (table_view t.now)) tables.now) }
    ensures accepted { IsOk result → total_fault (map (λ t. read_task (table_view t.now)) tables.now) ≡ None }
    ensures refused { IfErr result (λ fault. fault ≢ SheetFault.NoMemory → total_fault (map (λ t. read_task (table_view t.now)) tables.now) ≡ Some fault) }
{
    let mut tasks = Vec::new(alloc);
    for i in 0..tables.len() {
        let task = match weighed_task(alloc, i, tables[i]) {
            Ok(task) => task,
            Err(fault) => return Err(fault),
        };
        match tasks.push(task) {
            Ok(()) => {}
            Err(_) => return Err(SheetFault::NoMemory),
        }
    }
    Ok(tasks)
}

// The i-th task, unless the weights of a table sum to too much.
fn weighed_task(alloc: Global, i: usize, table: &Table) -> Result<Task, SheetFault>
    requires shapes { first_of shape_fault (read_cycle (table_view table.now)) ≡ None }
    ensures made { IfOk result (λ task. task ≡ read_task (table_view table.now)) }
    ensures light { IsOk result → list_any is_heavy (read_cycle (table_view table.now)) ≡ false }
    ensures fault { IfErr result (λ fault. fault ≢ SheetFault.NoMemory → fault ≡ SheetFault.TotalTooLarge i) }
    ensures heavy { IfErr result (λ fault. fault ≢ SheetFault.NoMemory → list_any is_heavy (read_cycle (table_view table.now)) ≡ true) }
{
    let points = match cycle_of(alloc, table) {
        Ok(points) => points,
        Err(_) => return Err(SheetFault::NoMemory),
    };
    let cycle = match tables_made(alloc, &points) {
        Ok(cycle) => cycle,
        Err(TableFault::NoMemory) => return Err(SheetFault::NoMemory),
        Err(_) => return Err(SheetFault::TotalTooLarge(i)),
    };
    match task_of(alloc, table, cycle) {
        Ok(task) => Ok(task),
        Err(_) => Err(SheetFault::NoMemory),
    }
}

// The tables of these points, unless the weights of one sum to too much.
fn tables_made(alloc: Global, cycle: &[Vec<(u32, u64)>]) -> Result<Vec<TimeTable>, TableFault>
    requires shapes { first_of shape_fault (map (λ points. points.items) cycle.now) ≡ None }
    ensures made { IfOk result (λ tables. tables.items ≡ map (λ points. points.items) cycle.now) }
    ensures light { IsOk result → list_any is_heavy (map (λ points. points.items) cycle.now) ≡ false }
    ensures heavy { IfErr result (λ fault. fault ≢ TableFault.NoMemory → list_any is_heavy (map (λ points. points.items) cycle.now) ≡ true) }
{
    let mut tables = Vec::new(alloc);
    for points in cycle {
        let table = TimeTable::new(alloc, points)?;
        match tables.push(table) {
            Ok(()) => {}
            Err(_) => return Err(TableFault::NoMemory),
        }
    }
    Ok(tables)
}

/// What refuses worked documents: the definitions of the conditions, computed.
pub fn refused_sheets()
    ensures { RefusedSheets }
{}

/// A document that is accepted in format 1 is accepted with 2 as the number of its format, and states the same sheet.
pub fn second_format_is_read()
    ensures { SecondFormatIsRead }
{}
