//! Counts: how often a task was seen to take a time.

ghost use Rattle.std.specs.Prelude.{◌≡◌, IfOk};
ghost use Rattle.prta_times.specs.Counts.{is_of, count_in};
ghost use Rattle.csv.specs.Records.{fields_of};

use crate::fields::three_fields;
use csv::ByteRecord;
use prta_mass::{NoMemory, TOTAL_LIMIT};
use prta_number::number_within;
use prta_sheet::TIME_LIMIT;
use std::alloc::Global;
use std::marker::Model;

// How often a task was seen to take a time in ticks.
#[derive(Debug, Drop)]
pub(crate) struct Count {
    task: Vec<u8>,
    time: u32,
    weight: u64,
}

impl Model for Count {
    ghost use Rattle.prta_times.specs.Counts.{Count as CountParts};

    ghost Value = { CountParts };

    ghost view = { λ c. record { task = c.task.items; time = c.time; weight = c.weight } };
}

impl Count {
    // The name of the task.
    pub(crate) fn task(&self) -> &[u8]
        ensures { result.now ≡ self.now.task }
    {
        &self.task
    }

    pub(crate) fn time(&self) -> u32
        ensures { result ≡ self.now.time }
    {
        self.time
    }

    pub(crate) fn weight(&self) -> u64
        ensures { result ≡ self.now.weight }
    {
        self.weight
    }

    // It counts for the task of this name.
    pub(crate) fn is_of(&self, name: &[u8]) -> bool
        ensures { result ≡ is_of name.now self.now }
    {
        self.task.as_slice() == name
    }
}

// The count of a record of three fields, of which the second is a time and the third a weight.
pub(crate) fn count_in(alloc: Global, row: &ByteRecord) -> Result<Option<Count>, NoMemory>
    ensures { IfOk result (λ count. count ≡ count_in (fields_of row.now)) }
{
    let Some((task, time, weight)) = three_fields(row) else {
        return Ok(None);
    };
    let Some(time) = number_within(time, 1, TIME_LIMIT as u64) else {
        return Ok(None);
    };
    let Some(weight) = number_within(weight, 1, TOTAL_LIMIT) else {
        return Ok(None);
    };
    let task = Vec::from_slice(alloc, task)?;
    Ok(Some(Count {
        task,
        time: time as u32,
        weight,
    }))
}
