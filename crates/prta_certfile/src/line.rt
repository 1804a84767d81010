//! The line of a task.

ghost use Rattle.std.specs.Prelude.{◌≡◌, None};
ghost use Rattle.std.specs.List.{list_all};
ghost use Rattle.prta_sheet.specs.Accepted.{is_good_name as is_good, is_name_byte as is_good_byte};
ghost use Rattle.prta_certfile.specs.Steps.{IsSteps};
ghost use Rattle.prta_certfile.specs.Reading.{rises as do_rise, are_below as lie_below, is_whole as end_whole, level_fault as fault_in};
ghost use Rattle.prta_certfile.specs.Parts.{level_from, HasSteps, IsLineRead};
ghost use Rattle.prta_certfile.specs.declared.level.CertLevel.TheVariants.{Steps};

use crate::cut::cut;
use crate::fault::CertFault;
use crate::level::CertLevel;
use crate::said::{Said, read_said};
use crate::steps::StepList;
use prta_mass::{NoMemory, UNIT};
use prta_sheet::NAME_LIMIT;
use std::alloc::Global;

// The level of the task of this name in line n, or the fault of the line.
pub(crate) fn read_line(
    alloc: Global,
    name: &[u8],
    cap: usize,
    n: usize,
    line: &[u8],
) -> Result<CertLevel, CertFault>
    ensures { IsLineRead cap name.now n line.now result }
{
    let Some((kind, rest)) = cut(line, b' ') else {
        return Err(CertFault::BadLine(n));
    };
    let Some((own, rest)) = cut(rest, b' ') else {
        return Err(CertFault::BadLine(n));
    };
    if !is_good_name(own) {
        return Err(CertFault::BadLine(n));
    }
    let said = match read_said(alloc, kind, rest) {
        Ok(Some(said)) => said,
        Ok(None) => return Err(CertFault::BadLine(n)),
        Err(NoMemory) => return Err(CertFault::NoMemory),
    };
    if own != name {
        return Err(CertFault::WrongTask(n));
    }
    if let Some(fault) = level_fault(&said, cap, n) {
        return Err(fault);
    }
    Ok(level_of(said))
}

// The first test of the level in line n that fails.
fn level_fault(said: &Said, cap: usize, n: usize) -> Option<CertFault>
    ensures fault { result ≡ fault_in cap n (level_from said.now) }
    ensures steps { result ≡ None → HasSteps said.now }
{
    match said {
        Said::Pairs(pairs) => pairs_fault(pairs, cap, n),
        _ => None,
    }
}

fn pairs_fault(pairs: &[(u32, u64)], cap: usize, n: usize) -> Option<CertFault>
    ensures fault { result ≡ fault_in cap n (Steps pairs.now) }
    ensures steps { result ≡ None → IsSteps pairs.now }
{
    if !rise(pairs) {
        return Some(CertFault::NotIncreasing(n));
    }
    if !are_below(pairs, cap) {
        return Some(CertFault::PlaceTooLarge(n));
    }
    if !are_whole(pairs) {
        return Some(CertFault::NotWhole(n));
    }
    None
}

// The level that the line says, where its steps rise.
fn level_of(said: Said) -> CertLevel
    requires { HasSteps said }
    ensures { result ≡ level_from said }
{
    match said {
        Said::Pairs(pairs) => CertLevel::Steps(StepList::of_pairs(pairs)),
        Said::OverFull { work, hyperperiod } => CertLevel::OverFull { work, hyperperiod },
        Said::BeyondCap { peak } => CertLevel::BeyondCap { peak },
    }
}

// Whether the places rise, and the values from a 0 before the first on.
fn rise(pairs: &[(u32, u64)]) -> bool
    ensures { result ≡ do_rise pairs.now }
{
    let mut from = 0;
    let mut last = 0;
    for (place, value) in pairs {
        if (*place as u64) < from || *value <= last {
            return false;
        }
        from = *place as u64 + 1;
        last = *value;
    }
    true
}

fn are_below(pairs: &[(u32, u64)], cap: usize) -> bool
    ensures { result ≡ lie_below cap pairs.now }
{
    pairs.iter().all(|pair| (pair.0 as usize) < cap)
}

fn are_whole(pairs: &[(u32, u64)]) -> bool
    ensures { result ≡ end_whole pairs.now }
{
    !pairs.is_empty() && pairs[pairs.len() - 1].1 == UNIT
}

fn is_good_name(name: &[u8]) -> bool
    ensures { result ≡ is_good name.now }
{
    let size = name.len();
    if size < 1 || NAME_LIMIT < size {
        return false;
    }
    has_name_bytes(name)
}

fn has_name_bytes(name: &[u8]) -> bool
    ensures { result ≡ list_all is_good_byte name.now }
{
    name.iter().all(|byte| is_name_byte(*byte))
}

fn is_name_byte(byte: u8) -> bool
    ensures { result ≡ is_good_byte byte }
{
    byte.is_ascii_alphanumeric() || byte == b'_' || byte == b'-'
}
