//! The text of a certificate.

ghost use Rattle.std.specs.Prelude.{◌≡◌, ◌++◌, length, flat_map, decimal, IfOk, OnOk};
ghost use Rattle.prta_certfile.specs.Text.{level_head, pair_text, overfull_text, beyond_text, level_text, level_lines, cert_text as text_of};
ghost use Rattle.prta_certfile.specs.Laws.{AreLevels, States};

use crate::certificate::Certificate;
use crate::laws::certificates_are_read;
use crate::level::CertLevel;
use itoa::Buffer;
use prta_mass::NoMemory;
use prta_sheet::{Sheet, Task};
use std::alloc::Global;

/// The text of a certificate that states one level for each task of the sheet. Where the steps lie below the sheet's
/// cap and are whole, reading it gives the certificate again.
pub fn cert_text(alloc: Global, sheet: &Sheet, cert: &Certificate) -> Result<Vec<u8>, NoMemory>
    requires each { length cert.now ≡ length sheet.now.tasks }
    ensures text { IfOk result (λ text. text.items ≡ text_of sheet.now.tasks cert.now) }
    ensures read { AreLevels sheet.now.tasks sheet.now.settings.cap cert.now → IfOk result (λ text. States sheet.now.tasks sheet.now.settings.cap text.items cert.now) }
{
    certificates_are_read();
    whole_text(alloc, sheet.tasks(), cert.levels())
}

fn whole_text(alloc: Global, tasks: &[Task], levels: &[CertLevel]) -> Result<Vec<u8>, NoMemory>
    requires { length levels.now ≡ length tasks.now }
    ensures { IfOk result (λ text. text.items ≡ text_of tasks.now levels.now) }
{
    let mut text = Vec::new(alloc);
    push(&mut text, b"prta certificate 1\n")?;
    push_lines(&mut text, tasks, levels)?;
    push(&mut text, b"end\n")?;
    Ok(text)
}

fn push_lines(text: &mut Vec<u8>, tasks: &[Task], levels: &[CertLevel]) -> Result<(), NoMemory>
    requires { length levels.now ≡ length tasks.now }
    ensures { OnOk result (text.new.items ≡ text.old.items ++ level_lines tasks.now levels.now) }
{
    for i in 0..tasks.len() {
        push_level(text, tasks[i].name().as_bytes(), &levels[i])?;
        push(text, b"\n")?;
    }
    Ok(())
}

fn push_level(text: &mut Vec<u8>, name: &[u8], level: &CertLevel) -> Result<(), NoMemory>
    ensures { OnOk result (text.new.items ≡ text.old.items ++ level_text name.now level.now) }
{
    match level {
        CertLevel::Steps(steps) => push_steps(text, name, steps.points()),
        CertLevel::OverFull { work, hyperperiod } => {
            push_overfull(text, name, *work, *hyperperiod)
        }
        CertLevel::BeyondCap { peak } => push_beyond(text, name, *peak),
    }
}

#[tactic(auto, unfolding(crate::specs::Text::level_head))]
fn push_steps(text: &mut Vec<u8>, name: &[u8], steps: &[(u32, u64)]) -> Result<(), NoMemory>
    ensures { OnOk result (text.new.items ≡ text.old.items ++ (level_head name.now ++ flat_map pair_text steps.now)) }
{
    push(text, b"level ")?;
    push(text, name)?;
    push_pairs(text, steps)
}

fn push_pairs(text: &mut Vec<u8>, steps: &[(u32, u64)]) -> Result<(), NoMemory>
    ensures { OnOk result (text.new.items ≡ text.old.items ++ flat_map pair_text steps.now) }
{
    for step in steps {
        push_pair(text, step.0 as u64, step.1)?;
    }
    Ok(())
}

#[tactic(auto, unfolding(crate::specs::Text::pair_text))]
fn push_pair(text: &mut Vec<u8>, place: u64, value: u64) -> Result<(), NoMemory>
    ensures { OnOk result (text.new.items ≡ text.old.items ++ pair_text (place, value)) }
{
    push(text, b" ")?;
    push_number(text, place)?;
    push(text, b":")?;
    push_number(text, value)
}

#[tactic(auto, unfolding(crate::specs::Text::overfull_text))]
fn push_overfull(
    text: &mut Vec<u8>,
    name: &[u8],
    work: u64,
    hyperperiod: u64,
) -> Result<(), NoMemory>
    ensures { OnOk result (text.new.items ≡ text.old.items ++ overfull_text name.now work hyperperiod) }
{
    push(text, b"none ")?;
    push(text, name)?;
    push(text, b" overfull ")?;
    push_number(text, work)?;
    push(text, b" ")?;
    push_number(text, hyperperiod)
}

#[tactic(auto, unfolding(crate::specs::Text::beyond_text))]
fn push_beyond(text: &mut Vec<u8>, name: &[u8], peak: u64) -> Result<(), NoMemory>
    ensures { OnOk result (text.new.items ≡ text.old.items ++ beyond_text name.now peak) }
{
    push(text, b"none ")?;
    push(text, name)?;
    push(text, b" beyondcap ")?;
    push_number(text, peak)
}

// A whole number in decimal.
fn push_number(text: &mut Vec<u8>, n: u64) -> Result<(), NoMemory>
    ensures { OnOk result (text.new.items ≡ text.old.items ++ decimal n) }
{
    let mut buffer = Buffer::new();
    push(text, buffer.format(n).as_bytes())
}

fn push(text: &mut Vec<u8>, bytes: &[u8]) -> Result<(), NoMemory>
    ensures { OnOk result (text.new.items ≡ text.old.items ++ bytes.now) }
{
    text.extend_from_slice(bytes)?;
    Ok(())
}
