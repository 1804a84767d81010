//! The names of tasks.

ghost use Rattle.std.specs.Prelude.{◌≡◌, ◌<◌, length, IfSome};
ghost use Rattle.std.specs.List.{list_all};
ghost use Rattle.prta_sheet.specs.Accepted.{is_good_name as is_good, is_name_byte as is_good_byte};
ghost use Rattle.prta_session.specs.Saying.{task_named as first_named};

use prta_sheet::{NAME_LIMIT, Task};

// The first task of this name.
pub(crate) fn task_named(tasks: &[Task], name: &[u8]) -> Option<usize>
    ensures first { result ≡ first_named tasks.now name.now }
    ensures listed { IfSome result (λ task. task < length tasks.now) }
{
    tasks.iter().position(|task| task.name().as_bytes() == name)
}

// Whether it is a name that a task may have.
pub(crate) fn is_good_name(name: &[u8]) -> bool
    ensures { result ≡ is_good name.now }
{
    let size = name.len();
    if size < 1 || NAME_LIMIT < size {
        return false;
    }
    has_name_bytes(name)
}

fn has_name_bytes(name: &[u8]) -> bool
    ensures { result ≡ list_all is_good_byte name.now }
{
    name.iter().all(|byte| is_name_byte(*byte))
}

fn is_name_byte(byte: u8) -> bool
    ensures { result ≡ is_good_byte byte }
{
    byte.is_ascii_alphanumeric() || byte == b'_' || byte == b'-'
}
