//! What takes entries.

ghost use Rattle.std.specs.Prelude.{◌≡◌, ℕ, ◌+◌, ◌-◌, ◌^◌, ◌≤◌, true, Option, None, List, [], ◌∷◌};
ghost use Rattle.prta_ledger.specs.declared.entry.Entry.{Entry};
ghost use Rattle.prta_ledger.specs.Noted.{appended};

use crate::entry::Entry;

/// What takes entries, one after the other.
///
/// Contracts see it in two ways. `noted` is the list of the entries noted so far, where it tells that. `room` is how
/// many more it takes at least.
pub trait Notes {
    ghost noted: { Self → Option (List Entry) };

    ghost room: { Self → ℕ };

    /// Whether entries are nowhere told, so that nobody can miss one.
    fn is_silent(&self) -> bool
        ensures { result ≡ true → noted self.now ≡ None };

    /// How many more entries it takes at least.
    fn spare(&self) -> usize
        ensures { result ≡ room self.now };

    /// Appends the entry, and lowers `spare` by at most 1.
    fn note(&mut self, entry: Entry)
        requires { 1 ≤ room self.old }
        ensures noted { noted self.new ≡ appended (noted self.old) (entry ∷ []) }
        ensures room { room self.old ≤ room self.new + 1 };
}

/// Takes any number of entries, and tells and keeps none.
#[derive(Clone, Copy, Debug, PartialEq, Eq)]
pub struct NoNotes;

impl Notes for NoNotes {
    ghost noted = { λ _. None };

    ghost room = { λ _. 2 ^ 64 - 1 };

    fn is_silent(&self) -> bool
        ensures { result ≡ true }
    {
        true
    }

    fn spare(&self) -> usize
        ensures { result ≡ 2 ^ 64 - 1 }
    {
        usize::MAX
    }

    fn note(&mut self, _entry: Entry) {}
}
