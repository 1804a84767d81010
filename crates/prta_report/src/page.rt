//! Pages.

ghost use Rattle.std.specs.Prelude.{◌≡◌, ◌+◌, ◌-◌, ◌≤◌, ◌++◌, [], length, IfOk};

use prta_mass::NoMemory;
use std::alloc::Global;
use std::marker::Model;

/// A call that writes a line asks for this many bytes of room, and takes no more.
pub const LINE: usize = 512;

/// Bytes that are written one piece after the other into room that was taken when the page was made.
#[derive(Debug, Drop)]
pub struct Page {
    bytes: Vec<u8>,
    room: usize,
}

impl Model for Page {
    ghost use Rattle.std.specs.Prelude.{◌-◌, ◌≤◌, length, vec_capacity};
    ghost use Rattle.prta_report.specs.Page.{PageParts};

    ghost Value = { PageParts };

    ghost view = { λ p. record { written = p.bytes.items; spare = p.room - length p.bytes.items } };

    ghost invariant = { λ p. (length p.bytes.items ≤ p.room) × (p.room ≤ vec_capacity p.bytes) };
}

impl Page {
    /// An empty page with room for n bytes.
    pub fn with_room(alloc: Global, n: usize) -> Result<Page, NoMemory>
        ensures { IfOk result (λ page. page ≡ record { written = []; spare = n }) }
    {
        let bytes = Vec::with_capacity(alloc, n)?;
        Ok(Page { bytes, room: n })
    }

    /// How many more bytes have room.
    pub fn spare(&self) -> usize
        ensures { result ≡ self.now.spare }
    {
        self.room - self.bytes.len()
    }

    /// The bytes written so far.
    pub fn bytes(&self) -> &[u8]
        ensures { result.now ≡ self.now.written }
    {
        &self.bytes
    }

    /// Empties the page; all of its room is spare again.
    pub fn clear(&mut self)
        ensures { self.new ≡ record { written = []; spare = self.old.spare + length self.old.written } }
    {
        self.bytes.clear();
    }

    /// Appends the bytes.
    pub fn push(&mut self, bytes: &[u8])
        requires { length bytes.now ≤ self.old.spare }
        ensures { self.new ≡ record { written = self.old.written ++ bytes.now; spare = self.old.spare - length bytes.now } }
    {
        self.bytes.extend_from_slice(bytes).unwrap();
    }
}
