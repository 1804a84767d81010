//! How a command ended, with what err is told.

ghost use Rattle.std.specs.Prelude.{◌≡◌};
ghost use Rattle.prta_cli.specs.Ending.{status_of, line_of};

use crate::status::Status;
use prta_report::Page;

/// A status, and for a refused file the line that tells why.
#[derive(Drop)]
pub enum Ending {
    Done,
    No,
    Usage,
    SheetRefused(Page),
    InputRefused(Page),
    ReadFault,
    WriteFault,
    NoMemory,
}

impl Ending {
    /// The status alone.
    pub fn status(&self) -> Status
        ensures { result ≡ status_of self.now }
    {
        match self {
            Ending::Done => Status::Done,
            Ending::No => Status::No,
            Ending::Usage => Status::Usage,
            Ending::SheetRefused(_) => Status::SheetRefused,
            Ending::InputRefused(_) => Status::InputRefused,
            Ending::ReadFault => Status::ReadFault,
            Ending::WriteFault => Status::WriteFault,
            Ending::NoMemory => Status::NoMemory,
        }
    }

    /// The line on err; none where the text was taken.
    pub fn line(&self) -> &[u8]
        ensures { result.now ≡ line_of self.now }
    {
        match self {
            Ending::Done | Ending::No => b"",
            Ending::Usage => b"prta: usage\n",
            Ending::SheetRefused(page) | Ending::InputRefused(page) => page.bytes(),
            Ending::ReadFault => b"prta: read fault\n",
            Ending::WriteFault => b"prta: write fault\n",
            Ending::NoMemory => b"prta: no memory\n",
        }
    }
}
