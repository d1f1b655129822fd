//! A session document that is read, and isn't followed yet.
ghost use Rattle.std.specs.Prelude.{◌≡◌, ℕ, List, [], ◌++◌, IfOk, OnOk};
ghost use Rattle.session_text.specs.Sessions.{session_of};
ghost use Rattle.boot_top.specs.Streaming.{HasReadSession};
ghost use Rattle.boot_top.specs.Texts.{IsTold, IsUnbuilt};

use crate::following::{Told, refused};
use efi_base::NoMemory;
use efi_feed::Feed;
use session_text::SessionReader;
use std::alloc::Global;
use text_base::TextFault;

/// How far a document was read.
#[derive(Drop)]
pub struct DocumentCheck {
    reader: SessionReader,
}

impl DocumentCheck {
    /// Nothing was fed yet.
    pub fn new(alloc: Global) -> DocumentCheck
        ensures { HasReadSession [] result }
    {
        DocumentCheck {
            reader: SessionReader::new(alloc),
        }
    }
}

impl Feed for DocumentCheck {
    type About = ();

    type Whole = Told;

    ghost has_fed = { λ _ fed check. HasReadSession fed check };

    ghost is_whole = { λ _ fed told. IsTold IsUnbuilt (session_of fed) told };

    // Octets behind the first bad line aren't looked at.
    fn feed(&mut self, piece: &[u8]) -> Result<(), NoMemory> {
        match self.reader.feed(piece) {
            Ok(()) => Ok(()),
            Err(TextFault::BadAt(_)) => Ok(()),
            Err(TextFault::OutOfResources) => Err(NoMemory),
        }
    }

    fn finish(self) -> Result<Told, NoMemory> {
        let DocumentCheck { reader } = self;
        match reader.finish() {
            Ok(_session) => Ok(Told::NotBuilt),
            Err(fault) => refused(fault),
        }
    }
}
