//! The reader of session documents, which is fed their octets.
ghost use Rattle.std.specs.Prelude.{◌≡◌, ◌≤◌, ◌++◌, ℕ, List, [], Some, None, Err, length, Ok, IfOk, IfErr, OnOk, MatchResult};
ghost use Rattle.text_base.specs.Lines.{IsCause};
ghost use Rattle.text_base.specs.declared.lines.TextFault.{TextFault};
ghost use Rattle.session_text.specs.Documents.{is_ended, session_next};
ghost use Rattle.session_text.specs.Drafts.{start};
ghost use Rattle.session_text.specs.Putting.{Puts};
ghost use Rattle.session_text.specs.Reading.{HasRead, Reads};
ghost use Rattle.session_text.specs.Sessions.{session_from, session_of};

use crate::draft::{Draft, new_draft};
use crate::line::line_of;
use crate::put::say;
use crate::session::{Session, session_from};
use efi_base::NoMemory;
use std::alloc::Global;
use std::marker::Model;
use text_base::{Said, TextFault, read_end, read_piece};

/// What was said, and memory for what is said next.
#[derive(Drop)]
pub struct Drafting {
    alloc: Global,
    draft: Draft,
}

impl Model for Drafting {
    ghost use Rattle.session_text.specs.declared.draft.Draft.{Draft};

    ghost Value = { Draft };

    ghost view = { λ d. d.draft };
}

impl Said for Drafting {
    ghost next = { session_next };

    ghost ended = { is_ended };

    fn is_ended(&self) -> bool {
        self.draft.ended
    }

    fn read(&mut self, line: &[u8]) -> Result<bool, NoMemory> {
        read_into(self.alloc, &mut self.draft, line)
    }
}

/// Reads a line. Whether it is good behind those that were read.
#[tactic(auto, unfolding(crate::specs::Documents::session_next))]
fn read_into(alloc: Global, draft: &mut Draft, line: &[u8]) -> Result<bool, NoMemory>
    ensures { IfOk result (λ good. Puts (session_next draft.old line.now) draft.new good) }
{
    if draft.ended {
        return Ok(false);
    }
    match line_of(alloc, line)? {
        Some(line) => say(alloc, draft, line),
        None => Ok(false),
    }
}

/// A reader of a session document, which is fed its octets. It keeps what the whole lines say, and the octets that
/// aren't a whole line yet.
#[derive(Drop)]
pub struct SessionReader {
    said: Drafting,
    kept: Vec<u8>,
    at: u64,
    fault: Option<TextFault>,
}

impl Model for SessionReader {
    ghost use Rattle.session_text.specs.Reading.{Reading};

    ghost Value = { Reading };

    ghost use Rattle.session_text.specs.Inside.{reading_of, IsSound};

    ghost view = { reading_of };

    ghost invariant = { IsSound };
}

impl SessionReader {
    /// A reader to which nothing was fed.
    pub fn new(alloc: Global) -> SessionReader
        ensures { HasRead [] result }
    {
        SessionReader {
            said: Drafting {
                alloc,
                draft: new_draft(alloc),
            },
            kept: Vec::new(alloc),
            at: 0,
            fault: None,
        }
    }

    /// Takes the next octets of the document.
    pub fn feed(&mut self, piece: &[u8]) -> Result<(), TextFault>
        // Octets that go on to a document are read, and those that can't, whatever follows, are refused at once.
        ensures ok { OnOk result ((self.old.fault ≡ None) × Reads piece.now self.old self.new) }
        ensures cause { IfErr result (λ e. (fed more : List ℕ) → HasRead fed self.old → IsCause (session_of ((fed ++ piece.now) ++ more)) e) }

        // A fault is told again for ever, and nothing that is fed then counts.
        ensures fault { IfErr result (λ e. self.new.fault ≡ Some e) }
        ensures told { (e : TextFault) → self.old.fault ≡ Some e → (result ≡ Err e) × (self.new ≡ self.old) }
        ensures few { length self.new.rest ≤ 65536 }
    {
        if let Some(fault) = self.fault {
            return Err(fault);
        }
        match read_piece(&mut self.said, &mut self.kept, piece, self.at) {
            Ok(to) => {
                self.at = to;
                Ok(())
            }
            Err(fault) => {
                self.kept.clear();
                self.fault = Some(fault);
                Err(fault)
            }
        }
    }

    /// What all that was fed says, where it is a document.
    pub fn finish(self) -> Result<Session, TextFault>
        ensures whole { IfOk result (λ session. (self.fault ≡ None) × ((fed : List ℕ) → HasRead fed self → session_of fed ≡ Ok session)) }
        ensures refused { IfErr result (λ e. (fed : List ℕ) → HasRead fed self → IsCause (session_of fed) e) }
        ensures told { (e : TextFault) → self.fault ≡ Some e → result ≡ Err e }
    {
        let SessionReader {
            mut said,
            kept,
            at,
            fault,
        } = self;
        if let Some(fault) = fault {
            return Err(fault);
        }
        match read_end(&mut said, kept.as_slice(), at) {
            Ok(()) => whole(said),
            Err(fault) => Err(fault),
        }
    }
}

fn whole(said: Drafting) -> Result<Session, TextFault>
    ensures { MatchResult result (λ session. session ≡ session_from said) (λ e. e ≡ TextFault.OutOfResources) }
{
    let Drafting { alloc, draft } = said;
    match session_from(alloc, draft) {
        Ok(session) => Ok(session),
        Err(NoMemory) => Err(TextFault::OutOfResources),
    }
}
