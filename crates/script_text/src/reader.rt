//! The reader of scripts, which is fed their octets.
ghost use Rattle.std.specs.Prelude.{◌≡◌, ◌≤◌, ◌++◌, ℕ, List, [], Some, None, Err, length, Ok, IfOk, IfErr, OnOk};
ghost use Rattle.text_base.specs.Lines.{IsCause};
ghost use Rattle.text_base.specs.declared.lines.TextFault.{TextFault};
ghost use Rattle.script_text.specs.Drafts.{is_ended, script_next, start};
ghost use Rattle.script_text.specs.Reading.{HasRead, Reads};
ghost use Rattle.script_text.specs.Scripts.{script_from, script_of};

use crate::draft::{Draft, new_draft, read_line};
use crate::script::{Script, script_from};
use efi_base::NoMemory;
use std::alloc::Global;
use std::marker::Model;
use text_base::{Said, TextFault, read_end, read_piece};

/// What was said, and memory for what is said next.
#[derive(Drop)]
pub struct Drafting {
    alloc: Global,
    draft: Draft,
}

impl Model for Drafting {
    ghost use Rattle.script_text.specs.declared.draft.Draft.{Draft};

    ghost Value = { Draft };

    ghost view = { λ d. d.draft };
}

impl Said for Drafting {
    ghost next = { script_next };

    ghost ended = { is_ended };

    fn is_ended(&self) -> bool {
        self.draft.ended
    }

    fn read(&mut self, line: &[u8]) -> Result<bool, NoMemory> {
        read_line(self.alloc, &mut self.draft, line)
    }
}

/// A reader of a script, which is fed its octets. It keeps what the whole lines say, and the octets that
/// aren't a whole line yet.
#[derive(Drop)]
pub struct ScriptReader {
    said: Drafting,
    kept: Vec<u8>,
    at: u64,
    fault: Option<TextFault>,
}

impl Model for ScriptReader {
    ghost use Rattle.script_text.specs.Reading.{Reading};

    ghost Value = { Reading };

    ghost use Rattle.script_text.specs.Inside.{reading_of, IsSound};

    ghost view = { reading_of };

    ghost invariant = { IsSound };
}

impl ScriptReader {
    /// A reader to which nothing was fed.
    pub fn new(alloc: Global) -> ScriptReader
        ensures { HasRead [] result }
    {
        ScriptReader {
            said: Drafting {
                alloc,
                draft: new_draft(alloc),
            },
            kept: Vec::new(alloc),
            at: 0,
            fault: None,
        }
    }

    /// Takes the next octets of the script.
    pub fn feed(&mut self, piece: &[u8]) -> Result<(), TextFault>
        // Octets that go on to a script are read, and those that can't, whatever follows, are refused at once.
        ensures ok { OnOk result ((self.old.fault ≡ None) × Reads piece.now self.old self.new) }
        ensures cause { IfErr result (λ e. (fed more : List ℕ) → HasRead fed self.old → IsCause (script_of ((fed ++ piece.now) ++ more)) e) }

        // A fault is told again for ever, and nothing that is fed then counts.
        ensures fault { IfErr result (λ e. self.new.fault ≡ Some e) }
        ensures told { (e : TextFault) → self.old.fault ≡ Some e → (result ≡ Err e) × (self.new ≡ self.old) }
        ensures few { length self.new.rest ≤ 65536 }
    {
        if let Some(fault) = self.fault {
            return Err(fault);
        }
        match read_piece(&mut self.said, &mut self.kept, piece, self.at) {
            Ok(to) => {
                self.at = to;
                Ok(())
            }
            Err(fault) => {
                self.kept.clear();
                self.fault = Some(fault);
                Err(fault)
            }
        }
    }

    /// What all that was fed says, where it is a script.
    pub fn finish(self) -> Result<Script, TextFault>
        ensures whole { IfOk result (λ script. (self.fault ≡ None) × ((fed : List ℕ) → HasRead fed self → script_of fed ≡ Ok script)) }
        ensures refused { IfErr result (λ e. (fed : List ℕ) → HasRead fed self → IsCause (script_of fed) e) }
        ensures told { (e : TextFault) → self.fault ≡ Some e → result ≡ Err e }
    {
        let ScriptReader {
            mut said,
            kept,
            at,
            fault,
        } = self;
        if let Some(fault) = fault {
            return Err(fault);
        }
        match read_end(&mut said, kept.as_slice(), at) {
            Ok(()) => Ok(whole(said)),
            Err(fault) => Err(fault),
        }
    }
}

fn whole(said: Drafting) -> Script
    ensures { result ≡ script_from said }
{
    let Drafting { alloc: _, draft } = said;
    script_from(draft)
}
