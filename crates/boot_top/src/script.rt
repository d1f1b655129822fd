//! A script that is followed: it is run where the stack has all that it asks for. The run itself isn't here.
ghost use Rattle.std.specs.Prelude.{◌≡◌, ℕ, List, [], ◌++◌, Ok, IfOk, OnOk};
ghost use Rattle.script_text.specs.Scripts.{script_of};
ghost use Rattle.boot_top.specs.Scripts.{SaysTrace};
ghost use Rattle.boot_top.specs.Streaming.{HasReadScript};
ghost use Rattle.boot_top.specs.Texts.{IsTold};

use crate::following::{Told, refused};
use efi_base::NoMemory;
use efi_feed::Feed;
use script_run::{are_built, run_script};
use script_text::{Script, ScriptReader};
use std::alloc::Global;
use text_base::TextFault;

/// How far a script was read, and memory for its run.
#[derive(Drop)]
pub struct ScriptRun {
    reader: ScriptReader,
    alloc: Global,
}

impl ScriptRun {
    /// Nothing was fed yet.
    pub fn new(alloc: Global) -> ScriptRun
        ensures { HasReadScript [] result }
    {
        ScriptRun {
            reader: ScriptReader::new(alloc),
            alloc,
        }
    }
}

impl Feed for ScriptRun {
    type About = ();

    type Whole = Told;

    ghost has_fed = { λ _ fed run. HasReadScript fed run };

    ghost is_whole = { λ _ fed told. IsTold SaysTrace (script_of fed) told };

    // Octets behind the first bad line aren't looked at.
    fn feed(&mut self, piece: &[u8]) -> Result<(), NoMemory> {
        match self.reader.feed(piece) {
            Ok(()) => Ok(()),
            Err(TextFault::BadAt(_)) => Ok(()),
            Err(TextFault::OutOfResources) => Err(NoMemory),
        }
    }

    fn finish(self) -> Result<Told, NoMemory> {
        let ScriptRun { reader, alloc } = self;
        match reader.finish() {
            Ok(script) => told_of(alloc, &script),
            Err(fault) => refused(fault),
        }
    }
}

/// What comes of a script.
fn told_of(alloc: Global, script: &Script) -> Result<Told, NoMemory>
    ensures { IfOk result (IsTold SaysTrace (Ok script.now)) }
{
    if !are_built(script.steps.as_slice()) {
        return Ok(Told::NotBuilt);
    }
    let trace = run_script(alloc, script)?;
    Ok(Told::Text(trace))
}
