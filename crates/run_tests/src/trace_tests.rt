//! Scripts with their traces.
use efi_base::Bytes;
use script_run::{are_built, run_script};
use script_text::{Script, ScriptReader};
use std::alloc::Global;
use std::process::Abort;
use std::test::Fail;
use text_base::TextFault;

/// A script in each row, then `|` and its trace, without the first and the last lines of both, with `;` for LF. `F` stands for the
/// Ethernet addresses of a broadcast from 02:00:00:00:00:01, `Z` for 18 zero octets.
const ROWS: &str = "\
create arp;configure 1 arp ip 10.0.0.2 entry 0 tries 3 gap 1000;post 1 request \
10.0.0.1;\
frame 020000000001020000000002080600010800060400020200000000020a0000010200000000010a000002;post 1 request \
10.0.0.1;\
|handle 1;done;token 1;\
sent F080600010800060400010200000000010a0000020000000000000a000001Z;\
heard;fired 1 success 02:00:00:00:00:02;token 2;fired 2 success 02:00:00:00:00:02;
create mnp;configure 1 mnp type 34997 unicast;post 1 receive;post 1 receive;post 1 receive;\
frame ffffffffffff02000000000288b54142;frame 02000000000102000000000288b54142;cancel 1 2;reset 1;post 1 receive;\
|handle 1;done;token 1;token 2;token 3;heard;heard;fired 1 success 02000000000102000000000288b54142;done;\
fired 2 aborted;done;fired 3 aborted;refused not-started;
create arp;configure 1 arp ip 10.0.0.2 entry 0 tries 2 gap 1000;post 1 request \
10.0.0.1;tick 999;tick 1000;tick 2000;\
|handle 1;done;token 1;sent F080600010800060400010200000000010a0000020000000000000a000001Z;tick 999;\
tick 1000;sent F080600010800060400010200000000010a0000020000000000000a000001Z;tick 2000;fired 1 no-mapping;
create mnp;configure 1 mnp type 34997;post 1 send ff:ff:ff:ff:ff:ff 34997 4142;snp shutdown;reset 1;snp shutdown;\
|handle 1;done;token 1;fired 1 success -;\
sent F88b54142ZZ0000000000000000;refused access-denied;done;done;
snp shutdown;snp stop;create mnp;create arp;configure 1 mnp type 1;configure 2 arp ip 10.0.0.2 entry 0 tries 3 gap 1000;\
destroy 1;configure 1 mnp type 1;arpfind 2 10.0.0.1;\
|done;done;handle 1;handle 2;refused not-started;refused not-started;done;refused bad-handle;refused not-started;
create arp;configure 1 arp ip 10.0.0.2 entry 0 tries 3 gap 1000;arpadd 1 10.0.0.9 02:00:00:00:00:09 fixed;arpfind 1 10.0.0.9;\
arpadd 1 10.0.0.9 02:00:00:00:00:09 dynamic;arpflush 1;arpdelete 1 10.0.0.9;arpfind 1 10.0.0.9;\
|handle 1;done;done;found 02:00:00:00:00:09;refused access-denied;refused not-found;done;refused not-found;
create arp;configure 1 arp ip 10.0.0.2 entry 0 tries 3 gap 1000;\
frame ffffffffffff020000000002080600010800060400010200000000020a0000010000000000000a000002;\
frame ffffffffffff020000000002080600010800060400010200000000020a0000010000000000000a000003;\
|handle 1;done;heard;\
sent 0200000000020200000000010806000108000604000202000000000\
10a0000020200000000020a000001Z;heard;";

/// The octets that one of a row's stands for.
fn put(text: &mut Vec<u8>, octet: u8) -> Result<(), Fail> {
    match octet {
        b';' => text.push(b'\n')?,
        b'F' => text.extend_from_slice(b"ffffffffffff020000000001")?,
        b'Z' => text.extend_from_slice(b"000000000000000000000000000000000000")?,
        other => text.push(other)?,
    }
    Ok(())
}

/// The script of a row, and its trace.
fn texts_of(alloc: Global, row: &[u8]) -> Result<(Vec<u8>, Vec<u8>), Fail> {
    let mut script = b"efiscript 1\nsnp start\nsnp initialize\n".to_vec(alloc)?;
    let mut trace = b"efitrace 1\ndone\ndone\n".to_vec(alloc)?;
    let mut is_behind = false;
    for octet in row {
        if *octet == b'|' {
            is_behind = true;
        } else if is_behind {
            put(&mut trace, *octet)?;
        } else {
            put(&mut script, *octet)?;
        }
    }
    script.extend_from_slice(b"end\n")?;
    trace.extend_from_slice(b"end\n")?;
    Ok((script, trace))
}

fn script_of(alloc: Global, text: &[u8]) -> Result<Script, TextFault> {
    let mut reader = ScriptReader::new(alloc);
    reader.feed(text)?;
    reader.finish()
}

/// The trace of a script that the stack can do whole, apart, since its contract would stand in the proof of what is done beside it.
fn trace_of(alloc: Global, text: &[u8]) -> Result<Option<Bytes>, Fail> {
    let Ok(script) = script_of(alloc, text) else {
        return Ok(None);
    };
    if !are_built(script.steps.as_slice()) {
        return Ok(None);
    }
    let trace = run_script(alloc, &script)?;
    Ok(Some(trace))
}

fn row_runs(rt: &impl Abort, alloc: Global, row: &str) -> Result<(), Fail> {
    let (script, trace) = texts_of(alloc, row.as_bytes())?;
    match trace_of(alloc, script.as_slice())? {
        Some(text) => assert_eq!(rt; text.as_slice(), trace.as_slice(), "{row}"),
        None => assert!(rt; false, "no script: {row}"),
    }
    Ok(())
}

#[test]
fn scripts_have_their_traces(rt: HostRuntime) -> Result<(), Fail> {
    for row in ROWS.lines() {
        row_runs(&rt, rt.alloc(), row)?;
    }
    Ok(())
}
