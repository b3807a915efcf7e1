//! A specification and a script that are read or written a given number of times, so that one reading or writing can
//! be timed.

ghost use Rattle.std.specs.Prelude.{OnOk, IfOk};
ghost use Rattle.test_missions.specs.Documents.{AreSent, IsPrinted, IsRead};

use fault_script::{ScriptError, read_script};
use mission_gen::write_mission;
use reconf_spec::{SpecError, read_spec};
use scram_doc::Path;
use scram_io::{RealSink, Sink, SinkFault};
use scram_types::{NoMemory, Script, Spec};
use std::alloc::Global;
use std::rt::HostRuntime;
use std::{fs, io};
use test_kit::{given, number, split_word};
use thiserror::Error;

/// The reason why nothing was read or written.
#[derive(Debug, Drop, Error)]
enum Refusal {
    #[error("specification rule {0} at {1}")]
    Spec(u8, Path),
    #[error("script rule {0} at {1}")]
    Script(u8, Path),
    #[error("memory")]
    Memory(#[from] NoMemory),
    #[error("write")]
    Output(#[from] SinkFault),
}

/// Two documents, and how often each is read or written.
#[derive(Drop)]
struct Documents {
    times: u32,
    spec: String,
    script: String,
}

/// Reads both documents of a row `TIMES SPECIFICATION SCRIPT` `TIMES` times.
pub fn read_row(rt: &HostRuntime, words: &str) -> io::Result<()> {
    let documents = load(rt, words)?;
    answer(rt, read_all(rt.alloc(), &documents))
}

/// Reads both documents of a row `TIMES SPECIFICATION SCRIPT` once, writes both `TIMES` times, or once if `TIMES` is
/// 0, and prints their canonical texts, one on each line.
pub fn write_row(rt: &HostRuntime, words: &str) -> io::Result<()> {
    let documents = load(rt, words)?;
    let mut out = given(RealSink::new(rt.alloc(), rt))?;
    answer(rt, print(rt.alloc(), &documents, &mut out))
}

fn load(rt: &HostRuntime, words: &str) -> io::Result<Documents> {
    let (times, files) = split_word(words);
    let (spec, script) = split_word(files);
    Ok(Documents {
        times: number(times)?,
        spec: fs::read_to_string(rt, spec)?,
        script: fs::read_to_string(rt, script)?,
    })
}

fn answer(rt: &HostRuntime, made: Result<(), Refusal>) -> io::Result<()> {
    match made {
        Ok(()) => Ok(()),
        Err(refusal) => println!(rt; "refused: {refusal}"),
    }
}

fn read_all(alloc: Global, documents: &Documents) -> Result<(), Refusal> {
    for _ in 0..documents.times {
        read(
            alloc,
            documents.spec.as_bytes(),
            documents.script.as_bytes(),
        )?;
    }
    Ok(())
}

/// Reads a specification and a script for it. Returns an error if a document breaks a rule, or if memory runs out.
fn read(alloc: Global, spec: &[u8], script: &[u8]) -> Result<(Spec, Script), Refusal>
    ensures { IfOk result (λ read. IsRead spec.now script.now read.0 read.1) }
{
    let spec = match read_spec(alloc, spec) {
        Ok(spec) => spec,
        Err(SpecError::Fault(fault)) => return Err(Refusal::Spec(fault.rule, fault.path)),
        Err(SpecError::NoMemory) => return Err(Refusal::Memory(NoMemory)),
    };
    match read_script(alloc, script, &spec) {
        Ok(script) => Ok((spec, script)),
        Err(ScriptError::Fault(fault)) => Err(Refusal::Script(fault.rule, fault.path)),
        Err(ScriptError::NoMemory) => Err(Refusal::Memory(NoMemory)),
    }
}

fn print<K: Sink>(alloc: Global, documents: &Documents, out: &mut K) -> Result<(), Refusal>
    ensures { OnOk result (IsPrinted documents.now.spec.bytes.items documents.now.script.bytes.items (K.state out.old) (K.state out.new)) }
{
    let (spec, script) = read(
        alloc,
        documents.spec.as_bytes(),
        documents.script.as_bytes(),
    )?;
    print_mission(alloc, &spec, &script, documents.times, out)
}

fn print_mission<K: Sink>(
    alloc: Global,
    spec: &Spec,
    script: &Script,
    times: u32,
    out: &mut K,
) -> Result<(), Refusal>
    ensures { OnOk result (AreSent spec.now script.now (K.state out.old) (K.state out.new)) }
{
    for _ in 1..times {
        write_mission(alloc, spec, script)?;
    }
    let text = write_mission(alloc, spec, script)?;
    out.put(&text)?;
    out.flush()?;
    Ok(())
}
