//! Tests of reading and writing specifications, with the example from the description of the format. The tests of the
//! refusal by each rule, and of longer documents, are rows of `test_worked`.

use reconf_spec::{SpecError, read_spec, write_spec};
use scram_doc::Path;
use scram_types::NoMemory;
use scram_types::limits::MAX_SPECIFICATION_BYTES;
use std::alloc::Global;
use std::rt::HostRuntime;
use std::test::Fail;

/// The example from the description of the format, written by hand.
const EXAMPLE: &str = r#"{"scram":1,
"processors":[{"name":"p0","capacity":100}],
"apps":[{"name":"link","kind":"datalink","needs":[],"modes":[{"mode":"fast","load":20,"halt":1,"prepare":1,"init":1}]}],
"configurations":[{"name":"full","apps":[{"app":"link","mode":"fast","on":"p0"}]}],
"factors":[],"rules":[{"from":"*","when":[],"up":["p0"],"to":"full"}],
"bounds":[{"from":"full","to":"full","frames":10}],"start":"full",
"goal":{"altitude":5000,"heading":900},"invariants":[],
"preconditions":[{"configuration":"full","app":"link","variable":"queued","least":0,"greatest":8}],
"assumption":{"halts":0,"changes":1,"window":40}}"#;

/// The canonical text of the example.
const CANONICAL: &str =
    r#"{"apps":[{"kind":"datalink","modes":[{"halt":1,"init":1,"load":20,"mode":"fast","prepare":1}],"name":"link","needs":[]}],"assumption":{"changes":1,"halts":0,"window":40},"bounds":[{"frames":10,"from":"full","to":"full"}],"configurations":[{"apps":[{"app":"link","mode":"fast","on":"p0"}],"name":"full"}],"factors":[],"goal":{"altitude":5000,"heading":900},"invariants":[],"preconditions":[{"app":"link","configuration":"full","greatest":8,"least":0,"variable":"queued"}],"processors":[{"capacity":100,"name":"p0"}],"rules":[{"from":"*","to":"full","up":["p0"],"when":[]}],"scram":1,"start":"full"}"#;

/// Returns the rule and the path of the first fault of a specification, or 0 and the path of the root if there is no
/// fault.
fn refusal(alloc: Global, bytes: &[u8]) -> Result<(u8, Path), NoMemory> {
    match read_spec(alloc, bytes).err() {
        None => Ok((0, Path::root())),
        Some(SpecError::Fault(fault)) => Ok((fault.rule, fault.path)),
        Some(SpecError::NoMemory) => Err(NoMemory),
    }
}

/// Returns a text of `length` bytes: `open` opening brackets, followed by closing brackets.
fn brackets(alloc: Global, open: usize, length: usize) -> Result<Vec<u8>, NoMemory> {
    let mut bytes = Vec::new(alloc);
    bytes.resize(open, b'[')?;
    bytes.resize(length, b']')?;
    Ok(bytes)
}

/// The numbers of opening brackets and of all brackets, with the rule that a text of these brackets breaks.
const DEEP: [(usize, usize, u8); 5] = [
    (100, 200, 2),
    (127, 254, 2),
    (128, 256, 1),
    (200, 400, 1),
    (MAX_SPECIFICATION_BYTES, MAX_SPECIFICATION_BYTES, 1),
];

/// Returns the rule that a text of `length` brackets breaks. The first `open` brackets are opening brackets, and the
/// remaining brackets are closing brackets.
fn bracket_rule(alloc: Global, open: usize, length: usize) -> Result<u8, NoMemory> {
    let bytes = brackets(alloc, open, length)?;
    let (rule, _path) = refusal(alloc, &bytes)?;
    Ok(rule)
}

#[test]
fn deep_texts(rt: HostRuntime) -> Result<(), Fail> {
    for (open, length, rule) in DEEP {
        assert_eq!(rt;
            bracket_rule(rt.alloc(), open, length)?,
            rule,
            "{open} levels"
        );
    }
    Ok(())
}

/// Returns the rule and the path of the first fault of a text that begins with the byte 255 and continues with the
/// example. The byte 255 occurs in no UTF-8 text.
fn refusal_after_byte(alloc: Global) -> Result<(u8, Path), NoMemory> {
    let mut bytes = Vec::from_slice(alloc, &[255])?;
    bytes.extend_from_slice(EXAMPLE.as_bytes())?;
    refusal(alloc, &bytes)
}

#[test]
fn a_byte_before_it_is_no_json_text(rt: HostRuntime) -> Result<(), Fail> {
    let (rule, path) = refusal_after_byte(rt.alloc())?;
    assert_eq!(rt; (rule, path.as_str()), (1, "."));
    Ok(())
}

#[test]
fn cuts_are_no_json_texts(rt: HostRuntime) -> Result<(), Fail> {
    let text = EXAMPLE.as_bytes();
    for end in 0..text.len() {
        let (rule, path) = refusal(rt.alloc(), &text[..end])?;
        assert_eq!(rt; (rule, path.as_str()), (1, "."), "cut at {end}");
    }
    Ok(())
}

/// Returns the canonical text of the specification that a text encodes, or no bytes if the text encodes no
/// specification.
fn rewritten(alloc: Global, bytes: &[u8]) -> Result<Vec<u8>, NoMemory> {
    match read_spec(alloc, bytes) {
        Ok(spec) => write_spec(alloc, &spec),
        Err(SpecError::Fault(_)) => Ok(Vec::new(alloc)),
        Err(SpecError::NoMemory) => Err(NoMemory),
    }
}

/// Returns `true` if the specification that `text` encodes has the canonical text `canonical`.
fn is_written(alloc: Global, text: &str, canonical: &str) -> Result<bool, NoMemory> {
    let written = rewritten(alloc, text.as_bytes())?;
    Ok(written.as_slice() == canonical.as_bytes())
}

#[test]
fn the_example_is_written_in_its_canonical_text(rt: HostRuntime) -> Result<(), Fail> {
    assert!(rt; is_written(rt.alloc(), EXAMPLE, CANONICAL)?);
    assert!(rt; is_written(rt.alloc(), CANONICAL, CANONICAL)?);
    Ok(())
}

/// Returns a text in which the first occurrence of `old` is replaced by `new`, or the text itself if `old` does not
/// occur.
fn changed(alloc: Global, text: &str, old: &str, new: &str) -> Result<String, NoMemory> {
    match text.split_once(old) {
        Some((before, after)) => Ok(format!(in alloc; "{before}{new}{after}")?),
        None => Ok(text.to_string(alloc)?),
    }
}

/// Returns the canonical text of the example in another version of the format. `version` is the text of the member
/// `scram`. `policy` is the text of the member `policy`, followed by the name of the next member.
fn version(alloc: Global, version: &str, policy: &str) -> Result<String, NoMemory> {
    let text = changed(alloc, CANONICAL, r#""scram":1"#, version)?;
    changed(alloc, text.as_str(), r#""preconditions""#, policy)
}

#[test]
fn the_second_version_is_written_as_it_was_read(rt: HostRuntime) -> Result<(), Fail> {
    let policy = r#""policy":"settle","preconditions""#;
    let settle = version(rt.alloc(), r#""scram":2"#, policy)?;
    assert!(rt; is_written(rt.alloc(), settle.as_str(), settle.as_str())?);
    Ok(())
}

/// A demand for the example, in its canonical text.
const DEMAND: &str =
    r#""demands":[{"down":[],"from":["full"],"name":"stay","off":[],"on":[{"app":"link","modes":["fast"]}],"to":["full"],"up":["p0"],"when":[]}],"factors""#;

/// Returns the canonical text of the example in version 3, with a policy and a demand.
fn third_version(alloc: Global) -> Result<String, NoMemory> {
    let policy = r#""policy":"retarget","preconditions""#;
    let text = version(alloc, r#""scram":3"#, policy)?;
    changed(alloc, text.as_str(), r#""factors""#, DEMAND)
}

#[test]
fn the_third_version_is_written_as_it_was_read(rt: HostRuntime) -> Result<(), Fail> {
    let demands = third_version(rt.alloc())?;
    assert!(rt; is_written(rt.alloc(), demands.as_str(), demands.as_str())?);
    Ok(())
}
