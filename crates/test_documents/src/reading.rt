//! Tests of reading the parts of a document: numbers, texts, names, lists and objects, and the faults that are
//! reported for them.

ghost use Rattle.std.specs.Prelude.{◌≤◌, length};

use scram_doc::{
    DocError, DocFault, Path, field, int_in, list, name_of, no_more_than, object, parse, required,
    text, whole_in,
};
use serde_json::Value;
use std::alloc::Global;
use std::rt::HostRuntime;
use std::test::Fail;

/// Checks a small document: an object with the members `scram` and `processors`. The member `processors` is a list of
/// 1 to 8 objects with the members `name` and `capacity`.
///
/// # Errors
///
/// Returns the first rule that the document breaks, with its path.
fn read_document(v: &Value) -> Result<(), DocFault> {
    let root = Path::root();
    object(v, &root)?;
    let scram = required(v, "scram", &root)?;
    let processors = required(v, "processors", &root)?;
    no_more_than(v, 2, &root)?;
    int_in(scram, 0, 1000, &root.member("scram"))?;
    let at = Path::root().member("processors");
    for (i, processor) in list(processors, 1, 8, &at)?.iter().enumerate() {
        read_processor(processor, &at.item(i))?;
    }
    Ok(())
}

fn read_processor(v: &Value, at: &Path) -> Result<(), DocFault>
    requires { length at.now ≤ 40 }
{
    object(v, at)?;
    let name = required(v, "name", at)?;
    let capacity = required(v, "capacity", at)?;
    no_more_than(v, 2, at)?;
    text(name, &at.member("name"))?;
    whole_in(capacity, 0, 1_000_001, &at.member("capacity"))?;
    Ok(())
}

/// Returns the rule and the path of the first fault of a document, or 0 and the path of the root if there is no
/// fault.
fn first_fault(alloc: Global, bytes: &[u8]) -> Result<(u8, Path), DocError> {
    let value = parse(alloc, bytes);
    match value {
        Ok(value) => match read_document(&value) {
            Ok(()) => Ok((0, Path::root())),
            Err(fault) => Ok((fault.rule, fault.path)),
        },
        Err(DocError::Fault(fault)) => Ok((fault.rule, fault.path)),
        Err(DocError::NoMemory) => Err(DocError::NoMemory),
    }
}

/// Returns the index of the first row whose document does not have the fault of the row, or `None` if there is no
/// such row. A row has a document, a rule and a path. The rule 0 with the path `.` means that there is no fault.
fn first_wrong(alloc: Global, rows: &[(&str, u8, &str)]) -> Result<Option<usize>, DocError> {
    for (i, (document, rule, path)) in rows.iter().enumerate() {
        let fault = first_fault(alloc, document.as_bytes())?;
        if fault.0 != *rule || fault.1.as_str() != *path {
            return Ok(Some(i));
        }
    }
    Ok(None)
}

#[test]
fn objects_and_lists_are_refused_at_the_first_broken_rule(rt: HostRuntime) -> Result<(), Fail> {
    let at = ".processors";
    let rows = [
        ("", 1, "."),
        ("[]", 2, "."),
        ("{}", 3, ".scram"),
        (r#"{"scram":9}"#, 3, at),
        (r#"{"scram":1,"processors":{},"extra":0}"#, 4, "."),
        (r#"{"scram":1,"processors":{}}"#, 5, at),
        (r#"{"scram":1,"processors":[]}"#, 6, at),
        (r#"{"scram":1,"processors":[0,0,0,0,0,0,0,0,0]}"#, 6, at),
        (
            r#"{"scram":1,"processors":[0,0,0,0,0,0,0,0]}"#,
            2,
            ".processors.0",
        ),
        (
            r#"{"scram":1,"processors":[{"name":"p0"}]}"#,
            3,
            ".processors.0.capacity",
        ),
        (r#"{"scram":1,"scram":5000,"processors":[]}"#, 8, ".scram"),
        (
            r#"{"scram":5000,"scram":1,"processors":[{"name":"p0","capacity":5}]}"#,
            0,
            ".",
        ),
    ];
    assert_eq!(rt; first_wrong(rt.alloc(), &rows)?, None);
    Ok(())
}

#[test]
fn texts_and_numbers_are_refused_at_the_first_broken_rule(rt: HostRuntime) -> Result<(), Fail> {
    let at = ".processors.0.capacity";
    let name = ".processors.0.name";
    let rows = [
        (
            r#"{"scram":1,"processors":[{"name":"p0","capacity":5}]}"#,
            0,
            ".",
        ),
        (
            r#"{"scram":1,"processors":[{"name":5,"capacity":5}]}"#,
            7,
            name,
        ),
        (
            r#"{"scram":1,"processors":[{"name":"p0","capacity":-1}]}"#,
            8,
            at,
        ),
        (
            r#"{"scram":1,"processors":[{"name":"p0","capacity":"5"}]}"#,
            8,
            at,
        ),
        (
            r#"{"scram":1,"processors":[{"name":"p0","capacity":1000000}]}"#,
            0,
            ".",
        ),
        (
            r#"{"scram":1,"processors":[{"name":"p0","capacity":1000001}]}"#,
            8,
            at,
        ),
    ];
    assert_eq!(rt; first_wrong(rt.alloc(), &rows)?, None);
    Ok(())
}

/// JSON texts, each with the integer from -7 to 10 that it encodes, or `None` if it encodes no such integer.
const NUMBERS: [(&str, Option<i64>); 11] = [
    ("0", Some(0)),
    ("5", Some(5)),
    ("-7", Some(-7)),
    ("10", Some(10)),
    ("11", None),
    ("-8", None),
    ("5.0", None),
    ("5e0", None),
    ("-0", None),
    ("18446744073709551616", None),
    ("true", None),
];

/// Returns the integer from -7 to 10 that a JSON text encodes, or `None` if it encodes no such integer.
fn number_of(alloc: Global, text: &str) -> Result<Option<i64>, DocError> {
    let value = parse(alloc, text.as_bytes())?;
    Ok(int_in(&value, -7, 10, &Path::root()).ok())
}

#[test]
fn whole_numbers_have_no_point_no_exponent_and_64_bits(rt: HostRuntime) -> Result<(), Fail> {
    for (number, want) in NUMBERS {
        assert_eq!(rt; number_of(rt.alloc(), number)?, want, "{number}");
    }
    Ok(())
}

/// Returns a text of `open` opening brackets, followed by `close` closing brackets.
fn brackets(alloc: Global, open: usize, close: usize) -> Result<Vec<u8>, Fail> {
    let mut bytes = Vec::new(alloc);
    for _ in 0..open {
        bytes.push(b'[')?;
    }
    for _ in 0..close {
        bytes.push(b']')?;
    }
    Ok(bytes)
}

/// The numbers of opening and of closing brackets, with the rule that a text of these brackets breaks.
const NESTED: [(usize, usize, u8); 5] = [
    (100, 100, 2),
    (127, 127, 2),
    (128, 128, 1),
    (200, 200, 1),
    (1_048_576, 0, 1),
];

/// Returns the rule and the path of the first fault in a text with `open` opening and `close` closing brackets.
fn bracket_fault(alloc: Global, open: usize, close: usize) -> Result<(u8, Path), Fail> {
    let bytes = brackets(alloc, open, close)?;
    let fault = first_fault(alloc, &bytes)?;
    Ok(fault)
}

#[test]
fn a_json_text_nests_127_levels(rt: HostRuntime) -> Result<(), Fail> {
    for (open, close, rule) in NESTED {
        let (found, path) = bracket_fault(rt.alloc(), open, close)?;
        assert_eq!(rt; (found, path.as_str()), (rule, "."), "{open} levels");
    }
    Ok(())
}

#[test]
fn a_json_text_is_utf8(rt: HostRuntime) -> Result<(), Fail> {
    let (found, path) = first_fault(rt.alloc(), b"\xff[]")?;
    assert_eq!(rt; (found, path.as_str()), (1, "."));
    Ok(())
}

/// Returns the text of a member of an object, or `None` if there is no such member or the member is not a text.
fn text_member<'a>(v: &'a Value, name: &str) -> Option<&'a str> {
    let path = Path::root();
    match field(v, name) {
        Some(member) => text(member, &path).ok(),
        None => None,
    }
}

#[test]
fn members_are_found_by_name(rt: HostRuntime) -> Result<(), Fail> {
    let value = parse(rt.alloc(), br#"{"a":1,"b":"two"}"#)?;
    assert_eq!(rt; text_member(&value, "b"), Some("two"));
    assert!(rt; field(&value, "c").is_none());
    Ok(())
}

/// Texts, with `true` for each text that is a valid name.
const NAMES: [(&str, bool); 10] = [
    ("p", true),
    ("alternator_1", true),
    ("abcdefghijklmnop", true),
    ("abcdefghijklmnopq", false),
    ("", false),
    ("P0", false),
    ("pQ", false),
    ("0p", false),
    ("_p", false),
    ("p-0", false),
];

/// Returns `Some(true)` if the name that is made from a text has the same spelling as the text, and `Some(false)` if
/// it has another spelling. Returns `None` if the text is not a valid name.
fn is_kept(text: &str) -> Option<bool> {
    match name_of(text) {
        Some(name) => Some(name.as_str() == text),
        None => None,
    }
}

#[test]
fn names_have_16_letters_digits_and_underscores(rt: HostRuntime) {
    for (text, valid) in NAMES {
        let want = if valid { Some(true) } else { None };
        assert_eq!(rt; is_kept(text), want, "{text}");
    }
}
