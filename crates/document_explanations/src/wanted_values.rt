//! The values that are expected in a document.

use crate::objects::ObjectKind;

/// The versions of a document in which an object has a member.
#[derive(Clone, Copy)]
pub enum Versions {
    /// Every version.
    All,
    /// Versions 2 and 3 of the specification.
    SecondOn,
    /// Version 3 of the specification.
    Third,
    /// Version 2 of the script.
    Second,
}

/// The expected number of elements of a list.
#[derive(Clone, Copy)]
pub enum Length {
    Within { least: usize, most: usize },
    /// From 0 to the maximum number of halts, which depends on the version of the script.
    Halts,
}

/// An expected number.
#[derive(Clone, Copy)]
pub enum Number {
    /// The version of a specification.
    SpecificationVersion,
    /// The version of a script.
    ScriptVersion,
    /// A number from `least` to `greatest`.
    Whole { least: u32, greatest: u32 },
    /// A number from `least` to `greatest`, which may be negative.
    Signed { least: i64, greatest: i64 },
    /// The number of a frame of a script, from `least` to the number of the script's last frame.
    Frame { least: u32 },
    /// The step of a frame at which a processor halts.
    Step,
}

/// An expected text.
#[derive(Clone, Copy)]
pub enum Text {
    /// A name that the document defines.
    Name,
    /// The name of a processor of the same document.
    Processor,
    /// The name of an application of the same document.
    Application,
    /// The name of a configuration of the same document.
    Configuration,
    /// The name of a configuration of the same document, or `*`.
    ConfigurationOrAny,
    /// The name of a factor of the same document.
    Factor,
    /// The name of a factor's value in the same document.
    Value,
    /// The name of a kind of application.
    Kind,
    /// The name of a mode of an application.
    Mode,
    /// The name of a variable of an application.
    Variable,
    /// The name of a policy.
    Policy,
    /// The name of a factor, or of a factor's value, in the specification that a script is for.
    ScriptFactor,
    /// The name of a processor in the specification that a script is for.
    ScriptProcessor,
}

/// The expected value of each element of a list, which is an object or a text.
#[derive(Clone, Copy)]
pub enum Element {
    Object(ObjectKind),
    Text(Text),
}

/// The expected value at a path of a document.
#[derive(Clone, Copy)]
pub enum Wanted {
    Object(ObjectKind),
    List { length: Length, element: Element },
    Number(Number),
    Text(Text),
}
