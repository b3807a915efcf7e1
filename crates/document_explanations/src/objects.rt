//! The objects of specifications and scripts. Each object has a table of its members with their expected values.

ghost use Rattle.std.specs.Prelude.{◌≡◌, map, option_map};
ghost use Rattle.document_explanations.specs.Objects.{member_named, member_read, known_members};

use crate::wanted_values::{Element, Length, Number, Text, Versions, Wanted};
use scram_types::limits::{
    MAX_ALTITUDE, MAX_APPLICATIONS, MAX_ASSUMED_CHANGES, MAX_ASSUMED_HALTS, MAX_BOUND, MAX_BOUNDS,
    MAX_CHANGES, MAX_CONFIGURATIONS, MAX_DEMANDS, MAX_FACTORS, MAX_FRAMES, MAX_HEADING,
    MAX_INTERVAL_END, MAX_INTERVALS, MAX_LOAD, MAX_MODES, MAX_PHASE, MAX_PROCESSORS, MAX_RULES,
    MAX_VALUES, MAX_WINDOW, MIN_VALUES,
};

/// A kind of object in a document.
#[derive(Clone, Copy)]
pub enum ObjectKind {
    /// The whole specification.
    Specification,
    Processor,
    Application,
    /// A mode that an application lists.
    Mode,
    Configuration,
    /// An application that a configuration places.
    Place,
    Factor,
    /// A rule of the choice table.
    Rule,
    /// The value of a factor that a rule or a demand requires.
    RequiredValue,
    Bound,
    Goal,
    Invariant,
    Precondition,
    Assumption,
    Demand,
    /// An application that a demand requires to be on.
    RequiredApplication,
    /// The whole script.
    Script,
    Change,
    Halt,
    Restart,
}

/// A member of an object, with its name, the versions of the document that have it, and its expected value.
#[derive(Clone, Copy)]
pub struct Member {
    pub name: &'static str,
    pub versions: Versions,
    pub wanted: Wanted,
}

macro_rules! member {
    ($name:expr, $versions:expr, $wanted:expr) => {
        Member {
            name: $name,
            versions: $versions,
            wanted: $wanted,
        }
    };
    ($name:expr, $wanted:expr) => {
        member!($name, Versions::All, $wanted)
    };
}

macro_rules! list {
    ($least:expr, $most:expr, $element:expr) => {
        Wanted::List {
            length: Length::Within {
                least: $least,
                most: $most,
            },
            element: $element,
        }
    };
}

macro_rules! whole {
    ($least:expr, $greatest:expr) => {
        Wanted::Number(Number::Whole {
            least: $least,
            greatest: $greatest,
        })
    };
}

macro_rules! signed {
    ($least:expr, $greatest:expr) => {
        Wanted::Number(Number::Signed {
            least: $least,
            greatest: $greatest,
        })
    };
}

macro_rules! text {
    ($text:ident) => {
        Wanted::Text(Text::$text)
    };
}

macro_rules! object {
    ($object:ident) => {
        Element::Object(ObjectKind::$object)
    };
}

/// A list of processor names, which may be empty.
const PROCESSORS: Wanted = list!(0, MAX_PROCESSORS, Element::Text(Text::Processor));

/// A list of application names, which may be empty.
const APPLICATIONS: Wanted = list!(0, MAX_APPLICATIONS, Element::Text(Text::Application));

/// A list of configuration names, which may be empty.
const CONFIGURATIONS: Wanted = list!(0, MAX_CONFIGURATIONS, Element::Text(Text::Configuration));

/// A list of required values of factors, which may be empty.
const REQUIRED_VALUES: Wanted = list!(0, MAX_FACTORS, object!(RequiredValue));

const LOAD: Wanted = whole!(0, MAX_LOAD);

const PHASE: Wanted = whole!(1, MAX_PHASE as u32);

const INTERVAL_END: Wanted = signed!(-MAX_INTERVAL_END, MAX_INTERVAL_END);

const SPECIFICATION: &[Member] = &[
    member!("scram", Wanted::Number(Number::SpecificationVersion)),
    member!("processors", list!(1, MAX_PROCESSORS, object!(Processor))),
    member!("apps", list!(1, MAX_APPLICATIONS, object!(Application))),
    member!(
        "configurations",
        list!(1, MAX_CONFIGURATIONS, object!(Configuration))
    ),
    member!("factors", list!(0, MAX_FACTORS, object!(Factor))),
    member!("rules", list!(0, MAX_RULES, object!(Rule))),
    member!("bounds", list!(0, MAX_BOUNDS, object!(Bound))),
    member!("start", text!(Configuration)),
    member!("goal", Wanted::Object(ObjectKind::Goal)),
    member!("invariants", list!(0, MAX_INTERVALS, object!(Invariant))),
    member!(
        "preconditions",
        list!(0, MAX_INTERVALS, object!(Precondition))
    ),
    member!("assumption", Wanted::Object(ObjectKind::Assumption)),
    member!("policy", Versions::SecondOn, text!(Policy)),
    member!(
        "demands",
        Versions::Third,
        list!(0, MAX_DEMANDS, object!(Demand))
    ),
];

const PROCESSOR: &[Member] = &[member!("name", text!(Name)), member!("capacity", LOAD)];

const APPLICATION: &[Member] = &[
    member!("name", text!(Name)),
    member!("kind", text!(Kind)),
    member!("needs", APPLICATIONS),
    member!("modes", list!(1, MAX_MODES, object!(Mode))),
];

const MODE: &[Member] = &[
    member!("mode", text!(Mode)),
    member!("load", LOAD),
    member!("halt", PHASE),
    member!("prepare", PHASE),
    member!("init", PHASE),
];

const CONFIGURATION: &[Member] = &[
    member!("name", text!(Name)),
    member!("apps", list!(0, MAX_APPLICATIONS, object!(Place))),
];

const PLACE: &[Member] = &[
    member!("app", text!(Application)),
    member!("mode", text!(Mode)),
    member!("on", text!(Processor)),
];

const FACTOR: &[Member] = &[
    member!("name", text!(Name)),
    member!(
        "values",
        list!(MIN_VALUES, MAX_VALUES, Element::Text(Text::Name))
    ),
];

const RULE: &[Member] = &[
    member!("from", text!(ConfigurationOrAny)),
    member!("when", REQUIRED_VALUES),
    member!("up", PROCESSORS),
    member!("to", text!(Configuration)),
];

const REQUIRED_VALUE: &[Member] = &[
    member!("factor", text!(Factor)),
    member!("value", text!(Value)),
];

const BOUND: &[Member] = &[
    member!("from", text!(Configuration)),
    member!("to", text!(Configuration)),
    member!("frames", whole!(1, MAX_BOUND)),
];

const GOAL: &[Member] = &[
    member!("altitude", signed!(0, MAX_ALTITUDE)),
    member!("heading", signed!(0, MAX_HEADING)),
];

const INVARIANT: &[Member] = &[
    member!("from", text!(ConfigurationOrAny)),
    member!("app", text!(Application)),
    member!("variable", text!(Variable)),
    member!("least", INTERVAL_END),
    member!("greatest", INTERVAL_END),
];

const PRECONDITION: &[Member] = &[
    member!("configuration", text!(Configuration)),
    member!("app", text!(Application)),
    member!("variable", text!(Variable)),
    member!("least", INTERVAL_END),
    member!("greatest", INTERVAL_END),
];

const ASSUMPTION: &[Member] = &[
    member!("halts", whole!(0, MAX_ASSUMED_HALTS as u32)),
    member!("changes", whole!(0, MAX_ASSUMED_CHANGES as u32)),
    member!("window", whole!(1, MAX_WINDOW)),
];

const DEMAND: &[Member] = &[
    member!("name", text!(Name)),
    member!("from", CONFIGURATIONS),
    member!("when", REQUIRED_VALUES),
    member!("up", PROCESSORS),
    member!("down", PROCESSORS),
    member!("to", CONFIGURATIONS),
    member!(
        "on",
        list!(0, MAX_APPLICATIONS, object!(RequiredApplication))
    ),
    member!("off", APPLICATIONS),
];

const REQUIRED_APPLICATION: &[Member] = &[
    member!("app", text!(Application)),
    member!("modes", list!(0, MAX_MODES, Element::Text(Text::Mode))),
];

const SCRIPT: &[Member] = &[
    member!("scram", Wanted::Number(Number::ScriptVersion)),
    member!("frames", whole!(0, MAX_FRAMES)),
    member!("changes", list!(0, MAX_CHANGES, object!(Change))),
    member!(
        "halts",
        Wanted::List {
            length: Length::Halts,
            element: object!(Halt),
        }
    ),
    member!(
        "restarts",
        Versions::Second,
        list!(0, MAX_PROCESSORS, object!(Restart))
    ),
];

const CHANGE: &[Member] = &[
    member!("frame", Wanted::Number(Number::Frame { least: 1 })),
    member!("factor", text!(ScriptFactor)),
    member!("value", text!(ScriptFactor)),
];

const HALT: &[Member] = &[
    member!("processor", text!(ScriptProcessor)),
    member!("frame", Wanted::Number(Number::Frame { least: 0 })),
    member!("step", Wanted::Number(Number::Step)),
];

const RESTART: &[Member] = &[
    member!("processor", text!(ScriptProcessor)),
    member!("frame", Wanted::Number(Number::Frame { least: 2 })),
];

/// Returns the members that an object may have, in the order in which they are read.
pub fn known_members(object: ObjectKind) -> &'static [Member]
    ensures { map member_read result.now ≡ known_members object }
{
    match object {
        ObjectKind::Specification => SPECIFICATION,
        ObjectKind::Processor => PROCESSOR,
        ObjectKind::Application => APPLICATION,
        ObjectKind::Mode => MODE,
        ObjectKind::Configuration => CONFIGURATION,
        ObjectKind::Place => PLACE,
        ObjectKind::Factor => FACTOR,
        ObjectKind::Rule => RULE,
        ObjectKind::RequiredValue => REQUIRED_VALUE,
        ObjectKind::Bound => BOUND,
        ObjectKind::Goal => GOAL,
        ObjectKind::Invariant => INVARIANT,
        ObjectKind::Precondition => PRECONDITION,
        ObjectKind::Assumption => ASSUMPTION,
        ObjectKind::Demand => DEMAND,
        ObjectKind::RequiredApplication => REQUIRED_APPLICATION,
        ObjectKind::Script => SCRIPT,
        ObjectKind::Change => CHANGE,
        ObjectKind::Halt => HALT,
        ObjectKind::Restart => RESTART,
    }
}

/// Returns the member of `object` with the name `name`, or `None` if there is none.
pub fn find_member(object: ObjectKind, name: &str) -> Option<Member>
    ensures { option_map member_read result ≡ member_named (known_members object) name.now }
{
    for member in known_members(object) {
        if member.name == name {
            return Some(*member);
        }
    }
    None
}
