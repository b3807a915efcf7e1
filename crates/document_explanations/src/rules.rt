//! The table of the rules of specifications and scripts, each with the text that is shown if the rule is broken.

ghost use Rattle.std.specs.Prelude.{◌≡◌, ◌++◌, OnOk, map, option_map};
ghost use Rattle.document_explanations.specs.Rules.{broken_rule, common_rules, limit_text, own_rules, root_of, rule_in, plain_rule, rule_words, shows_found, shows_wanted};

use crate::lines::Lines;
use crate::objects::ObjectKind;
use fault_script::rule as script_rule;
use scram_doc::rule;
use scram_types::NoMemory;
use scram_types::limits::{MAX_SCRIPT_BYTES, MAX_SPECIFICATION_BYTES};
use spec_reading::rule as specification_rule;

/// A kind of document whose broken rules are explained.
#[derive(Clone, Copy)]
pub enum DocumentKind {
    Specification,
    Script,
}

impl DocumentKind {
    /// Returns the object that is the whole document.
    pub fn root(self) -> ObjectKind
        ensures { result ≡ root_of self }
    {
        match self {
            DocumentKind::Specification => ObjectKind::Specification,
            DocumentKind::Script => ObjectKind::Script,
        }
    }
}

/// The parts of an explanation that are shown if a rule is broken.
#[derive(Clone, Copy)]
pub enum Shows {
    /// The rule alone.
    Nothing,
    /// The expected value.
    Wanted,
    /// The value that was found.
    Found,
    /// The expected value, and the value that was found.
    Both,
}

/// A rule: its number, its text, the limit in bytes that is shown after the text, if the rule has one, and the parts
/// of an explanation that are shown if the rule is broken.
#[derive(Clone, Copy)]
pub struct DocumentRule {
    pub number: u8,
    /// The text of the rule. If the rule has a limit in bytes, the limit is shown after the text.
    pub text: &'static str,
    pub limit: Option<usize>,
    pub shows: Shows,
}

macro_rules! rule {
    ($number:expr, $text:expr, $limit:expr, $shows:ident) => {
        DocumentRule {
            number: $number,
            text: $text,
            limit: $limit,
            shows: Shows::$shows,
        }
    };
    ($number:expr, $text:expr, $shows:ident) => {
        rule!($number, $text, None, $shows)
    };
}

/// Rules 1 to 9, which both kinds of document have.
const COMMON: &[DocumentRule] = &[
    rule!(rule::NO_JSON_TEXT, "no JSON text", Nothing),
    rule!(rule::NO_OBJECT, "an object is wanted", Both),
    rule!(rule::MISSING_MEMBER, "a member is missing", Wanted),
    rule!(rule::FURTHER_MEMBER, "a member that is not known", Both),
    rule!(rule::NO_LIST, "a list is wanted", Both),
    rule!(
        rule::WRONG_LENGTH,
        "the list is too short or too long",
        Both
    ),
    rule!(rule::NO_TEXT, "a text is wanted", Both),
    rule!(
        rule::NO_NUMBER_IN_RANGE,
        "a whole number in its range is wanted",
        Both
    ),
    rule!(specification_rule::UNKNOWN_VERSION, "no such version", Both),
];

const SPECIFICATION: &[DocumentRule] = &[
    rule!(specification_rule::NO_NAME, "no name", Both),
    rule!(
        specification_rule::NAME_TWICE,
        "the name is given twice",
        Found
    ),
    rule!(specification_rule::UNKNOWN_KIND, "no such kind", Both),
    rule!(
        specification_rule::UNKNOWN_MODE,
        "the kind has no such mode",
        Both
    ),
    rule!(
        specification_rule::MODE_TWICE,
        "the mode is given twice",
        Found
    ),
    rule!(
        specification_rule::UNKNOWN_PROCESSOR,
        "no such processor",
        Found
    ),
    rule!(
        specification_rule::UNKNOWN_APPLICATION,
        "no such application",
        Found
    ),
    rule!(
        specification_rule::UNKNOWN_CONFIGURATION,
        "no such configuration",
        Found
    ),
    rule!(
        specification_rule::UNKNOWN_FACTOR_OR_VALUE,
        "no such factor, or no such value of it",
        Found
    ),
    rule!(
        specification_rule::UNKNOWN_VARIABLE,
        "the kind has no such variable",
        Both
    ),
    rule!(specification_rule::TWICE_IN_LIST, "given twice", Found),
    rule!(
        specification_rule::CYCLE_OF_NEEDS,
        "the needs have a cycle",
        Nothing
    ),
    rule!(
        specification_rule::MODE_NOT_LISTED,
        "the application does not list this mode",
        Found
    ),
    rule!(
        specification_rule::EMPTY_INTERVAL,
        "least is above greatest",
        Found
    ),
    rule!(
        specification_rule::TOO_LONG,
        "more than",
        Some(MAX_SPECIFICATION_BYTES),
        Nothing
    ),
    rule!(specification_rule::UNKNOWN_POLICY, "no such policy", Both),
];

const SCRIPT: &[DocumentRule] = &[
    rule!(
        script_rule::UNKNOWN_NAME,
        "no such factor, no such value of it, or no such processor",
        Both
    ),
    rule!(
        script_rule::OUT_OF_ORDER,
        "not after the one before it by frame, then factor or processor; or a second halt without restarts",
        Found
    ),
    rule!(
        script_rule::TOO_LONG,
        "more than",
        Some(MAX_SCRIPT_BYTES),
        Nothing
    ),
    rule!(
        script_rule::WRONG_RESTART,
        "not after the restart before it by frame, then processor; or its processor restarts twice, or has no halt two frames before it or earlier",
        Found
    ),
    rule!(
        script_rule::WRONG_HALT,
        "a third halt of a processor, or a second one without a restart up to its frame",
        Found
    ),
];

fn common_rules() -> &'static [DocumentRule]
    ensures { map plain_rule result.now ≡ common_rules }
{
    COMMON
}

fn own_rules(kind: DocumentKind) -> &'static [DocumentRule]
    ensures { map plain_rule result.now ≡ own_rules kind }
{
    match kind {
        DocumentKind::Specification => SPECIFICATION,
        DocumentKind::Script => SCRIPT,
    }
}

fn rule_in(rules: &[DocumentRule], number: u8) -> Option<DocumentRule>
    ensures { option_map plain_rule result ≡ rule_in (map plain_rule rules.now) number }
{
    for rule in rules {
        if rule.number == number {
            return Some(*rule);
        }
    }
    None
}

/// Returns the rule with the number `number` that a document of this kind has, or `None` if there is none.
pub fn broken_rule(kind: DocumentKind, number: u8) -> Option<DocumentRule>
    ensures { option_map plain_rule result ≡ broken_rule kind number }
{
    match rule_in(common_rules(), number) {
        Some(rule) => Some(rule),
        None => rule_in(own_rules(kind), number),
    }
}

/// Appends the text of a rule, followed by its limit if there is one.
///
/// # Errors
///
/// Returns an error if memory runs out.
pub fn add_rule_text(lines: &mut Lines, rule: &DocumentRule) -> Result<(), NoMemory>
    ensures { OnOk result (lines.new ≡ lines.old ++ rule_words (plain_rule rule.now)) }
{
    lines.push(rule.text)?;
    match rule.limit {
        Some(limit) => add_limit(lines, limit),
        None => Ok(()),
    }
}

fn add_limit(lines: &mut Lines, limit: usize) -> Result<(), NoMemory>
    ensures { OnOk result (lines.new ≡ lines.old ++ limit_text limit) }
{
    lines.push(" ")?;
    lines.number(limit)?;
    lines.push(" bytes")
}

impl Shows {
    /// Returns `true` if the expected value is shown.
    pub fn wanted(self) -> bool
        ensures { result ≡ shows_wanted self }
    {
        match self {
            Shows::Wanted => true,
            Shows::Both => true,
            Shows::Nothing => false,
            Shows::Found => false,
        }
    }

    /// Returns `true` if the value that was found is shown.
    pub fn found(self) -> bool
        ensures { result ≡ shows_found self }
    {
        match self {
            Shows::Found => true,
            Shows::Both => true,
            Shows::Nothing => false,
            Shows::Wanted => false,
        }
    }
}
