//! Laws on the reading of a trace. The contract of each function is a law.

ghost use Rattle.trace_text.specs.Flights.{PrintedIsRead};
ghost use Rattle.trace_text.specs.LineRules.{LeastRuleIsReported};

/// States that reading a line reports the first rule that the line breaks, and succeeds if the line breaks no rule.
/// Each rule is stated separately for each form of line, independently of the order of tests.
pub fn least_rule_is_reported()
    ensures { LeastRuleIsReported }
{}

/// States that reading the printed text of a flight returns the flight's rows and reconfigurations. The text is never
/// too long, since a row and its applications have at most 1,520 bytes, and a reconfiguration at most 100.
pub fn printed_is_read()
    ensures { PrintedIsRead }
{}
