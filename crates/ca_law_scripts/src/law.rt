ghost use Rattle.ca_law_scripts.specs.Agreement.{LinesAgree};

/// The line that a trace prints of a call, from its consumer on, is cut into the consumer and the words of the verb, and
/// the table of a script's lines reads these as this verb, with no word left. It does nothing when it runs.
pub fn a_verb_of_a_trace_is_a_line_of_a_script()
    ensures { LinesAgree }
{}
