ghost use Rattle.std.specs.Prelude.{◌≡◌, ℕ, List, [], ◌∷◌, ◌++◌, Option, Some, true, length};
ghost use Rattle.std.specs.List.{AllByRecursion};
ghost use Rattle.ca_model.specs.Entries.{EntryValue};
ghost use Rattle.ca_trace.specs.Trace.{text};
ghost use Rattle.ca_trace_read_fits.specs.Histories.{HistoryFits};
ghost use Rattle.ca_trace_read.specs.Outside.{BeginsText, is_one_line};
ghost use Rattle.ca_trace_read.specs.Steps.{Over, Reading, before, start};
ghost use Rattle.ca_trace_read.specs.Taken.{AreTaken, IsRefused, IsTaken, lined};
ghost use Rattle.ca_trace_read.specs.Texts.{history_in};

/// One text, one history: two histories that fit and have the same text are equal.
pub fn one_text()
    ensures { (es fs : List EntryValue) → HistoryFits es → HistoryFits fs → text es ≡ text fs → es ≡ fs }
{}

/// The text of a history that fits is read as this history.
pub fn text_is_read()
    ensures { (es : List EntryValue) → HistoryFits es → history_in (text es) ≡ Some es }
{}

/// The lines of the text of a history are taken one behind the other, and show its entries, in order.
pub fn lines_give()
    ensures { (es : List EntryValue) (lines : List (List ℕ)) → HistoryFits es
        → AllByRecursion (λ w. is_one_line w ≡ true) lines → lined lines ≡ text es
        → AreTaken start lines (record { count = length es; stage = Over }) es }
{}

/// Lines that are taken one behind the other, the last one too, are the text of the entries that they show.
pub fn lines_are_text()
    ensures { (lines : List (List ℕ)) (r : Reading) (es : List EntryValue) → AreTaken start lines r es
        → r.stage ≡ Over → HistoryFits es × (lined lines ≡ text es) }
{}

/// A line that is taken behind others is taken with them.
pub fn one_more_line()
    ensures { (lines : List (List ℕ)) (line : List ℕ) (r s : Reading) (es : List EntryValue)
        (shown : Option EntryValue) → AreTaken start lines r es → IsTaken r line s shown
        → AreTaken start (lines ++ line ∷ []) s (es ++ before shown []) }
{}

/// Lines that are taken one behind the other begin the text of a history.
pub fn taken_lines_begin()
    ensures { (lines : List (List ℕ)) (r : Reading) (es : List EntryValue) → AreTaken start lines r es
        → BeginsText (lined lines) }
{}

/// With a line that is refused behind them they begin none.
pub fn refused_line_begins_none()
    ensures { (lines : List (List ℕ)) (line : List ℕ) (r : Reading) (es : List EntryValue)
        → AreTaken start lines r es → is_one_line line ≡ true → IsRefused r line
        → BeginsText (lined lines ++ (line ++ 10 ∷ [])) → ⊥ }
{}
