//! Laws of tables of rows. Each is proved, and does nothing: a caller has it by the call.
ghost use Rattle.std.specs.Prelude.{◌≡◌, ◌↔◌, ℕ, List, None};
ghost use Rattle.plain_text.specs.declared.fault.LineCause.{LineCause};
ghost use Rattle.plain_text.specs.Grammar.{Row, LineSays, line_fault, AreLines, FirstToLeave};
ghost use Rattle.plain_text.specs.Grammar.{AllStand, FirstOfFile};
ghost use Rattle.plain_text.specs.Lines.{counted_lines};

/// A line has a fault of its own, or is one of a row, with its values: one of the two. It is one row's, with one list
/// of values.
pub fn a_line_is_one_thing()
    ensures says { (rows : List Row) (words : List (List ℕ)) (row : Row) (values : List ℕ)
        → LineSays rows words row values → line_fault rows words ≡ None }
    ensures faulty { (rows : List Row) (words : List (List ℕ)) → line_fault rows words ≡ None
        → (row : Row) × (values : List ℕ) × LineSays rows words row values }
    ensures one { (rows : List Row) (words : List (List ℕ)) (a b : Row) (ns ms : List ℕ)
        → LineSays rows words a ns → LineSays rows words b ms → (a ≡ b) × (ns ≡ ms) }
{}

/// The counted lines of a text are all of a table, or have a first that leaves it, for one cause: not both. A file of
/// which all lines are of the table, and where none is missing, has no fault; and each other has one at most.
pub fn a_text_has_one_first_fault()
    ensures not_both { (rows : List Row) (text : List ℕ) (number : ℕ) (cause : LineCause)
        → AreLines rows (counted_lines text)
        → FirstToLeave rows (counted_lines text) number cause → ⊥ }
    ensures one { (rows : List Row) (text : List ℕ) (x y : ℕ) (a b : LineCause)
        → FirstToLeave rows (counted_lines text) x a
        → FirstToLeave rows (counted_lines text) y b → (x ≡ y) × (a ≡ b) }
    ensures whole { (rows : List Row) (text : List ℕ) (count number : ℕ) (cause : LineCause)
        → AreLines rows (counted_lines text) → AllStand rows (counted_lines text)
        → FirstOfFile rows (counted_lines text) count number cause → ⊥ }
    ensures one_of_file { (rows : List Row) (text : List ℕ) (count x y : ℕ) (a b : LineCause)
        → FirstOfFile rows (counted_lines text) count x a
        → FirstOfFile rows (counted_lines text) count y b → (x ≡ y) × (a ≡ b) }
{}
