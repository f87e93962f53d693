//! Laws of pictures. Each is proved, and does nothing: a caller has it by the call.
ghost use Rattle.std.specs.Prelude.{ℕ, List};
ghost use Rattle.svg_text.specs.Drawing.{drawing_text, escaped};
ghost use Rattle.svg_text.specs.WellFormed.{IsText, IsWellFormed, is_in_content, is_in_value};
ghost use Rattle.svg_text.specs.declared.drawing.Drawing.{Drawing as Picture};

/// The text of every picture is well-formed, whatever its texts are.
pub fn drawings_are_well_formed()
    ensures { (picture : Picture) → IsWellFormed (drawing_text picture) }
{}

/// A text of a picture stays text: it begins and ends no tag, wherever it stands.
pub fn texts_stay_texts()
    ensures in_content { (text : List ℕ) → IsText is_in_content (escaped text) }
    ensures in_value { (text : List ℕ) → IsText is_in_value (escaped text) }
{}
