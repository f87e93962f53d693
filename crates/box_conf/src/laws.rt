//! The laws of box files. Each is proved, and does nothing: a caller has it by the call.
ghost use Rattle.std.specs.Prelude.{◌≡◌, ◌↔◌, ℕ, List, Ok, Err, IfSome};
ghost use Rattle.plain_text.specs.declared.fault.LineCause.{LineCause};
ghost use Rattle.plain_text.specs.declared.fault.LineFault.{LineFault};
ghost use Rattle.plain_text.specs.Lines.{counted_lines};
ghost use Rattle.sha2.specs.Sha256.{sha256};
ghost use Rattle.box_conf.specs.declared.kind.BoxConf.{BoxConf};
ghost use Rattle.box_conf.specs.declared.kind.BoxKind.{BoxKind};
ghost use Rattle.box_conf.specs.BoxFile.{IsBoxFile, FirstFault};
ghost use Rattle.box_conf.specs.Reading.{box_of};
ghost use Rattle.box_conf.specs.Stated.{AreSettings, AreInside, MeansSettings};

/// A text is the file of one box, or it has one first fault: exactly one of the two. The reader finds which.
pub fn a_text_is_one_box_file_or_has_a_fault()
    ensures one_box { (text : List ℕ) (a b : BoxConf)
        → IsBoxFile text a → IsBoxFile text b → a ≡ b }
    ensures one_fault { (text : List ℕ) (x y : ℕ) (a b : LineCause)
        → FirstFault text x a → FirstFault text y b → (x ≡ y) × (a ≡ b) }
    ensures not_both { (text : List ℕ) (conf : BoxConf) (number : ℕ) (cause : LineCause)
        → IsBoxFile text conf → FirstFault text number cause → ⊥ }
    ensures read { (text : List ℕ) (conf : BoxConf)
        → IsBoxFile text conf ↔ (box_of text ≡ Ok conf) }
    ensures faulty { (text : List ℕ) (fault : LineFault)
        → FirstFault text fault.line fault.cause ↔ (box_of text ≡ Err fault) }
{}

/// Each line of a box file is a setting of the box that is made, in the words of the line: `limit 3` of a NAT is its
/// limit of 3, and where no such line stands it has none. Static ports and backends are those of the lines, in their
/// order. The meaning of the box, of which all commands speak, is that of its kind with these settings.
///
/// The static ports of a NAT are of its inside network, so no packet of such a host is a stray by its source. Where the
/// line `seal` stands, and there alone, the box has the SHA-256 of the bytes of its file.
pub fn lines_are_settings()
    ensures settings { (text : List ℕ) (conf : BoxConf)
        → IsBoxFile text conf → AreSettings (counted_lines text) conf }
    ensures sealed { (text : List ℕ) (conf : BoxConf)
        → IsBoxFile text conf → IfSome conf.seal (λ seal. seal ≡ sha256 text) }
    ensures meaning { (kind : BoxKind) → MeansSettings kind }
    ensures inside { (text : List ℕ) (conf : BoxConf)
        → IsBoxFile text conf → AreInside conf.kind }
{}
