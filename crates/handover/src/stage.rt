ghost use Rattle.std.specs.Prelude.{◌≡◌, find};
ghost use Rattle.std.specs.Str.{bytes_eq};
ghost use Rattle.handover.specs.Table.{forms_at, is_whole, word_of};

use crate::form::Form;

/// Which lines may stand next in an image's text.
#[derive(Clone, Copy)]
pub enum Stage {
    /// The heading.
    Heading,
    /// The line of the counts.
    State,
    /// A line of an ended epoch, or what stands behind all of them.
    Ended,
    /// A line of a released output, or what stands behind all of them.
    Released,
    /// A line of a move.
    Moves,
}

impl Stage {
    /// The forms of the lines that may stand next; `third` says whether the line has a third word.
    fn forms(self, third: bool) -> &'static [Form]
        ensures { result.now ≡ forms_at self third }
    {
        match self {
            Stage::Heading => &[Form::Heading],
            Stage::State => &[Form::State],
            Stage::Ended if third => &[Form::Ended, Form::Released, Form::Told],
            Stage::Ended => &[Form::Ended, Form::Released, Form::Move],
            Stage::Released if third => &[Form::Released, Form::Told],
            Stage::Released => &[Form::Released, Form::Move],
            Stage::Moves if third => &[Form::Told],
            Stage::Moves => &[Form::Move],
        }
    }

    /// The form of the line with this first word, if it may stand next.
    pub fn form_named(self, third: bool, word: &[u8]) -> Option<Form>
        ensures { result ≡ find (λ form. bytes_eq word.now (word_of form)) (forms_at self third) }
    {
        self.forms(third)
            .iter()
            .copied()
            .find(|form| word == form.word())
    }

    /// Whether the text may end here: no line is missing.
    pub fn is_whole(self) -> bool
        ensures { result ≡ is_whole self }
    {
        match self {
            Stage::Heading | Stage::State => false,
            Stage::Ended | Stage::Released | Stage::Moves => true,
        }
    }
}
