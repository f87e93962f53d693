//! Laws of the picture. Each is proved, and does nothing: a caller has it by the call.
ghost use Rattle.std.specs.Prelude.{◌≡◌, ◌≤◌, ◌<◌, ◌++◌, ◌∷◌, [], ℕ, All, List, Some, false};
ghost use Rattle.std.specs.Prelude.{length, map, sum};
ghost use Rattle.std.specs.List.{flat_map};
ghost use Rattle.std.specs.List.Sorted.{IsNonDecreasing};
ghost use Rattle.svg_text.specs.declared.drawing.Element as element_of;
ghost use Rattle.run_drawing.specs.Overview.{most_from, points_from};
ghost use Rattle.run_drawing.specs.Slices.{moves_in, moves_of, slices_of};
ghost use Rattle.run_drawing.specs.Picture.{at_first, events_from, is_small, wide_of};
ghost use Rattle.run_drawing.specs.Promises.{happened, is_move, is_move_or_release, is_released};
ghost use Rattle.run_drawing.specs.Promises.{move_titles, places, reach, release_titles};
ghost use Rattle.run_drawing.specs.Promises.{titles_where};
ghost use Rattle.run_drawing.specs.Promises.{end_of, last_count, line_places, note_count};
ghost use Rattle.run_drawing.specs.Promises.{spot_at, time_until};
ghost use Rattle.run_drawing.specs.Scales.{upwards};
ghost use Rattle.run_drawing.specs.TimeChart.{came, overview, steps_of, time_curves};
ghost use Rattle.run_drawing.specs.declared.note.Note as note_of;
ghost use Rattle.run_drawing.specs.declared.samples.Count as count_of;
ghost use Rattle.run_drawing.specs.declared.samples.Count.TheVariants as count;

/// The marks in the lanes are, in order, those of all moves that were made, each once.
pub fn every_move_has_one_mark()
    ensures { (threads : ℕ) (notes : List note_of.Note)
        → titles_where is_move (events_from threads at_first notes) ≡ flat_map move_titles notes }
{}

/// The full marks are, in order, those of all outputs that were released, each once and with its number.
pub fn every_released_output_has_one_full_mark()
    ensures { (threads : ℕ) (notes : List note_of.Note)
        → titles_where is_released (events_from threads at_first notes) ≡ release_titles 0 notes }
{}

/// Time goes to the right: moves and releases are drawn in the order in which they happened, an output after all moves of
/// the event that released it, and nothing but an arrow stands further left than what was drawn before it. So the x of a
/// release is at least that of its `send`.
pub fn no_release_stands_left_of_its_send()
    ensures order { (threads : ℕ) (notes : List note_of.Note)
        → titles_where is_move_or_release (events_from threads at_first notes)
        ≡ happened 0 notes }
    ensures to_the_right { (threads : ℕ) (notes : List note_of.Note)
        → IsNonDecreasing (places (events_from threads at_first notes)) }
{}

/// An overview is 1300 wide, however long the run is, and nothing in it reaches further to the right.
pub fn an_overview_is_1300_wide()
    ensures width { (notes : List note_of.Note) → is_small notes ≡ false → wide_of notes ≡ 1300 }
    ensures within { (threads : ℕ) (times : List ℕ) (notes : List note_of.Note) → threads < 1000
        → All (λ (e : element_of.Element). reach e.shape ≤ 1300) (overview threads times notes) }
{}

/// An overview has at most 50 slices, and the moves of a thread in all of them are all that are noted of it.
pub fn slices_have_all_moves()
    ensures few { (thread : ℕ) (notes : List note_of.Note) → length (slices_of thread notes) ≤ 50 }
    ensures all { (thread : ℕ) (notes : List note_of.Note)
        → sum (moves_in (slices_of thread notes)) ≡ moves_of thread notes }
{}

/// Time goes to the right: no curve of a chart by time goes left.
pub fn a_chart_by_time_goes_right()
    ensures { (times : List ℕ) (notes : List note_of.Note)
        → All (λ (e : element_of.Element). IsNonDecreasing (line_places e.shape))
        (time_curves times notes) }
{}

/// The curves of a chart by time end with all packets that came in, and with the outputs that were released and that wait
/// after the last event.
pub fn a_chart_by_time_has_all_counts()
    ensures { (times : List ℕ) (notes : List note_of.Note)
        → map (λ (e : element_of.Element). end_of e.shape) (time_curves times notes)
        ≡ Some (upwards (most_from 0 notes) (length (came times notes)))
        ∷ Some (upwards (most_from 0 notes) (last_count count.Left 0 notes))
        ∷ Some (upwards (most_from 0 notes) (last_count count.Held 0 notes)) ∷ [] }
{}

/// A curve of a chart by time stands at the count before an event until the time of the last packet that came in with it,
/// and from there on at the count after it. So no output is shown released before the packets of its event came in.
pub fn no_count_changes_before_its_event()
    ensures { (c : count_of.Count) (span : ℕ) (most : ℕ) (times : List ℕ) (earlier : List note_of.Note)
        (n : note_of.Note) → points_from c span most (steps_of times (earlier ++ n ∷ []))
        ≡ points_from c span most (steps_of times earlier)
        ++ spot_at span most (time_until times 0 (earlier ++ n ∷ [])) (last_count c 0 earlier)
        ∷ spot_at span most (time_until times 0 (earlier ++ n ∷ [])) (note_count c n) ∷ [] }
{}
