//! Laws of the commands. Each is proved, and does nothing: a caller has it by the call.
ghost use Rattle.std.specs.Prelude.{◌≡◌, ◌≤◌, ◌↔◌, ℕ, All, Bool, List, IsTrue, Some, Err, length};
ghost use Rattle.plain_text.specs.Octets.{IsOfBytes};
ghost use Rattle.plain_text.specs.declared.packet.Packet.{Packet};
ghost use Rattle.plain_text.specs.declared.limit.TheConstants.{MOST_FILE_BYTES, MOST_PACKETS};
ghost use Rattle.plain_text.specs.declared.packet.Unit.TheVariants.{Nano};
ghost use Rattle.pcap_io.specs.Capture.{written};
ghost use Rattle.pcapng_io.specs.Capture.{IsNg};
ghost use Rattle.monitor_box.specs.FlowStanding.{HaveBytes};
ghost use Rattle.recovery_world.specs.World.{Setting, all_inputs};
ghost use Rattle.world_io.specs.World.{Shown};
ghost use Rattle.input_files.specs.declared.capture_file.Capture.{Capture};
ghost use Rattle.input_files.specs.Judging.{AcceptsCapture};
ghost use Rattle.job_commands.specs.declared.status.Status.{Status};
ghost use Rattle.job_commands.specs.Judging.{Judges, IsDecided};
ghost use Rattle.job_commands.specs.Chain.{JudgesChainInputs, SaysOfChainFiles};
ghost use Rattle.job_commands.specs.ChainWords.{ChainNames};
ghost use Rattle.job_commands.specs.HandWords.{ResumeNames};
ghost use Rattle.job_commands.specs.Resume.{JudgesResumeInputs, SaysOfResumeFiles};
ghost use Rattle.job_commands.specs.Live.{JudgesLiveInputs, SaysOfFiles};
ghost use Rattle.job_commands.specs.Schedules.{JudgesCheck, JudgesPlay};
ghost use Rattle.run_writes.specs.Run.{HasRun};
ghost use Rattle.job_commands.specs.declared.inputs.Inputs.{Inputs};
ghost use Rattle.job_commands.specs.Checked.{AreWithinLimits, StillStand, checked};
ghost use Rattle.job_commands.specs.Run.{AcceptsInputs, RunsWhole, outputs_of, setting_for};
ghost use Rattle.job_commands.specs.SameBytes.{HaveSameInputs, LeaveSameBytes};
ghost use Rattle.job_commands.specs.Words.{CheckNames, LiveNames, PlayNames, RunNames};

/// The input files decide the status: of those that they decide at most one is true of them. So each comes exactly
/// where it is true, unless memory runs out or, in a world that is not healthy, reading or writing fails.
pub fn one_verdict()
    ensures run { (healthy : Bool) (names : RunNames) (s r : Status) (shown : Shown)
        → IsDecided (IsTrue healthy) s → IsDecided (IsTrue healthy) r
        → Judges (IsTrue healthy) names s shown → Judges (IsTrue healthy) names r shown → s ≡ r }
    ensures play { (healthy : Bool) (names : PlayNames) (s r : Status) (shown : Shown)
        → IsDecided (IsTrue healthy) s → IsDecided (IsTrue healthy) r
        → JudgesPlay (IsTrue healthy) names s shown
        → JudgesPlay (IsTrue healthy) names r shown → s ≡ r }
    ensures check { (healthy : Bool) (names : CheckNames) (s r : Status) (shown : Shown)
        → IsDecided (IsTrue healthy) s → IsDecided (IsTrue healthy) r
        → JudgesCheck (IsTrue healthy) names s shown
        → JudgesCheck (IsTrue healthy) names r shown → s ≡ r }
{}

/// A status with which reading the inputs of `live`, `chain` or `resume` ends says of the files which is the first that
/// is not accepted, and why; and of those statuses that they decide at most one is true of them. Those of `hand` are
/// the inputs of a run.
pub fn what_refused_inputs_say()
    ensures says { (healthy : Bool) (names : LiveNames) (s : Status) (shown : Shown)
        → JudgesLiveInputs (IsTrue healthy) names (Err s) shown
        → SaysOfFiles (IsTrue healthy) names s shown }
    ensures one { (healthy : Bool) (names : LiveNames) (s r : Status) (shown : Shown)
        → IsDecided (IsTrue healthy) s → IsDecided (IsTrue healthy) r
        → JudgesLiveInputs (IsTrue healthy) names (Err s) shown
        → JudgesLiveInputs (IsTrue healthy) names (Err r) shown → s ≡ r }
    ensures chain_says { (healthy : Bool) (names : ChainNames) (s : Status) (shown : Shown)
        → JudgesChainInputs (IsTrue healthy) names (Err s) shown
        → SaysOfChainFiles (IsTrue healthy) names s shown }
    ensures chain_one { (healthy : Bool) (names : ChainNames) (s r : Status) (shown : Shown)
        → IsDecided (IsTrue healthy) s → IsDecided (IsTrue healthy) r
        → JudgesChainInputs (IsTrue healthy) names (Err s) shown
        → JudgesChainInputs (IsTrue healthy) names (Err r) shown → s ≡ r }
    ensures resume_says { (healthy : Bool) (names : ResumeNames) (s : Status) (shown : Shown)
        → JudgesResumeInputs (IsTrue healthy) names (λ source events other. ⊥) s shown
        → SaysOfResumeFiles (IsTrue healthy) names s shown }
    ensures resume_one { (healthy : Bool) (names : ResumeNames) (s r : Status) (shown : Shown)
        → IsDecided (IsTrue healthy) s → IsDecided (IsTrue healthy) r
        → JudgesResumeInputs (IsTrue healthy) names (λ source events other. ⊥) s shown
        → JudgesResumeInputs (IsTrue healthy) names (λ source events other. ⊥) r shown → s ≡ r }
{}

/// What `run` leaves is accepted by `check`, with the same box and the same capture: the check of the schedule and the
/// released capture is done, and no other status that the files decide is true of it. This is so for each script that
/// leaves something by the definitions, whatever crashes and is lost in it. The files stand as the run found and left
/// them. The schedule and the released capture are within the limits of files that are read, 67,108,864 bytes each,
/// 4,000,000 lines and 65,536 packets: a run may leave larger ones.
pub fn what_run_leaves_is_accepted()
    ensures done { (healthy : Bool) (names : RunNames) (inputs : Inputs) (old new later : Shown)
        → AcceptsInputs names inputs old
        → (ran : HasRun (setting_for inputs) (outputs_of names) inputs.events old new)
        → AreWithinLimits inputs.capture.unit ran.released ran.schedule
        → StillStand names old new later
        → JudgesCheck (IsTrue healthy) (checked names) Status.Done later }
    ensures only { (healthy : Bool) (names : RunNames) (inputs : Inputs) (old new later : Shown)
        → AcceptsInputs names inputs old
        → (ran : HasRun (setting_for inputs) (outputs_of names) inputs.events old new)
        → AreWithinLimits inputs.capture.unit ran.released ran.schedule
        → StillStand names old new later → (s : Status) → IsDecided (IsTrue healthy) s
        → JudgesCheck (IsTrue healthy) (checked names) s later → s ≡ Status.Done }
{}

/// A pcapng capture is accepted as the savefile of its packets in nanoseconds is, where neither passes a limit: as one
/// and the same capture. The clauses of the top call speak of an accepted capture by this alone, so its answers and
/// files are the same for both.
pub fn pcapng_captures_are_savefiles()
    ensures { (name bytes : List ℕ) (packets : List Packet) (shown other : Shown)
        (capture : Capture) → IsNg bytes packets → length packets ≤ MOST_PACKETS
        → length bytes ≤ MOST_FILE_BYTES → length (written Nano packets) ≤ MOST_FILE_BYTES
        → shown.names name ≡ Some bytes → other.names name ≡ Some (written Nano packets)
        → AcceptsCapture name capture shown ↔ AcceptsCapture name capture other }
{}

/// Where each packet of a capture is of bytes, as of one that was accepted, so is each input of each thread: what the
/// laws of the monitor's runs ask for.
pub fn inputs_are_of_bytes<X>()
    ensures { (s : Setting X) → All IsOfBytes s.packets → HaveBytes (all_inputs s) }
{}

/// What `run` leaves is a function of the bytes of its input files: two runs that are done on the same bytes of box,
/// capture and script, under whatever names and in whatever worlds, leave the same bytes of RELEASED and SCHEDULE and
/// add the same bytes to the report.
pub fn runs_on_the_same_bytes_leave_the_same()
    ensures { (names other : RunNames) (old new before after : Shown)
        → HaveSameInputs names other old before → RunsWhole names old new
        → RunsWhole other before after → LeaveSameBytes names other old new before after }
{}
