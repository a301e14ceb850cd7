//! Laws on how a replay ends.

ghost use Rattle.std.specs.Prelude.{◌≡◌, ◌<◌, ◌⊎◌, ◌++◌, ℕ, true, List, length, None, Some, All};
ghost use Rattle.std.specs.List.{AllByRecursion};
ghost use Rattle.dc_model.specs.Event.{Event, IsEvent};
ghost use Rattle.dc_rules.specs.declared.config.Config.{Config};
ghost use Rattle.dc_script.specs.Head.{Head, head_of, script_said};
ghost use Rattle.dc_script.specs.HeadText.{IsTold};
ghost use Rattle.dc_script.specs.Read.{end_text};
ghost use Rattle.dc_script.specs.Text.{text_of};
ghost use Rattle.dc_record.specs.HeadOf.{told_of};
ghost use Rattle.dc_record.specs.Recorded.{lines_of, HasOctets};
ghost use Rattle.dc_serving.specs.Runs.{machine_run};
ghost use Rattle.dc_recording.specs.Rooted.{rooted};
ghost use Rattle.dc_recording.specs.Recording.{head_lines};
ghost use Rattle.dc_status.specs.Faults.{fault_of, source_well, sink_well};
ghost use Rattle.dc_status.specs.declared.status.Status.{Status};
ghost use Rattle.dc_commands.specs.Replay.{Outcome, Keeps, outcome};

/// A whole script, of a head and of fewer events than are allowed, comes to Done.
pub fn whole_scripts_come_to_done()
    ensures { (text : List ℕ) (h : Head) (events : List Event) (limit : ℕ) → script_said text ≡ record { head = Some h; said = record { events = events; bad = None } }
        → length events < limit → (outcome limit (head_of text)).status ≡ Status.Done }
{}

/// Where a script comes to Done and neither a read nor a write failed, its replay is Done, or there wasn't memory enough.
pub fn only_faults_prevent_done()
    ensures { (promised : Outcome) (whole : List ℕ) (text : List ℕ) (status : Status) → promised.status ≡ Status.Done → Keeps promised whole text status
        → source_well (fault_of status) ≡ true → sink_well (fault_of status) ≡ true → (status ≡ Status.Done) ⊎ (status ≡ Status.NoMemory) }
{}

/// What a service recorded, with the line `end` behind it, comes to Done with the text of exactly what was done while it was served, where
/// fewer events were than are allowed.
pub fn recorded_runs_come_to_done()
    ensures { (c : Config) (seed : List ℕ) (events : List Event) (limit : ℕ) → IsTold (told_of (rooted c) seed) (rooted c).permit (rooted c).zones → All IsEvent events
        → AllByRecursion HasOctets events → length events < limit
        → outcome limit (head_of ((head_lines c seed ++ lines_of events) ++ end_text)) ≡ record { status = Status.Done; text = text_of (machine_run (rooted c) seed events) } }
{}
