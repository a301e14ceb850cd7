//! Laws on recorded runs.
ghost use Rattle.std.specs.Prelude.{◌≡◌, ◌<◌, ◌≤◌, ◌++◌, ℕ, true, List, length, map, Ok, None, Some, All};
ghost use Rattle.std.specs.List.{AllByRecursion};
ghost use Rattle.std.specs.declared.option.Option.{Option};
ghost use Rattle.std.specs.Io.KnownBytes.{IsAtEnd};
ghost use Rattle.dc_model.specs.Event.{Event, IsEvent};
ghost use Rattle.dc_model.specs.Name.{Name};
ghost use Rattle.dc_model.specs.Rules.{servers};
ghost use Rattle.dc_event.specs.History.{actions_in};
ghost use Rattle.dc_rules.specs.declared.config.Config.{Config};
ghost use Rattle.dc_config.specs.Environment.{Environment};
ghost use Rattle.dc_config.specs.Tree.{Tree};
ghost use Rattle.dc_config.specs.Conf.{conf_of};
ghost use Rattle.dc_config.specs.Modes.{bad_recorded};
ghost use Rattle.dc_play.specs.Playing.{outcome_of};
ghost use Rattle.dc_play.specs.declared.played.Played.{Played};
ghost use Rattle.dc_script.specs.Head.{script_said};
ghost use Rattle.dc_script.specs.Read.{end_text};
ghost use Rattle.dc_script.specs.Text.{text_of};
ghost use Rattle.dc_record.specs.HeadOf.{told_of, head_of, scripted};
ghost use Rattle.dc_record.specs.Plain.{plain};
ghost use Rattle.dc_record.specs.Recorded.{lines_of, HasOctets};
ghost use Rattle.dc_script.specs.HeadText.{IsTold};
ghost use Rattle.dc_serving.specs.Runs.{machine_run};
ghost use Rattle.dc_serving.specs.Serving.{IsConfigured, session_passes};
ghost use Rattle.dc_status.specs.Faults.{fault_of, files_well, source_well, sink_well, world_well};
ghost use Rattle.dc_status.specs.declared.status.Status.{Status};
ghost use Rattle.dc_recording.specs.Rooted.{rooted, IsSaid};
ghost use Rattle.dc_recording.specs.Recording.{head_lines, FitsRecorded, Unserved, IsFaultOf};

use dc_event::{Sink, World};

/// Each name has the servers that it had, where the root's zone is put before all others.
pub fn names_keep_their_servers()
    ensures { (c : Config) (n : Name) → servers (rooted c).zones n ≡ servers c.zones n }
{}

/// What the machine does at events is what it does at them without what their kinds don't have.
pub fn plain_events_do_the_same()
    ensures { (c : Config) (seed : List ℕ) (events : List Event) → machine_run c seed (map plain events) ≡ machine_run c seed events }
{}

/// What is done while events are served is what the machine does.
pub fn sessions_do_what_the_machine_does()
    ensures { (c : Config) (seed : List ℕ) (events : List Event) (status : Status) → actions_in (session_passes c seed events status) ≡ machine_run c seed events }
{}

/// What was recorded, with the line `end` behind it, is a script of the configuration, the seed and exactly the events that were served; and
/// playing that script, where fewer events are in it than are allowed, is done with the text of what was done while they were served.
pub fn recorded_runs_replay()
    ensures script { (c : Config) (seed : List ℕ) (events : List Event) → IsTold (told_of (rooted c) seed) (rooted c).permit (rooted c).zones → All IsEvent events → AllByRecursion HasOctets events
        → script_said ((head_lines c seed ++ lines_of events) ++ end_text) ≡ record { head = Some (head_of (rooted c) seed); said = record { events = map plain events; bad = None } } }
    ensures outcome { (c : Config) (seed : List ℕ) (events : List Event) (limit : ℕ) → length events < limit
        → outcome_of (machine_run (scripted (rooted c)) seed) limit (record { events = map plain events; bad = None }) ≡ record { answer = Played.Done; text = text_of (machine_run (rooted c) seed events) } }
{}

/// Where no variable is bad, the configuration is defined and its zones can be said, and the source has a whole seed, nothing but a fault or
/// want of memory keeps events from being served.
pub fn only_faults_prevent_recording<W: World, K: Sink>()
    ensures { (old new : W) (sink later : K) (env : Environment) (t : Tree) (c : Config) (taken : List ℕ) (left : Option (List ℕ)) (status : Status)
        → bad_recorded env ≡ None → conf_of env t ≡ Ok c → IsSaid c → (IsAtEnd left → 32 ≤ length taken)
        → FitsRecorded status (conf_of env t) → Unserved W.history K.gained old new sink later (IsConfigured env (Some t)) (bad_recorded env) taken left status → IsFaultOf status }
{}

/// So where no call failed either, nothing but want of memory does.
pub fn only_memory_prevents_recording<W: World, K: Sink>()
    ensures { (old new : W) (sink later : K) (env : Environment) (t : Tree) (c : Config) (taken : List ℕ) (left : Option (List ℕ)) (status : Status)
        → bad_recorded env ≡ None → conf_of env t ≡ Ok c → IsSaid c → (IsAtEnd left → 32 ≤ length taken)
        → FitsRecorded status (conf_of env t) → Unserved W.history K.gained old new sink later (IsConfigured env (Some t)) (bad_recorded env) taken left status
        → files_well (fault_of status) ≡ true → source_well (fault_of status) ≡ true → sink_well (fault_of status) ≡ true → world_well (fault_of status) ≡ true
        → status ≡ Status.NoMemory }
{}
