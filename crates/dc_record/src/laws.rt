//! Laws on what is recorded.
ghost use Rattle.std.specs.Prelude.{◌≡◌, ℕ, List, ◌++◌, map, Some, None, All};
ghost use Rattle.std.specs.List.{AllByRecursion};
ghost use Rattle.dc_model.specs.Event.{Event, IsEvent};
ghost use Rattle.dc_rules.specs.declared.config.Config.{Config};
ghost use Rattle.dc_model.specs.Rules.{Permits, Zones};
ghost use Rattle.dc_script.specs.Head.{behind, head_of as head_read, script_said};
ghost use Rattle.dc_script.specs.HeadText.{HeadTold, IsTold, head_text, head_told, lines_of_head};
ghost use Rattle.dc_script.specs.Script.{pieces_of};
ghost use Rattle.dc_script.specs.Read.{end_text};
ghost use Rattle.dc_record.specs.HeadOf.{told_of, head_of};
ghost use Rattle.dc_record.specs.Plain.{plain};
ghost use Rattle.dc_record.specs.Recorded.{lines_of, HasOctets};

/// The lines that a recorded world writes of events, behind the lines of a head and with the line `end` behind them, are a whole script of
/// that head and exactly those events, each without what its kind doesn't have.
pub fn recorded_events_read_back()
    ensures { (h : HeadTold) (permits : Permits) (zones : Zones) (es : List Event) → IsTold h permits zones → All IsEvent es → AllByRecursion HasOctets es
        → script_said (head_text h (lines_of es ++ end_text)) ≡ record { head = Some (head_told h permits zones); said = record { events = map plain es; bad = None } } }
{}

/// The lines of the head of a configuration and a seed, where they can be said, are read as that configuration and that seed, whatever follows:
/// the cache's size is brought into its bounds, and the two addresses are 0.0.0.0, since a script says none.
pub fn head_of_a_configuration_reads_back()
    ensures { (c : Config) (seed : List ℕ) → IsTold (told_of c seed) c.permit c.zones → (tail : List ℕ)
        → head_read (head_text (told_of c seed) tail) ≡ behind (head_of c seed) (lines_of_head (told_of c seed)) (pieces_of tail) }
{}
