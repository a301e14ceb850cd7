//! Laws on how serving ends.

ghost use Rattle.std.specs.Prelude.{◌≡◌, ◌≤◌, ℕ, true, List, length, Result, Ok};
ghost use Rattle.std.specs.declared.option.Option.{Option};
ghost use Rattle.std.specs.Io.KnownBytes.{IsAtEnd};
ghost use Rattle.dc_rules.specs.declared.config.Config.{Config};
ghost use Rattle.dc_config.specs.declared.error.ConfigError.{ConfigError};
ghost use Rattle.dc_status.specs.Faults.{fault_of, files_well, source_well, world_well};
ghost use Rattle.dc_status.specs.declared.status.Status.{Status};
ghost use Rattle.dc_serving.specs.Serving.{Refused, FitsConf, IsFault};

/// Where the configuration is defined and the source has a whole seed, nothing but a fault or want of memory keeps events from being
/// served.
pub fn only_faults_prevent_serving()
    ensures { (status : Status) (conf : Result Config ConfigError) (c : Config) (taken : List ℕ) (left : Option (List ℕ)) → conf ≡ Ok c → (IsAtEnd left → 32 ≤ length taken)
        → FitsConf status conf → Refused status taken left → IsFault status }
{}

/// So where no call failed either, nothing but want of memory does: with memory there is a core.
pub fn only_memory_prevents_serving()
    ensures { (status : Status) (conf : Result Config ConfigError) (c : Config) (taken : List ℕ) (left : Option (List ℕ)) → conf ≡ Ok c → (IsAtEnd left → 32 ≤ length taken)
        → FitsConf status conf → Refused status taken left
        → files_well (fault_of status) ≡ true → source_well (fault_of status) ≡ true → world_well (fault_of status) ≡ true → status ≡ Status.NoMemory }
{}
