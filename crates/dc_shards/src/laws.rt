//! What cores that share the events are, the resolver's machine over several cores; and what keeps them from being served.

ghost use Rattle.std.specs.Prelude.{ℕ, ◌≡◌, ◌↔◌, ◌≤◌, List, length, None, Some, Result, Ok};
ghost use Rattle.std.specs.declared.option.Option.{Option};
ghost use Rattle.std.specs.Io.KnownBytes.{IsAtEnd};
ghost use Rattle.dc_model.specs.Event.{Event};
ghost use Rattle.dc_model.specs.Rules.{Rules};
ghost use Rattle.dc_engine.specs.Automaton.{state_after, actions_of};
ghost use Rattle.dc_rules.specs.declared.config.Config.{Config};
ghost use Rattle.dc_config.specs.Environment.{Environment};
ghost use Rattle.dc_config.specs.Modes.{bad_split};
ghost use Rattle.dc_config.specs.declared.error.Variable.{Variable};
ghost use Rattle.dc_config.specs.declared.error.ConfigError.{ConfigError};
ghost use Rattle.dc_core.specs.Running.{Running, core_machine};
ghost use Rattle.dc_serving.specs.Serving.{Refused, IsFault};
ghost use Rattle.dc_status.specs.declared.status.Status.{Status};
ghost use Rattle.dc_split.specs.Split.{split};
ghost use Rattle.dc_split.specs.Resolver.{resolver};
ghost use Rattle.dc_shards.specs.Cores.{HaveRules, machines};
ghost use Rattle.dc_shards.specs.Serving.{FitsSplit};

/// Cores that go by the same rules come, with the events that they share, to the states of the resolver's machine over several cores, and do
/// what it does.
pub fn split_core_is_resolver()
    ensures states { (rules : Rules) (words : ℕ → List ℕ) (n : ℕ) (cores : List Running) (events : List Event) → HaveRules rules cores
        → machines (state_after (split core_machine) words n cores events) ≡ state_after (split (resolver rules)) words n (machines cores) events }
    ensures actions { (rules : Rules) (words : ℕ → List ℕ) (n : ℕ) (cores : List Running) (events : List Event) → HaveRules rules cores
        → actions_of (split core_machine) words n cores events ≡ actions_of (split (resolver rules)) words n (machines cores) events }
{}

/// Where CORES is a number from 1 to 8, the configuration is defined and the source has a whole seed, nothing but a fault or want of memory
/// keeps events from being served.
pub fn only_faults_prevent_splitting()
    ensures { (env : Environment) (status : Status) (conf : Result Config ConfigError) (c : Config) (taken : List ℕ) (left : Option (List ℕ))
        → bad_split env ≡ None → conf ≡ Ok c → (IsAtEnd left → 32 ≤ length taken)
        → ((v : Variable) → (status ≡ Status.BadVariable v) ↔ (bad_split env ≡ Some v)) → FitsSplit status conf → Refused status taken left → IsFault status }
{}
