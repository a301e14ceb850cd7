//! What one call of `serve` is of a filter.
ghost use Rattle.std.specs.Prelude.{ℕ, List};
ghost use Rattle.dc_model.specs.Event.{Event};
ghost use Rattle.dc_engine.specs.Automaton.{GoesOn};
ghost use Rattle.dc_lookup.specs.Laws.{IsSettled};
ghost use Rattle.dc_filter.specs.Serving.{IsServed};
ghost use Rattle.dc_filter.specs.Sifter.{Sifter, filter_with, sifter_machine};

/// While the front of a settled filter isn't done, its events are those of the engine, and behind the last of them lines are read and
/// written.
pub fn serving_is_filtering()
    ensures { (words : ℕ → List ℕ) (n : ℕ) (s : Sifter) (written : List ℕ) (unread : List (List ℕ)) (es : List Event)
        → IsSettled (filter_with s written unread) → GoesOn sifter_machine words n s es → IsServed words n s written unread es }
{}
