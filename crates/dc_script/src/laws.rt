//! Laws: what a recorded world tells, that scripts read back, and what may move to another thread.
ghost use Rattle.std.specs.Prelude.{◌≡◌, ℕ, ◌+◌, List, [], ◌∷◌, take, Some, None, false};
ghost use Rattle.std.specs.List.{AllByRecursion};
ghost use Rattle.dc_model.specs.Event.{Event};
ghost use Rattle.dc_model.specs.Rules.{Permits, Zones};
ghost use Rattle.dc_event.specs.History.{Exchange, events_in, actions_in, wakes_in};
ghost use Rattle.dc_event.specs.Told.{Tells};
ghost use Rattle.dc_script.specs.EventText.{IsWritten, event_text, events_text};
ghost use Rattle.dc_script.specs.Faulty.{HaveFailed, reached, wakes_kept};
ghost use Rattle.dc_script.specs.Head.{Head, behind, head_of, script_said};
ghost use Rattle.dc_script.specs.HeadText.{BeginsWithHead, IsScriptText, HeadTold, IsTold, first_told, first_zones, head_text, head_told, lines_of_head};
ghost use Rattle.dc_script.specs.Read.{says};
ghost use Rattle.dc_script.specs.Script.{event_of_line, pieces_of};
ghost use Rattle.dc_script.specs.Text.{AreOneActions};
ghost use Rattle.dc_script.specs.World.{Recorded};

use crate::{LineRest, ScriptWorld};
use dc_event::{QuietSink, QuietSource, Sink, Source, World};

/// A recorded world tells which events passed where its source tells what was taken.
pub fn world_tells_heard<S: Source, K: Sink>()
    ensures { (old new : Recorded S K) → Tells S.took old.source new.source
        → (g h : List Exchange) → ⟦<ScriptWorld<S, K> as World>⟧.history old g new → ⟦<ScriptWorld<S, K> as World>⟧.history old h new → events_in g ≡ events_in h }
{}

/// The line of an event, within its bounds, is read as the event.
pub fn event_reads_back()
    ensures { (e : Event) → IsWritten e → event_of_line (event_text e) ≡ Some e }
{}

/// A line that is read as an event is the line of that event, which is within its bounds. So no event has two lines.
pub fn lines_are_events()
    ensures { (text : List ℕ) (e : Event) → event_of_line text ≡ Some e → (text ≡ event_text e) × IsWritten e }
{}

/// The lines of events and the line `end` are read as the events, and no line is bad. So no such line is too long.
pub fn events_read_back()
    ensures { (es : List Event) → AllByRecursion IsWritten es → (n : ℕ) → says n (events_text es) ≡ record { events = es; bad = None } }
{}

/// The lines of a head are read as the head, whatever follows: with the permissions and zones that are added in turn, each of which has
/// to be taken.
pub fn head_reads_back()
    ensures { (h : HeadTold) (permits : Permits) (zones : Zones) → IsTold h permits zones → (tail : List ℕ)
        → head_of (head_text h tail) ≡ behind (head_told h permits zones) (lines_of_head h) (pieces_of tail) }
{}

/// A text that is read as a head begins with lines that are written so, in their order, and says that head.
pub fn heads_are_texts()
    ensures { (text : List ℕ) (h : Head) (lines : ℕ) (pieces : List (List ℕ)) → head_of text ≡ behind h lines pieces → BeginsWithHead text h pieces }
{}

/// There are such heads: this is one.
pub fn first_head_is_told()
    ensures { IsTold first_told ((127 ∷ []) ∷ []) first_zones }
{}

/// A whole script, of a head and events, is read as that head and those events, and no line is bad.
pub fn script_reads_back()
    ensures { (h : HeadTold) (permits : Permits) (zones : Zones) (es : List Event) → IsTold h permits zones → AllByRecursion IsWritten es
        → script_said (head_text h (events_text es)) ≡ record { head = Some (head_told h permits zones); said = record { events = es; bad = None } } }
{}

/// A text that is read as a whole script, with no bad line, is the text of that head and those events.
pub fn scripts_are_texts()
    ensures { (text : List ℕ) (h : Head) (es : List Event) → script_said text ≡ record { head = Some h; said = record { events = es; bad = None } } → IsScriptText text h es }
{}

/// A recorded world tells which actions passed where its sink tells its bytes and no write has failed, among actions of which no line holds
/// a line feed.
pub fn world_tells_done<S: Source, K: Sink>()
    ensures { (old new : Recorded S K) → Tells K.gained old.sink new.sink → new.write_failed ≡ false
        → (g h : List Exchange) → AreOneActions (actions_in g) → AreOneActions (actions_in h)
        → ⟦<ScriptWorld<S, K> as World>⟧.history old g new → ⟦<ScriptWorld<S, K> as World>⟧.history old h new → actions_in g ≡ actions_in h }
{}

/// Where calls of given numbers fail, those that reach the recorded world give the same events and do the same actions as all of them.
pub fn failed_calls_hide_nothing()
    ensures events { (fails : List ℕ) (calls : ℕ) (h : List Exchange) → HaveFailed fails calls h → events_in (reached fails calls h) ≡ events_in h }
    ensures actions { (fails : List ℕ) (calls : ℕ) (h : List Exchange) → HaveFailed fails calls h → actions_in (reached fails calls h) ≡ actions_in h }
{}

/// The wakes that are kept of a history are its first 64.
pub fn first_wakes_are_kept()
    ensures { (h : List Exchange) → wakes_kept [] h ≡ take 64 (wakes_in h) }
{}

fn movable<T: Send>(value: T) -> T
    ensures { result ≡ value }
{
    value
}

/// A rest of lines and a world over ends in memory may move to another thread.
pub fn all_movable(
    rest: LineRest,
    world: ScriptWorld<QuietSource, QuietSink>,
) -> (LineRest, ScriptWorld<QuietSource, QuietSink>)
    ensures rest { result.0 ≡ rest }
    ensures world { result.1 ≡ world }
{
    (movable(rest), movable(world))
}
