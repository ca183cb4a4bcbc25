//! Laws of ticks that are told line by line. Each is a function with nothing to do whose contract
//! is the law.

ghost use Rattle.std.specs.Prelude.{◌↔◌, ◌≡◌, ◌≢◌, ℕ, ◌+◌, ◌<◌, ◌^◌, length, List, [], ◌∷◌, ◌++◌};
ghost use Rattle.circuit.specs.Circuit.{Circuit, State, Clicks, Each, IsDue, IsFiringList, later, fire_all, view};
ghost use Rattle.circuit.specs.declared.Click.{Click};
ghost use Rattle.circuit.specs.declared.Step.TheVariants.{Click as ClickAt, Tick as OneTick};
ghost use Rattle.report.specs.declared.Cause.TheVariants.{Tick};
ghost use Rattle.report.specs.Trailers.{world_trailer};
ghost use Rattle.report.specs.ViewLine.{view_line, cause_of};
ghost use Rattle.circuit.specs.Keys.{IsTest};
ghost use Rattle.std.specs.List.{flat_map};
ghost use Rattle.circuit.specs.declared.Step.{Step};
ghost use Rattle.circuit.specs.Shows.{Run, steps_of};
ghost use Rattle.power_rules.specs.World.{world_circuit};
ghost use Rattle.report.specs.FireLine.{fire_line};
ghost use Rattle.circuit.specs.declared.Pos.{Pos};
ghost use Rattle.build.specs.Plan.{Plan, IsWhole};
ghost use Rattle.report.specs.declared.OrderKind.{OrderKind};
ghost use Rattle.script.specs.Acts.{Meaning, ticks_in};
ghost use Rattle.world_order.specs.Begun.{IsNext, Begins, IsLawful, IsLeft};
ghost use Rattle.world_order.specs.OrderText.{IsOrder, IsCounts, steps_text};
ghost use Rattle.world_order.specs.BadLine.{IsBadLine, HasNumbers, HasRun, InTick};

/// Where a tick has begun with some firings, the next one is lawful exactly where its place was
/// due when the tick began, hasn't fired, and no other such place has a lesser priority.
pub fn a_firing_is_lawful<K>()
    ensures due { (C : Circuit K) → IsTest C.same → (s : State K) (fired : List K) → Begins C s fired →
        (key : K) → IsDue C (fire_all C s fired) key ↔ IsLeft C s fired key }
    ensures now { (C : Circuit K) → IsTest C.same → (s : State K) (fired : List K) → Begins C s fired →
        (key : K) → IsNext C (fire_all C s fired) key ↔ IsLawful C s fired key }
    ensures more { (C : Circuit K) → IsTest C.same → (s : State K) (fired : List K) → Begins C s fired →
        (key : K) → Begins C s (fired ++ key ∷ []) ↔ IsLawful C s fired key }
{}

/// A tick is whole exactly where no place is left. All firing lists begin a tick with each of
/// their fronts, so reading them line by line refuses none, and what is read to the end is one.
pub fn a_tick_is_whole<K>()
    ensures whole { (C : Circuit K) → IsTest C.same → (s : State K) (fired : List K) → Begins C s fired →
        IsFiringList C s fired ↔ ((key : K) → IsLeft C s fired key → ⊥) }
    ensures fronts { (C : Circuit K) → IsTest C.same → (s : State K) (fired more : List K) →
        IsFiringList C s (fired ++ more) → Begins C s fired }
    ensures refused { (C : Circuit K) → IsTest C.same → (s : State K) (fired : List K) (key : K) →
        (IsLawful C s fired key → ⊥) → (more : List K) → IsFiringList C s (fired ++ key ∷ more) → ⊥ }
{}

/// No text of an order has a bad line.
pub fn an_order_has_no_bad_line()
    ensures { (b : Plan) → IsWhole b → (script : Meaning) → length (steps_of script.acts) < 2 ^ 63 → (text : List ℕ) (order : List (List Pos)) → IsOrder b script text order →
        (line tick : ℕ) (kind : OrderKind) → IsBadLine b script text line tick kind → ⊥ }
{}

/// The lines of firings, and what no firing begins, name one list of places.
pub fn firings_are_told_apart()
    ensures { (ps qs : List Pos) → Each HasNumbers ps → Each HasNumbers qs → (A B : List ℕ) → ((X : List ℕ) → A ≢ 102 ∷ X) → ((X : List ℕ) → B ≢ 102 ∷ X) →
        flat_map fire_line ps ++ A ≡ flat_map fire_line qs ++ B → (ps ≡ qs) × (A ≡ B) }
{}

/// What a text of an order has behind a run's text is the text of a run that goes on from there.
pub fn a_text_goes_on()
    ensures { (b : Plan) → IsWhole b → (marks : List Pos) (s mid last : State Pos) (done left : List Step) (order all : List (List Pos)) (views shows : List (List ℕ)) →
        Run (world_circuit b marks) s done order views mid → Run (world_circuit b marks) s (done ++ left) all shows last →
        s.time + length (done ++ left) < 2 ^ 63 → (A B : List ℕ) → steps_text s.time done order views ++ A ≡ steps_text s.time (done ++ left) all shows ++ B →
        (more : List (List Pos)) × (more_shows : List (List ℕ)) × Run (world_circuit b marks) mid left more more_shows last × (A ≡ steps_text mid.time left more more_shows ++ B) }
{}

/// What is written of a run goes on by the line of the next click's view, of the next lawful
/// firing, and of a whole tick's view, and with a trailer it is the text of an order.
pub fn a_front_goes_on()
    ensures click { (b : Plan) (script : Meaning) (done left : List Step) (place : Pos) (click : Click) (mid next : State Pos) (front : List ℕ) (tick : ℕ) →
        HasRun b script done (ClickAt place click ∷ left) mid front tick → Clicks (world_circuit b script.marks) place click mid next →
        HasRun b script (done ++ (ClickAt place click ∷ [])) left next (front ++ view_line next.time (cause_of click) (view (world_circuit b script.marks) next)) tick }
    ensures fire { (b : Plan) (script : Meaning) (front : List ℕ) (tick : ℕ) (s : State Pos) (fired : List Pos) (key : Pos) →
        InTick b script front tick s fired → IsNext (world_circuit b script.marks) (fire_all (world_circuit b script.marks) s fired) key →
        InTick b script (front ++ fire_line key) tick s (fired ++ (key ∷ [])) }
    ensures tick { (b : Plan) (script : Meaning) (done left : List Step) (mid : State Pos) (fired : List Pos) (before : List ℕ) (tick : ℕ) →
        HasRun b script done (OneTick ∷ left) mid before tick → IsFiringList (world_circuit b script.marks) (later mid) fired →
        HasRun b script (done ++ (OneTick ∷ [])) left (fire_all (world_circuit b script.marks) (later mid) fired)
        (before ++ (flat_map fire_line fired ++ view_line (mid.time + 1) Tick (view (world_circuit b script.marks) (fire_all (world_circuit b script.marks) (later mid) fired)))) (tick + 1) }
    ensures ticks { (b : Plan) (script : Meaning) (last : State Pos) (front : List ℕ) (tick : ℕ) → HasRun b script (steps_of script.acts) [] last front tick → tick ≡ ticks_in script.acts }
    ensures end { (b : Plan) (script : Meaning) (last : State Pos) (before : List ℕ) (tick : ℕ) → (h : HasRun b script (steps_of script.acts) [] last before tick) →
        (counts : List ℕ) → IsCounts counts → (text : List ℕ) → text ≡ before ++ (counts ++ world_trailer) → IsOrder b script text h.order }
{}

/// A text is that of one order at most.
pub fn a_text_has_one_order()
    ensures { (b : Plan) → IsWhole b → (script : Meaning) → length (steps_of script.acts) < 2 ^ 63 → (text : List ℕ) (one two : List (List Pos)) →
        IsOrder b script text one → IsOrder b script text two → one ≡ two }
{}
