//! Laws over the definitions, as contracts of functions that do nothing.
ghost use Rattle.std.specs.Prelude.{◌≡◌, ℕ, List, ◌++◌, ◌<◌, ◌≤◌, ◌↔◌, true, length};
ghost use Rattle.redo_record.specs.Paths.{IsAmong};
ghost use Rattle.redo_record.specs.Progress.{Progress};
ghost use Rattle.redo_build.specs.Looking.{AreLooks, NoneDue, IsLedOn, IsLookedOut, KeepsNothing, Settles, looked};
ghost use Rattle.redo_build.specs.Outcomes.{needed_at, outcome_at, IsSettled};
ghost use Rattle.redo_build.specs.Pieces.{IsPiece};
ghost use Rattle.redo_build.specs.Rules.{Rules, AreLawful};
ghost use Rattle.redo_build.specs.Schedule.{Event, State, AllOpen, IsDueAt, IsOutAt, IsQuiet, advanced, happens};
ghost use Rattle.redo_build.specs.Schedule.{opening, out_count, run};
ghost use Rattle.redo_build.specs.Schedule.Event.{Look, Take};
ghost use Rattle.redo_build.specs.Takes.{takes, times_taken, AreCountedOnce, AreOnce, IsTaken};
ghost use Rattle.redo_build.specs.TakesLeft.{takes_left};
ghost use Rattle.redo_build.specs.Theorems.{IsPartOfBuild, ShowsBuild};

/// If at most `limit` targets are needed, a depth beyond `limit` adds no target and changes no outcome.
pub fn depth_is_enough()
    ensures { (r : Rules) → AreLawful r → (request : List (List ℕ)) (limit : ℕ) →
        length (needed_at r request limit) ≤ limit → IsSettled r request limit }
{}

/// Whatever the order of takes, hand-ins and looks, the state shows a part of the one build. Once it is quiet, within
/// the limit, and no check can go on, it shows all of the build.
pub fn every_schedule()
    ensures part { (r : Rules) → AreLawful r → (request : List (List ℕ)) (limit : ℕ) (events : List Event) →
        AllOpen r (opening r request) events →
        IsPartOfBuild r request limit (run r events (opening r request)) }
    ensures quiet { (r : Rules) → AreLawful r → (request : List (List ℕ)) (limit : ℕ) (events : List Event) →
        AllOpen r (opening r request) events → IsQuiet (run r events (opening r request)) →
        NoneDue r (run r events (opening r request)) →
        length (run r events (opening r request)).entries ≤ limit →
        ShowsBuild r request limit (run r events (opening r request)) }
{}

/// No target is taken twice at the same turn, so none is counted twice.
pub fn takes_once()
    ensures once { (r : Rules) → AreLawful r → (request : List (List ℕ)) (events : List Event) →
        AllOpen r (opening r request) events → AreOnce (takes r events (opening r request)) }
    ensures counted { (r : Rules) → AreLawful r → (request : List (List ℕ)) (events : List Event) →
        AllOpen r (opening r request) events → AreCountedOnce (takes r events (opening r request)) }
{}

/// Once the state is quiet and no check can go on, the targets taken at turn 0 are exactly the needed ones that have a
/// rule and whose script the build begins.
pub fn begins_each()
    ensures { (r : Rules) → AreLawful r → (request : List (List ℕ)) (limit : ℕ) (events : List Event) →
        AllOpen r (opening r request) events → IsQuiet (run r events (opening r request)) →
        NoneDue r (run r events (opening r request)) →
        length (run r events (opening r request)).entries ≤ limit → (p : List ℕ) →
        IsTaken (takes r events (opening r request)) p 0 ↔
        (IsAmong (needed_at r request limit) p × (r.has_rule p ≡ true) ×
        (r.begins p (outcome_at r limit) ≡ true)) }
{}

/// The board's looks end: within the limit, each of them makes `takes_left` smaller.
pub fn looks_end()
    ensures { (r : Rules) → AreLawful r → (request : List (List ℕ)) (limit : ℕ) (events : List Event)
        (target : List ℕ) → AllOpen r (opening r request) events →
        IsDueAt r (run r events (opening r request)) target →
        length (happens r (run r events (opening r request)) (Look target)).entries ≤ limit →
        takes_left limit (happens r (run r events (opening r request)) (Look target)) <
        takes_left limit (run r events (opening r request)) }
{}

/// From every state within the limit, looks lead to one in which no check can go on, or past the limit.
pub fn looks_settle()
    ensures { (r : Rules) → AreLawful r → (request : List (List ℕ)) (limit : ℕ) (events : List Event) →
        AllOpen r (opening r request) events → length (run r events (opening r request)).entries ≤ limit →
        Settles r limit (run r events (opening r request)) }
{}

/// Every look is an open event, and looks end in at most one state.
pub fn looks_lead_on()
    ensures led { (r : Rules) → AreLawful r → (request : List (List ℕ)) (events : List Event) (looks : ℕ) →
        AllOpen r (opening r request) events →
        IsLedOn r (run r events (opening r request)) (looked r looks (run r events (opening r request))) }
    ensures one { (r : Rules) (s first second : State) → IsLookedOut r s first → IsLookedOut r s second →
        first ≡ second }
{}

/// Looks leave jobs alone: the same targets are out at the same turns, as many jobs are out, and nothing is taken.
pub fn looks_leave_jobs()
    ensures out { (r : Rules) → AreLawful r → (request : List (List ℕ)) (events : List Event) (looks : ℕ)
        (target : List ℕ) (turn : ℕ) → AllOpen r (opening r request) events →
        IsOutAt (run r events (opening r request)) target turn ↔
        IsOutAt (looked r looks (run r events (opening r request))) target turn }
    ensures count { (r : Rules) → AreLawful r → (request : List (List ℕ)) (events : List Event) (looks : ℕ) →
        AllOpen r (opening r request) events →
        out_count (looked r looks (run r events (opening r request))) ≡
        out_count (run r events (opening r request)) }
    ensures taken { (r : Rules) (events looks : List Event) (s : State) → AreLooks looks →
        takes r (events ++ looks) s ≡ takes r events s }
{}

/// If no check can go on, none can after a take either. So a board looks only at the opening and after each hand-in.
pub fn takes_make_none_due()
    ensures { (r : Rules) → AreLawful r → (request : List (List ℕ)) (events : List Event) (which : ℕ) →
        AllOpen r (opening r request) events → NoneDue r (run r events (opening r request)) →
        which < length (run r events (opening r request)).ready →
        NoneDue r (happens r (run r events (opening r request)) (Take which)) }
{}

/// If every script is begun, no check ever goes on, and looking changes nothing.
pub fn nothing_is_due()
    ensures none { (r : Rules) → KeepsNothing r → (s : State) → NoneDue r s }
    ensures same { (r : Rules) → KeepsNothing r → (s t : State) → IsLookedOut r s t ↔ (t ≡ s) }
{}

/// The piece of a target that is out comes exactly as far as the schedule says, even if its work is from another board.
/// Two boards agree on how far a target comes at a turn, whatever they were asked for and in whatever order they work.
pub fn pieces_are_alike()
    ensures piece { (r : Rules) → AreLawful r → (request : List (List ℕ)) (events : List Event) (target : List ℕ)
        (turn : ℕ) (now : Progress) → AllOpen r (opening r request) events →
        (out : IsOutAt (run r events (opening r request)) target turn) → IsPiece r target turn now →
        now ≡ advanced r (run r events (opening r request)).entries out.entry }
    ensures boards { (r : Rules) → AreLawful r → (request other : List (List ℕ)) (events others : List Event)
        (target : List ℕ) (turn : ℕ) → AllOpen r (opening r request) events → AllOpen r (opening r other) others →
        (out : IsOutAt (run r events (opening r request)) target turn)
        (there : IsOutAt (run r others (opening r other)) target turn) →
        advanced r (run r others (opening r other)).entries there.entry ≡
        advanced r (run r events (opening r request)).entries out.entry }
{}

/// Counts tell what was taken: a pair was taken if its count is at least 1, and none twice if no count is above 1.
pub fn counts_tell()
    ensures taken { (taken : List (List ℕ × ℕ)) (p : List ℕ) (turn : ℕ) →
        IsTaken taken p turn ↔ (1 ≤ times_taken taken p turn) }
    ensures once { (taken : List (List ℕ × ℕ)) → AreOnce taken ↔ AreCountedOnce taken }
{}
