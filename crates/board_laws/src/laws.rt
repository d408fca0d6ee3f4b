//! What a board is, and how each of its steps shows in the round.

ghost use Rattle.std.specs.Prelude.{◌≡◌, ◌≢◌, ℕ, suc, ◌+◌, ◌*◌, ◌/◌, ◌%◌, ◌^◌, ◌<◌, ◌≤◌, ◌⊎◌, List, [], ◌∷◌, ◌++◌};
ghost use Rattle.std.specs.Prelude.{length, replicate, slice_set, Option, Some, None, IsTrue};
ghost use Rattle.run_theory.specs.Bests.{IsBestByGains};
ghost use Rattle.round_core.specs.declared.events.Event.{Event};
ghost use Rattle.round_core.specs.declared.events.Event.TheVariants.{Claim, StoreHigh, StoreLow, LoadBest, LoadHigh};
ghost use Rattle.round_core.specs.declared.events.Event.TheVariants.{LoadLow, Exchange, SplitSeat, JoinSeat};
ghost use Rattle.round_core.specs.declared.parts.Fate.TheVariants.{Open, HalfWritten, Written, Offered};
ghost use Rattle.round_core.specs.declared.parts.Stand.TheVariants.{Working};
ghost use Rattle.round_core.specs.Rounds.{Round, outranks};
ghost use Rattle.round_core.specs.Allowed.{is_live};
ghost use Rattle.round_core.specs.Sound.{IsSound};
ghost use Rattle.board_laws.specs.declared.views.View.{View};
ghost use Rattle.board_laws.specs.Indexes.{gain_of, length_key, index_key, length_of};
ghost use Rattle.board_laws.specs.Views.{HasFate, opening_view, spent_view, splitting_view, fresh_view, joined_view};
ghost use Rattle.board_laws.specs.Views.{claimed_view, looked_view, marked_view, settling_view};
ghost use Rattle.board_laws.specs.Boards.{claims, best, IsSeat, Shows, IsBoard, IsEvent};
ghost use Rattle.board_laws.specs.Closing.{MayClose};

/// Law: what a board shows is a sound round.
pub fn a_board_shows_a_sound_round()
    ensures { (gains : List (Option ℕ)) (words : List ℕ) (views : List View) →
        IsBoard gains words views → (r : Round) × Shows gains words views r × IsSound r }
{}

/// Law: words that are all 0 are a board, with the opening seat.
pub fn a_board_begins_with_its_opening_seat()
    ensures { (gains : List (Option ℕ)) → length gains ≤ 64 →
        IsBoard gains (replicate (2 + 2 * length gains) 0) (opening_view ∷ []) }
{}

/// Law: a step that shows as an event keeps a board one.
pub fn a_step_that_is_an_event_keeps_a_board()
    ensures { (gains : List (Option ℕ)) (e : Event) (words words' : List ℕ) (views views' : List View) →
        IsEvent gains e words views words' views' → IsBoard gains words views → IsBoard gains words' views' }
{}

/// Law: a claim is the event Claim; the seat takes the next length, or has finished where none is left.
pub fn a_claim_is_the_event_of_its_name()
    ensures { (gains : List (Option ℕ)) (words : List ℕ) (views : List View) (id : ℕ) (v : View) →
        IsSeat views id v → v.stand ≡ Working →
        IsEvent gains (Claim id) words views
        (slice_set words 0 (suc (claims words)))
        (slice_set views id (claimed_view (length gains) v (claims words))) }
{}

/// Law: a store of the high half of the gain of a length that is Open is the event StoreHigh.
pub fn a_store_of_the_high_half_is_the_event_of_its_name()
    ensures { (gains : List (Option ℕ)) (words : List ℕ) (views : List View) (id : ℕ) (v : View) →
        IsSeat views id v → IsTrue (is_live v.stand) → (k g : ℕ) →
        HasFate k Open v.owned → gain_of gains k ≡ Some g →
        IsEvent gains (StoreHigh id k) words views
        (slice_set words (2 + 2 * k) (g / 2 ^ 64)) (slice_set views id (marked_view k HalfWritten v)) }
{}

/// Law: a store of the low half of the gain of a length that is HalfWritten is the event StoreLow.
pub fn a_store_of_the_low_half_is_the_event_of_its_name()
    ensures { (gains : List (Option ℕ)) (words : List ℕ) (views : List View) (id : ℕ) (v : View) →
        IsSeat views id v → IsTrue (is_live v.stand) → (k g : ℕ) →
        HasFate k HalfWritten v.owned → gain_of gains k ≡ Some g →
        IsEvent gains (StoreLow id k) words views
        (slice_set words (3 + 2 * k) (g % 2 ^ 64)) (slice_set views id (marked_view k Written v)) }
{}

/// Law: a look at the best index is the event LoadBest.
pub fn a_look_is_the_event_load_best()
    ensures { (gains : List (Option ℕ)) (words : List ℕ) (views : List View) (id : ℕ) (v : View) →
        IsSeat views id v → IsTrue (is_live v.stand) →
        IsEvent gains (LoadBest id None) words views
        words (slice_set views id (looked_view gains None v (best words))) }
{}

/// Law: a look at the best index that settles a length is the event LoadBest, which settles this length.
pub fn a_look_that_settles_is_the_event_load_best()
    ensures { (gains : List (Option ℕ)) (words : List ℕ) (views : List View) (id : ℕ) (v : View) →
        IsSeat views id v → IsTrue (is_live v.stand) → (k : ℕ) →
        HasFate k Open v.owned ⊎ HasFate k Written v.owned →
        IsEvent gains (LoadBest id (Some k)) words views
        words (slice_set views id (looked_view gains (Some k) v (best words))) }
{}

/// Law: loads of the halves of the length that the seat saw are the events LoadHigh and LoadLow, which change nothing.
pub fn loads_of_the_halves_are_the_events_of_their_names()
    ensures { (gains : List (Option ℕ)) (words : List ℕ) (views : List View) (id : ℕ) (v : View) →
        IsSeat views id v → IsTrue (is_live v.stand) → (k : ℕ) → v.seen ≡ suc k →
        IsEvent gains (LoadHigh id k) words views words (slice_set views id v)
        × IsEvent gains (LoadLow id k) words views words (slice_set views id v) }
{}

/// Law: a compare-exchange that finds the index that the seat saw is the event Exchange, and offers the length.
pub fn an_exchange_that_finds_the_expected_index_is_the_event_of_its_name()
    ensures { (gains : List (Option ℕ)) (words : List ℕ) (views : List View) (id : ℕ) (v : View) →
        IsSeat views id v → IsTrue (is_live v.stand) → (k : ℕ) → HasFate k Written v.owned →
        (expected : ℕ) → v.seen ≡ expected → IsTrue (outranks (length_key gains k) (index_key gains expected)) →
        best words ≡ expected →
        IsEvent gains (Exchange id expected k) words views
        (slice_set words 1 (suc k)) (slice_set views id (settling_view v k Offered (suc k))) }
{}

/// Law: a compare-exchange that finds another index is the event Exchange too, and settles the length by that index.
pub fn an_exchange_that_finds_another_index_is_the_event_of_its_name()
    ensures { (gains : List (Option ℕ)) (words : List ℕ) (views : List View) (id : ℕ) (v : View) →
        IsSeat views id v → IsTrue (is_live v.stand) → (k : ℕ) → HasFate k Written v.owned →
        (expected : ℕ) → v.seen ≡ expected → IsTrue (outranks (length_key gains k) (index_key gains expected)) →
        best words ≢ expected →
        IsEvent gains (Exchange id expected k) words views
        words (slice_set views id (looked_view gains (Some k) v (best words))) }
{}

/// Law: a seat that the opening seat splits off is the event SplitSeat; its number is its place.
pub fn a_split_is_the_event_of_its_name()
    ensures { (gains : List (Option ℕ)) (words : List ℕ) (views : List View) (id : ℕ) (v : View) →
        IsSeat views id v → IsTrue (is_live v.stand) → v.number ≡ 0 → v.made < 15 →
        IsEvent gains (SplitSeat id (suc v.made)) words views
        words (slice_set views id (splitting_view v) ++ fresh_view v ∷ []) }
{}

/// Law: a seat that is joined into another one is the event JoinSeat.
pub fn a_join_is_the_event_of_its_name()
    ensures { (gains : List (Option ℕ)) (words : List ℕ) (views : List View) (id : ℕ) (v : View) →
        IsSeat views id v → IsTrue (is_live v.stand) → (other : ℕ) (w : View) → other ≢ id →
        IsSeat (slice_set views id (joined_view gains v w)) other w → IsTrue (is_live w.stand) → w.number ≢ 0 →
        IsEvent gains (JoinSeat id other) words views
        words (slice_set (slice_set views id (joined_view gains v w)) other spent_view) }
{}

/// Law: a board whose opening seat may close it names the length that is best by the gains, which this seat offered;
/// or none, where no length gains.
pub fn a_board_that_may_be_closed_names_the_best_length()
    ensures { (gains : List (Option ℕ)) (words : List ℕ) (views : List View) (id : ℕ) (v : View) →
        IsSeat views id v → IsTrue (is_live v.stand) → MayClose gains v → IsBoard gains words views →
        IsBestByGains gains (length_of (best words))
        × ((k : ℕ) → best words ≡ suc k → HasFate k Offered v.owned) }
{}
