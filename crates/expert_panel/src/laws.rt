//! Laws of panels, each the contract of a function that does nothing.

ghost use Rattle.std.specs.Prelude.{◌≡◌, ◌≤◌, ◌++◌, ◌∷◌, true, List, length};
ghost use Rattle.fca_model.specs.declared.Event.TheVariants.{Draw};
ghost use Rattle.fca_model.specs.Exploration.{SetEntry, is_expert, own, IsLegal};
ghost use Rattle.fca_model.specs.Invariant.{rows_respect};
ghost use Rattle.fca_model.specs.declared.TheConstants.{MAX_EXPERTS};
ghost use Rattle.explore_state.specs.History.{Opening, opening_state};
ghost use Rattle.oracle_expert.specs.Counts.{answers_recorded_in};
ghost use Rattle.oracle_expert.specs.Oracles.{Recall, Answers, Learns, no_conflict};
ghost use Rattle.expert_panel.specs.declared.seat.Seat.{Seat};
ghost use Rattle.expert_panel.specs.Seats.{HasRunSeat};
ghost use Rattle.expert_panel.specs.Explorations.{SeatsTurns, HasMadeAtMost, most_turns_between};

/// The number of turns that an oracle makes at a seat of a panel, if all experts may hold one question: `no_row_dropped` if no row was dropped
/// before, and `any` by the rows that it drops there. `H` is any legal history whose entries of the expert are those of its pass, as
/// that of the closed gate, or the one that the pass has seen.
pub fn turns_of_a_seat()
    ensures no_row_dropped { (o : Opening) (old new : Seat Recall) → rows_respect o.settings.known o.table.context ≡ true
        → o.settings.holders ≡ MAX_EXPERTS
        → HasRunSeat (λ oracle. oracle.table.context.width) (λ oracle. oracle) Answers Learns o old new
        → old.expert.conflicts ≡ no_conflict old.expert.table
        → (H : List SetEntry) → IsLegal (opening_state o) H → is_expert new.pass.number ≡ true
        → own H new.pass.number ≡ new.pass.own → SeatsTurns H old new }
    ensures any { (o : Opening) (old new : Seat Recall) → rows_respect o.settings.known o.table.context ≡ true
        → o.settings.holders ≡ MAX_EXPERTS
        → HasRunSeat (λ oracle. oracle.table.context.width) (λ oracle. oracle) Answers Learns o old new
        → (H : List SetEntry) → IsLegal (opening_state o) H → is_expert new.pass.number ≡ true
        → own H new.pass.number ≡ new.pass.own
        → HasMadeAtMost (most_turns_between H old.expert new.expert) old new }
{}

/// Between two draws of an oracle at a seat of such a panel an answer is recorded in `H`, its own or another's. `H` is as above. The
/// entries that the pass had before come first.
pub fn draws_of_a_seat()
    ensures { (o : Opening) (old new : Seat Recall) → rows_respect o.settings.known o.table.context ≡ true
        → o.settings.holders ≡ MAX_EXPERTS
        → HasRunSeat (λ oracle. oracle.table.context.width) (λ oracle. oracle) Answers Learns o old new
        → (H : List SetEntry) → IsLegal (opening_state o) H → is_expert new.pass.number ≡ true
        → own H new.pass.number ≡ new.pass.own
        → (before between after : List SetEntry) (first second : SetEntry)
        → H ≡ before ++ (first ∷ between ++ second ∷ after)
        → length old.pass.own ≤ length (own before old.pass.number)
        → first.event ≡ Draw old.pass.number → second.event ≡ Draw old.pass.number
        → 1 ≤ answers_recorded_in between }
{}
