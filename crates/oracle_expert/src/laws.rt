//! Laws of the runs, each the contract of a function that does nothing.

ghost use Rattle.std.specs.Prelude.{◌≡◌, ◌++◌, ◌∷◌, ◌+◌, ◌-◌, ◌*◌, ◌^◌, ◌≤◌, ◌<◌, ℕ, true, [], List, All, length};
ghost use Rattle.std.specs.List.{list_all, list_any};
ghost use Rattle.fca_model.specs.declared.Event.TheVariants.{Draw};
ghost use Rattle.fca_model.specs.declared.TheConstants.{MAX_EXPERTS, MAX_OBJECTS, MAX_SURVEYED, MAX_TURNS};
ghost use Rattle.fca_model.specs.Sets.{Set, same};
ghost use Rattle.fca_model.specs.Context.{Context};
ghost use Rattle.fca_model.specs.Implications.{Rule, holds};
ghost use Rattle.fca_model.specs.Pseudo.{basis_known};
ghost use Rattle.fca_model.specs.Invariant.{SameMembers, rows_respect};
ghost use Rattle.fca_model.specs.Tables.{NamedContext};
ghost use Rattle.fca_model.specs.Exploration.{RowName, SetEntry, Settings, opening, open_in, state_after, events_of, is_expert, own};
ghost use Rattle.fca_model.specs.Exploration.{IsLegal};
ghost use Rattle.oracle_expert.specs.Counts.{answers_recorded_in, dropped_count};
ghost use Rattle.oracle_expert.specs.Oracles.{Recall, Answers, Learns, no_conflict};
ghost use Rattle.oracle_expert.specs.Intents.{HasIntentsOf, are_intents};
ghost use Rattle.oracle_expert.specs.Runs.{SeatRun, IsOracleFront, IsOracleRun, ends_done, conflicts_of};

/// What an oracle does at a seat is due for an oracle of its table, if no row was dropped before. If it ends with Done, it is a
/// whole run. It leaves the oracle with the conflicts of its entries.
pub fn oracle_at_a_seat()
    ensures front { (e : ℕ) (old new : Recall) (entries : List SetEntry)
        → old.conflicts ≡ no_conflict old.table → SeatRun Answers Learns e old entries new
        → IsOracleFront old.table e entries }
    ensures run { (e : ℕ) (old new : Recall) (entries : List SetEntry)
        → old.conflicts ≡ no_conflict old.table → SeatRun Answers Learns e old entries new
        → ends_done entries ≡ true → IsOracleRun old.table e entries }
    ensures table { (e : ℕ) (old new : Recall) (entries : List SetEntry)
        → old.conflicts ≡ no_conflict old.table → SeatRun Answers Learns e old entries new
        → new.table ≡ old.table }
    ensures conflicts { (e : ℕ) (old new : Recall) (entries : List SetEntry)
        → old.conflicts ≡ no_conflict old.table → SeatRun Answers Learns e old entries new
        → new.conflicts ≡ conflicts_of old.table entries }
{}

/// Of a history `H` over a context whose rows respect what is known, where all experts may hold one question:
/// an oracle makes at most two turns for each answer that was recorded in `H`, its own or another's, one for each row that it drops,
/// and one more. So it makes fewer than `MAX_TURNS` if there are at most `MAX_SURVEYED` attributes and its table has at most
/// `MAX_OBJECTS` rows. The oracle's entries are the last of its expert's; others may stand before them. If the oracle dropped rows
/// before, only the rows that it drops in these entries count.
pub fn turns_of_an_oracle()
    ensures bound { (K : Context) (names : List RowName) (settings : Settings) (H : List SetEntry)
        → rows_respect settings.known K ≡ true → settings.holders ≡ MAX_EXPERTS → IsLegal (opening K names settings) H
        → (D : NamedContext) (e : ℕ) → is_expert e ≡ true → (before entries : List SetEntry)
        → own H e ≡ before ++ entries → IsOracleFront D e entries
        → length entries ≤ 2 * answers_recorded_in H + dropped_count (conflicts_of D entries) + 1 }
    ensures drops { (D : NamedContext) (entries : List SetEntry)
        → dropped_count (conflicts_of D entries) ≤ length D.context.rows }
    ensures few { (K : Context) (names : List RowName) (settings : Settings) (H : List SetEntry)
        → rows_respect settings.known K ≡ true → settings.holders ≡ MAX_EXPERTS → IsLegal (opening K names settings) H
        → (D : NamedContext) (e : ℕ) → is_expert e ≡ true → (before entries : List SetEntry)
        → own H e ≡ before ++ entries → IsOracleFront D e entries
        → K.width ≤ MAX_SURVEYED → length D.context.rows ≤ MAX_OBJECTS → length entries < MAX_TURNS }
    ensures any { (K : Context) (names : List RowName) (settings : Settings) (H : List SetEntry)
        → rows_respect settings.known K ≡ true → settings.holders ≡ MAX_EXPERTS → IsLegal (opening K names settings) H
        → (e : ℕ) → is_expert e ≡ true → (old new : Recall) (before entries : List SetEntry)
        → own H e ≡ before ++ entries → SeatRun Answers Learns e old entries new
        → length entries ≤ 2 * answers_recorded_in H + (dropped_count new.conflicts - dropped_count old.conflicts) + 1 }
{}

/// Of a history `H` over a context whose rows respect what is known, where all experts may hold one question:
/// between two draws of an oracle an answer is recorded, its own or another's. Both draws are among its entries, which come last of
/// its expert's entries, after the `earlier` ones.
pub fn draws_of_an_oracle()
    ensures { (K : Context) (names : List RowName) (settings : Settings) (H : List SetEntry)
        → rows_respect settings.known K ≡ true → settings.holders ≡ MAX_EXPERTS → IsLegal (opening K names settings) H
        → (e : ℕ) → is_expert e ≡ true → (old new : Recall) (earlier entries : List SetEntry)
        → own H e ≡ earlier ++ entries → SeatRun Answers Learns e old entries new
        → (before between after : List SetEntry) (first second : SetEntry)
        → H ≡ before ++ (first ∷ between ++ second ∷ after) → length earlier ≤ length (own before e)
        → first.event ≡ Draw e → second.event ≡ Draw e → 1 ≤ answers_recorded_in between }
{}

/// All experts are oracles of tables with one context `C`. All that is known holds in it, the rows of the opening are rows of it, and
/// all experts may hold one question. Then no row is ever dropped. Once no question is open, the basis of the recorded rows beside
/// what is known is that of `C`, and its members are the accepted implications.
pub fn same_table_same_basis()
    ensures no_row_dropped { (C K : Context) (names : List RowName) (settings : Settings) (H : List SetEntry) (tables : ℕ → NamedContext)
        → rows_respect settings.known K ≡ true → settings.holders ≡ MAX_EXPERTS → list_all (holds C) settings.known ≡ true
        → IsLegal (opening K names settings) H → C.width ≡ K.width
        → list_all (λ row. list_any (same row) C.rows) K.rows ≡ true
        → ((e : ℕ) → (tables e).context ≡ C) → ((e : ℕ) → IsOracleFront (tables e) e (own H e))
        → (e : ℕ) → conflicts_of (tables e) (own H e) ≡ no_conflict (tables e) }
    ensures basis { (C K : Context) (names : List RowName) (settings : Settings) (H : List SetEntry) (tables : ℕ → NamedContext)
        → rows_respect settings.known K ≡ true → settings.holders ≡ MAX_EXPERTS → list_all (holds C) settings.known ≡ true
        → IsLegal (opening K names settings) H → C.width ≡ K.width
        → list_all (λ row. list_any (same row) C.rows) K.rows ≡ true
        → ((e : ℕ) → (tables e).context ≡ C) → ((e : ℕ) → IsOracleFront (tables e) e (own H e))
        → open_in (state_after (opening K names settings) (events_of H)) ≡ []
        → basis_known settings.known (state_after (opening K names settings) (events_of H)).context
        ≡ basis_known settings.known C }
    ensures accepted { (C K : Context) (names : List RowName) (settings : Settings) (H : List SetEntry) (tables : ℕ → NamedContext)
        → rows_respect settings.known K ≡ true → settings.holders ≡ MAX_EXPERTS → list_all (holds C) settings.known ≡ true
        → IsLegal (opening K names settings) H → C.width ≡ K.width
        → list_all (λ row. list_any (same row) C.rows) K.rows ≡ true
        → ((e : ℕ) → (tables e).context ≡ C) → ((e : ℕ) → IsOracleFront (tables e) e (own H e))
        → open_in (state_after (opening K names settings) (events_of H)) ≡ []
        → SameMembers (state_after (opening K names settings) (events_of H)).accepted (basis_known settings.known C) }
{}

/// Experts may be oracles of tables with the intents of one context `C`, in which all holds that is known. If the rows of the opening are such intents
/// too, and all experts may hold one question, no row is ever dropped. Once no question is open, the basis of the recorded rows beside what is known is
/// that of `C`, and its members are what was accepted.
pub fn same_intents_same_basis()
    ensures no_row_dropped { (C K : Context) (names : List RowName) (settings : Settings) (H : List SetEntry) (tables : ℕ → NamedContext)
        → rows_respect settings.known K ≡ true → settings.holders ≡ MAX_EXPERTS → list_all (holds C) settings.known ≡ true
        → IsLegal (opening K names settings) H → C.width ≡ K.width
        → are_intents C K.rows ≡ true → ((e : ℕ) → HasIntentsOf C (tables e).context)
        → ((e : ℕ) → All (λ row. length row ≡ (tables e).context.width) (tables e).context.rows) → ((e : ℕ) → IsOracleFront (tables e) e (own H e))
        → (e : ℕ) → conflicts_of (tables e) (own H e) ≡ no_conflict (tables e) }
    ensures basis { (C K : Context) (names : List RowName) (settings : Settings) (H : List SetEntry) (tables : ℕ → NamedContext)
        → rows_respect settings.known K ≡ true → settings.holders ≡ MAX_EXPERTS → list_all (holds C) settings.known ≡ true
        → IsLegal (opening K names settings) H → C.width ≡ K.width
        → are_intents C K.rows ≡ true → ((e : ℕ) → HasIntentsOf C (tables e).context)
        → ((e : ℕ) → All (λ row. length row ≡ (tables e).context.width) (tables e).context.rows) → ((e : ℕ) → IsOracleFront (tables e) e (own H e))
        → open_in (state_after (opening K names settings) (events_of H)) ≡ []
        → basis_known settings.known (state_after (opening K names settings) (events_of H)).context
        ≡ basis_known settings.known C }
    ensures accepted { (C K : Context) (names : List RowName) (settings : Settings) (H : List SetEntry) (tables : ℕ → NamedContext)
        → rows_respect settings.known K ≡ true → settings.holders ≡ MAX_EXPERTS → list_all (holds C) settings.known ≡ true
        → IsLegal (opening K names settings) H → C.width ≡ K.width
        → are_intents C K.rows ≡ true → ((e : ℕ) → HasIntentsOf C (tables e).context)
        → ((e : ℕ) → All (λ row. length row ≡ (tables e).context.width) (tables e).context.rows) → ((e : ℕ) → IsOracleFront (tables e) e (own H e))
        → open_in (state_after (opening K names settings) (events_of H)) ≡ []
        → SameMembers (state_after (opening K names settings) (events_of H)).accepted (basis_known settings.known C) }
{}

/// Contexts whose rows are intents of one another have the same intents, and so the same basis, whatever the order of the rows is, and whether rows stand
/// twice or are left out as meets of others. A context has its own intents, and its rows are some of them.
pub fn rows_decide_intents()
    ensures one_another { (C D : Context) → D.width ≡ C.width → are_intents C D.rows ≡ true → are_intents D C.rows ≡ true → HasIntentsOf C D }
    ensures basis { (S : List Rule) (C D : Context) → HasIntentsOf C D → basis_known S D ≡ basis_known S C }
    ensures itself { (C D : Context) → D ≡ C → HasIntentsOf C D }
    ensures part { (C : Context) (rows : List Set) → All (λ row. length row ≡ C.width) C.rows
        → list_all (λ row. list_any (same row) C.rows) rows ≡ true → are_intents C rows ≡ true }
{}
