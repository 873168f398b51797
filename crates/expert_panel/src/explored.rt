//! Explorations by oracles.

ghost use Rattle.std.specs.Prelude.{◌≡◌, ◌≤◌, ◌<◌, ◌⊎◌, ◌↔◌, ℕ, true, false, [], All, IfOk, map, vec_len, vec_capacity};
ghost use Rattle.std.specs.List.{list_any};
ghost use Rattle.fca_model.specs.Context.{Context};
ghost use Rattle.fca_model.specs.declared.TheConstants.{MAX_EXPERTS, MAX_SURVEYED, MAX_TURNS};
ghost use Rattle.fca_model.specs.Exploration.{own, IsLegal};
ghost use Rattle.fca_model.specs.Invariant.{rows_respect};
ghost use Rattle.explore_state.specs.History.{opening_state, open_of};
ghost use Rattle.turn_lock.specs.Passes.{badge, roll, IsFresh};
ghost use Rattle.oracle_expert.specs.Oracles.{untold, no_conflict};
ghost use Rattle.oracle_expert.specs.Intents.{HasIntentsOf, are_intents};
ghost use Rattle.oracle_expert.specs.Runs.{ends_done};
ghost use Rattle.expert_panel.specs.Explorations.{IsOraclesShare, EachNumbered, HasEnded, HasFewRows, IsWithinMostTurns, HasAgreed};
ghost use Rattle.expert_panel.specs.Explorations.{HasEvenRows, ended_spent, is_out_of_memory};

use crate::end::SeatEnd;
use crate::panel::run_panel;
use crate::seat::{Seat, seat_experts};
use context_table::Table;
use expert_gate::{ExpertPass, Gate};
use explore_state::Explore;
use fca_model::Memory;
use oracle_expert::Oracle;
use std::alloc::Global;
use std::sync::Wait;
use std::thread::Threads;

/// An exploration by oracles, as it ended.
pub struct ExplorationByOracles {
    /// The exploration, with its journal.
    pub explore: Explore,
    /// The oracles in the order of their numbers, with what they dropped.
    pub oracles: Vec<Oracle>,
    /// Whether an oracle made all its turns before it was done.
    pub spent: bool,
}

/// Written by hand: to drop an exploration by oracles is then one call, and not the code of each list at every exit.
impl Drop for ExplorationByOracles {
    fn drop(self) {
        let Self {
            explore: _,
            oracles: _,
            spent: _,
        } = self;
    }
}

/// Lets oracles go through an exploration. Nothing was done in it yet, and all experts may hold one question. Expert k is the oracle
/// of the k-th expert table, and each may make `turns` turns.
pub fn explore_with_oracles<R: Threads + Wait + Sync>(
    rt: &R,
    alloc: Global,
    explore: Explore,
    experts: Vec<Table>,
    turns: u64,
) -> Result<ExplorationByOracles, Memory>
    requires new { explore.journal ≡ [] }
    requires holders { explore.opening.settings.holders ≡ MAX_EXPERTS }
    requires experts { explore.opening.experts ≡ vec_len experts }
    requires width { All (λ expert. expert.context.width ≡ explore.opening.table.context.width) experts.items }
    requires turns { (1 ≤ turns) × (turns ≤ MAX_TURNS) }
    ensures opening { IfOk result (λ r. r.explore.opening ≡ explore.opening) }
    ensures legal { IfOk result (λ r. IsLegal (opening_state r.explore.opening) r.explore.journal) }
    ensures tables { IfOk result (λ r. map (λ oracle. oracle.table) r.oracles.items ≡ experts.items) }
    ensures oracles { IfOk result (λ r.
        EachNumbered (IsOraclesShare turns r.explore.journal) r.oracles.items) }
    ensures others { IfOk result (λ r. (e : ℕ) → (e ≡ 0) ⊎ (vec_len experts < e) → own r.explore.journal e ≡ []) }
    ensures spent { IfOk result (λ r. (r.spent ≡ true)
        ↔ ((e : ℕ) × (1 ≤ e) × (e ≤ vec_len experts) × (ends_done (own r.explore.journal e) ≡ false))) }
    ensures finished { IfOk result (λ r. r.spent ≡ false → open_of r.explore ≡ []) }
    ensures bound { IfOk result (λ r. EachNumbered (IsWithinMostTurns r.explore.journal) r.oracles.items) }
    ensures unspent { IfOk result (λ r. turns ≡ MAX_TURNS → explore.opening.table.context.width ≤ MAX_SURVEYED → r.spent ≡ false) }
    ensures agreed { IfOk result (λ r. (C : Context) → All (λ expert. HasIntentsOf C expert.context) experts.items
        → are_intents C explore.opening.table.context.rows ≡ true → rows_respect explore.opening.settings.known C ≡ true
        → HasAgreed C r.explore r.oracles.items r.spent) }
{
    let _experts = explore.experts();
    let _journal = explore.journal();
    let _known = explore.settings().known.as_slice();
    let oracles = oracles_of(alloc, experts)?;
    let (gate, passes) = Gate::open(alloc, explore, turns)?;
    run_oracles(rt, alloc, gate, passes, oracles)
}

/// The oracles of the tables, in their order.
fn oracles_of(alloc: Global, tables: Vec<Table>) -> Result<Vec<Oracle>, Memory>
    ensures untold { IfOk result (λ oracles. oracles.items ≡ map untold tables.items) }
    ensures few { IfOk result (λ oracles. All HasFewRows oracles.items) }
    ensures even { IfOk result (λ oracles. All HasEvenRows oracles.items) }
{
    let mut oracles = Vec::with_capacity(alloc, tables.len())?;
    for table in tables {
        let oracle = Oracle::new(alloc, table)?;
        let _rows = oracle.table().rows();
        oracles.push(oracle)?;
    }
    Ok(oracles)
}

/// Lets all oracles work at the gate, and closes it once each has ended.
fn run_oracles<R: Threads + Wait + Sync>(
    rt: &R,
    alloc: Global,
    gate: Gate,
    passes: Vec<ExpertPass>,
    oracles: Vec<Oracle>,
) -> Result<ExplorationByOracles, Memory>
    requires passes { map badge passes.items ≡ roll gate }
    requires fresh { All IsFresh passes.items }
    requires some { 1 ≤ gate.passes }
    requires oracles { vec_len oracles ≡ gate.passes }
    requires no_row_dropped { All (λ oracle. oracle.conflicts ≡ no_conflict oracle.table) oracles.items }
    requires width { All (λ oracle. oracle.table.context.width ≡ gate.base.table.context.width) oracles.items }
    requires known { rows_respect gate.base.settings.known gate.base.table.context ≡ true }
    ensures { IfOk result (λ r. HasEnded gate oracles.items r.explore r.oracles.items r.spent) }
{
    let mut seats = seat_experts(alloc, passes, oracles)?;
    run_panel(rt, alloc, &gate, seats.as_mut_slice());
    if any_out_of_memory(&seats) {
        return Err(Memory);
    }
    let spent = any_spent(&seats);
    let (passes, oracles) = split_seats(alloc, seats)?;
    Ok(ExplorationByOracles {
        explore: gate.close(passes),
        oracles,
        spent,
    })
}

/// The passes and the oracles of the seats.
fn split_seats(
    alloc: Global,
    seats: Vec<Seat<Oracle>>,
) -> Result<(Vec<ExpertPass>, Vec<Oracle>), Memory>
    ensures passes { IfOk result (λ r. r.0.items ≡ map (λ seat. seat.pass) seats.items) }
    ensures experts { IfOk result (λ r. r.1.items ≡ map (λ seat. seat.expert) seats.items) }
{
    let passes = Vec::with_capacity(alloc, seats.len())?;
    let oracles = Vec::with_capacity(alloc, seats.len())?;
    Ok(split_into(seats, passes, oracles))
}

/// Puts the passes and the oracles of the seats into lists that have room for them.
fn split_into(
    seats: Vec<Seat<Oracle>>,
    mut passes: Vec<ExpertPass>,
    mut oracles: Vec<Oracle>,
) -> (Vec<ExpertPass>, Vec<Oracle>)
    requires empty { (passes.items ≡ []) × (oracles.items ≡ []) }
    requires room { (vec_len seats ≤ vec_capacity passes) × (vec_len seats ≤ vec_capacity oracles) }
    ensures passes { result.0.items ≡ map (λ seat. seat.pass) seats.items }
    ensures experts { result.1.items ≡ map (λ seat. seat.expert) seats.items }
{
    for seat in seats {
        let Seat {
            pass,
            expert,
            ended: _,
        } = seat;
        passes.push_reserved(pass);
        oracles.push_reserved(expert);
    }
    (passes, oracles)
}

/// Whether a seat ran out of memory.
fn any_out_of_memory(seats: &[Seat<Oracle>]) -> bool
    ensures { result ≡ list_any (λ seat. is_out_of_memory seat.ended) seats.now }
{
    seats.iter().any(|seat| is_out_of_memory(&seat.ended))
}

/// Whether a seat made all its turns before it was done.
fn any_spent(seats: &[Seat<Oracle>]) -> bool
    ensures { result ≡ list_any (λ seat. ended_spent seat.ended) seats.now }
{
    seats.iter().any(|seat| ended_spent(&seat.ended))
}

/// Whether the seat made all its turns before it was done.
fn ended_spent(ended: &Option<SeatEnd>) -> bool
    ensures { result ≡ ended_spent ended.now }
{
    matches!(ended, Some(SeatEnd::Spent))
}

/// Whether the seat ran out of memory.
fn is_out_of_memory(ended: &Option<SeatEnd>) -> bool
    ensures { result ≡ is_out_of_memory ended.now }
{
    matches!(ended, Some(SeatEnd::Memory))
}
