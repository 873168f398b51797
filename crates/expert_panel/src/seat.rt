//! One expert's place in a panel.

ghost use Rattle.std.specs.Prelude.{◌≡◌, ◌≤◌, [], IfOk, map, vec_len, vec_capacity};

use crate::end::SeatEnd;
use expert_gate::ExpertPass;
use fca_model::Memory;
use std::alloc::Global;

/// An expert's place in a panel.
#[derive(Drop)]
pub struct Seat<X> {
    /// The pass that the expert works by.
    pub pass: ExpertPass,
    /// The expert.
    pub expert: X,
    /// Why the seat ended, once the panel was run.
    pub ended: Option<SeatEnd>,
}

/// Makes a seat for each pass, with the expert at the same place of its list.
pub fn seat_experts<X: Drop>(
    alloc: Global,
    passes: Vec<ExpertPass>,
    experts: Vec<X>,
) -> Result<Vec<Seat<X>>, Memory>
    requires { vec_len passes ≡ vec_len experts }
    ensures passes { IfOk result (λ seats. map (λ seat. seat.pass) seats.items ≡ passes.items) }
    ensures experts { IfOk result (λ seats. map (λ seat. seat.expert) seats.items ≡ experts.items) }
{
    let seats = Vec::with_capacity(alloc, passes.len())?;
    Ok(fill_seats(seats, passes, experts))
}

/// Puts the seats into a list that has room for them.
fn fill_seats<X: Drop>(
    mut seats: Vec<Seat<X>>,
    passes: Vec<ExpertPass>,
    experts: Vec<X>,
) -> Vec<Seat<X>>
    requires empty { seats.items ≡ [] }
    requires many { vec_len passes ≡ vec_len experts }
    requires room { vec_len passes ≤ vec_capacity seats }
    ensures passes { map (λ seat. seat.pass) result.items ≡ passes.items }
    ensures experts { map (λ seat. seat.expert) result.items ≡ experts.items }
{
    let mut experts = experts.into_iter();
    for pass in passes {
        let Some(expert) = experts.next() else {
            unreachable!()
        };
        seats.push_reserved(Seat {
            pass,
            expert,
            ended: None,
        });
    }
    seats
}
