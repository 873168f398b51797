//! The ends of `serve`: it accepts the first ends of a listener in their order, and gives them back in that order.

ghost use Rattle.std.specs.Prelude.{◌≡◌, ◌≤◌, ◌⊎◌, ℕ, List, true, false, vec_len, IfOk, IfErr, OnOk};
ghost use Rattle.fca_io.specs.Faults.{Rose};
ghost use Rattle.fca_io.specs.Links.{IsWithinRoom, MayListenAt};
ghost use Rattle.command_io.specs.Readings.{SameCounts};
ghost use Rattle.command_io.specs.Causes.{UnlessListenerFault};
ghost use Rattle.serve_command.specs.Accepted.{TookFirst, GaveBack, HasRoomFor, FallsShort};

use command_io::Stop;
use fca_io::Listener;
use std::alloc::Global;

/// Listens at the address and accepts `count` ends. If an end cannot be accepted, those before it are given back.
pub fn ends_at<L: Listener>(
    alloc: Global,
    link: &mut L,
    address: &[u8],
    count: u8,
) -> Result<Vec<L::End>, Stop>
    requires closed { L.listens link.old ≡ false }
    requires some { 1 ≤ count }

    ensures taken { IfOk result (λ ends. TookFirst (L.ends link.old) (L.ends link.new) ends.items) }
    ensures count { IfOk result (λ ends. vec_len ends ≡ count) }
    ensures within { IsWithinRoom (L.ends link.old) }
    ensures listens { OnOk result ((L.listens link.new ≡ true) × MayListenAt (L.listens_at link.new) address.now) }
    ensures short { IfErr result (λ stop. FallsShort count (L.ends link.old) (L.ends link.new)
        (Rose (L.open_faults link.old address.now) (L.open_faults link.new address.now) ⊎ Rose (L.accept_faults link.old) (L.accept_faults link.new)) stop) }
    ensures quiet_open { UnlessListenerFault result (SameCounts (L.open_faults link.old) (L.open_faults link.new)) }
    ensures quiet_accept { UnlessListenerFault result (L.accept_faults link.new ≡ L.accept_faults link.old) }
{
    if link.open(address).is_err() {
        return Err(Stop::ListenerFault);
    }
    accept_ends(alloc, link, count)
}

/// Accepts `count` ends in their order. If an end cannot be accepted, those before it are given back.
fn accept_ends<L: Listener>(alloc: Global, link: &mut L, count: u8) -> Result<Vec<L::End>, Stop>
    requires listening { L.listens link.old ≡ true }
    requires room { IsWithinRoom (L.ends link.old) }

    ensures taken { IfOk result (λ ends. TookFirst (L.ends link.old) (L.ends link.new) ends.items) }
    ensures count { IfOk result (λ ends. vec_len ends ≡ count) }
    ensures short { IfErr result (λ stop. FallsShort count (L.ends link.old) (L.ends link.new)
        (Rose (L.accept_faults link.old) (L.accept_faults link.new)) stop) }

    ensures same { (L.listens link.new ≡ true) × (L.listens_at link.new ≡ L.listens_at link.old) }
    ensures only_rise { (other : List ℕ) → L.open_faults link.old other ≤ L.open_faults link.new other }
    ensures only_rise_accept { L.accept_faults link.old ≤ L.accept_faults link.new }
    ensures quiet_open { UnlessListenerFault result (SameCounts (L.open_faults link.old) (L.open_faults link.new)) }
    ensures quiet_accept { UnlessListenerFault result (L.accept_faults link.new ≡ L.accept_faults link.old) }
{
    let mut ends = Vec::with_capacity(alloc, usize::from(count))?;
    for _number in 0..count {
        match link.accept() {
            Ok(end) => ends.push_reserved(end),
            Err(_) => {
                give_back(link, ends);
                return Err(Stop::ListenerFault);
            }
        }
    }
    Ok(ends)
}

/// Gives the ends back in their order.
pub fn give_back<L: Listener>(link: &mut L, ends: Vec<L::End>)
    ensures given { HasRoomFor (L.ends link.old) (vec_len ends) → GaveBack (L.ends link.old) (L.ends link.new) ends.items }
    ensures same { (L.listens link.new ≡ L.listens link.old) × (L.listens_at link.new ≡ L.listens_at link.old) }
    ensures quiet_open { SameCounts (L.open_faults link.old) (L.open_faults link.new) }
    ensures quiet_accept { L.accept_faults link.new ≡ L.accept_faults link.old }
{
    for end in ends {
        link.give_back(end);
    }
}
