// The opening check (000, 2.3.24), a function for each of its clauses, and whose an address is.
// stays: functions and no methods, here and in the modules above: docs and the theorem `one_result` name the public ones' paths.
ghost use Rattle.std.specs.Prelude.{◌≡◌, ◌<◌, [], ◌∷◌};
ghost use Rattle.std.specs.List.{list_any};
ghost use Rattle.state.specs.Places.{no_interface};
ghost use Rattle.state.specs.Interfaces.{addressed, member, in_one_net, distinct_within, acceptable, usable, interface_ok, holds, lacks, pair_apart, place_ok, opening_ok, ours_of, own, ours, holder_id};

use crate::Interface;
use net::InterfaceId;

// ---- one interface

// What stands in an unused place.
pub fn no_interface() -> Interface
    ensures { result ≡ no_interface }
{
    Interface::default()
}

// The four places for an address.
fn addresses(x: Interface) -> [u32; 4]
    ensures { result ≡ (x.first ∷ x.second ∷ x.third ∷ x.fourth ∷ []) }
{
    [x.first, x.second, x.third, x.fourth]
}

// The first is there, and none stands behind a gap.
#[tactic(auto, unfolding(crate::specs::Interfaces::addressed, laws::specs::Below::all_below))]
fn is_addressed(x: Interface) -> bool
    ensures { result ≡ addressed x }
{
    x.first != 0 && (x.second != 0 || x.third == 0) && (x.third != 0 || x.fourth == 0)
}

fn is_member(x: Interface, a: u32) -> bool
    ensures { result ≡ member x a }
{
    a == 0 || net::is_agreed(a, x.first, x.mask)
}

fn in_one_net(x: Interface) -> bool
    ensures { result ≡ in_one_net x }
{
    addresses(x).iter().all(|a| is_member(x, *a))
}

// No address stands in two places of one interface.
fn is_distinct(x: Interface) -> bool
    ensures { result ≡ distinct_within x }
{
    let at = addresses(x);
    at.iter()
        .enumerate()
        .all(|(p, a)| *a == 0 || !at[..p].contains(a))
}

fn is_acceptable(a: u32) -> bool
    ensures { result ≡ acceptable a }
{
    a == 0 || !net::is_stray(a)
}

fn is_usable(x: Interface) -> bool
    ensures { result ≡ usable x }
{
    addresses(x).iter().all(|a| is_acceptable(*a))
}

fn is_interface(x: Interface) -> bool
    ensures { result ≡ interface_ok x }
{
    x.id != InterfaceId(0) && is_addressed(x) && in_one_net(x) && is_distinct(x) && is_usable(x)
}

// ---- two interfaces

pub fn has(x: Interface, a: u32) -> bool
    ensures { result ≡ holds x a }
{
    addresses(x).contains(&a)
}

fn is_lacking(x: Interface, a: u32) -> bool
    ensures { result ≡ lacks x a }
{
    a == 0 || !has(x, a)
}

// Other ids, and no address in common.
#[tactic(auto, unfolding(crate::specs::Interfaces::pair_apart))]
fn are_apart(x: Interface, y: Interface) -> bool
    ensures { result ≡ pair_apart x y }
{
    x.id != y.id && addresses(y).iter().all(|a| is_lacking(x, *a))
}

// ---- all of them: each place, and each with those before it

// The place i of the array, of which n are in use: an interface apart from those before it, or nothing.
#[tactic(auto, using(crate::proofs::Lists::used_place, crate::proofs::Lists::unused_place))]
fn is_place(interfaces: &[Interface; 4], n: usize, i: usize) -> bool
    requires { i < 4 }
    ensures { result ≡ place_ok interfaces.now n i }
{
    let x = interfaces[i];
    if i < n {
        is_interface(x) && interfaces[..i].iter().all(|w| are_apart(*w, x))
    } else {
        x == Interface::default()
    }
}

// The opening check: n interfaces in an array of 4.
#[tactic(auto, unfolding(crate::specs::Interfaces::opening_ok))]
pub fn are_accepted(interfaces: &[Interface; 4], n: usize) -> bool
    ensures { result ≡ opening_ok interfaces.now n }
{
    n <= 4 && (0..4).all(|i| is_place(interfaces, n, i))
}

// ---- whose an address is

// Some interface has the address; where a place is absent it has 0.
fn is_held(interfaces: &[Interface; 4], a: u32) -> bool
    ensures { result ≡ list_any (λ x. holds x a) interfaces.now }
{
    interfaces.iter().any(|x| has(*x, a))
}

// An address of one of the interfaces.
#[tactic(auto, using(crate::proofs::Lists::any_four), unfolding(crate::specs::Interfaces::own))]
pub fn is_own(interfaces: &[Interface; 4], a: u32) -> bool
    ensures { result ≡ own interfaces.now a }
{
    a != 0 && is_held(interfaces, a)
}

// All of 127/8 is ours too.
pub fn is_ours(interfaces: &[Interface; 4], a: u32) -> bool
    ensures { result ≡ ours interfaces.now a }
{
    net::is_loopback(a) || is_own(interfaces, a)
}

// The same, of the four one by one.
#[tactic(auto, unfolding(crate::specs::Interfaces::own))]
pub fn is_ours_of(w: Interface, x: Interface, y: Interface, z: Interface, a: u32) -> bool
    ensures { result ≡ ours_of w x y z a }
{
    is_ours(&[w, x, y, z], a)
}

// The id of the first interface that has the address, one of our own; 0 where none has.
// stays: 0 for none, as document 01 has it for what is absent, and the definition `holder_id`.
pub fn holder(interfaces: &[Interface; 4], a: u32) -> InterfaceId
    ensures { result ≡ holder_id interfaces.now a }
{
    interfaces
        .iter()
        .find(|x| has(**x, a))
        .map_or(InterfaceId(0), |x| x.id)
}
