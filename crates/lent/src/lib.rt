// Opening over a lent list of interface records. Host::opening takes an array and a count; here the list is taken apart for it.
#![tactic(auto)]

ghost use Rattle.std.specs.Prelude.{◌≡◌, [], ◌∷◌};
ghost use Rattle.host.specs.Answers.{outcome};
ghost use Rattle.state.specs.Places.{interface_in};
ghost use Rattle.lent.specs.List.{first_four, opened_list};

use host::{Host, Stepped};
use state::Interface;
use std::array;

// For a caller with one record, who then lends nothing.
pub fn opening_one(x: Interface, store: &mut [u8]) -> Stepped
    ensures { outcome result store.new [] ≡ opened_list (x ∷ []) store.old }
{
    opening(&[x], store)
}

// Over 4 is over 4: in the count's byte a length of 256 would come round to 0.
#[tactic(auto, using(crate::proofs::Opened::stopped_tells))]
pub fn opening(list: &[Interface], store: &mut [u8]) -> Stepped
    ensures { outcome result store.new [] ≡ opened_list list.now store.old }
{
    let count = list.len().min(5) as u8;
    Host::opening(first_four(list), count, store)
}

// The first four places of the list.
fn first_four(list: &[Interface]) -> [Interface; 4]
    ensures { result ≡ first_four list.now }
{
    array::from_fn(|i| at(list, i))
}

// Record i of the list; no interface where the list is shorter.
fn at(list: &[Interface], i: usize) -> Interface
    ensures { result ≡ interface_in list.now i }
{
    list.get(i).copied().unwrap_or_default()
}
