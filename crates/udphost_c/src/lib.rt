// What C calls: each export is udphost's function of that name, with its promise.
#![tactic(auto)]

ghost use Rattle.std.specs.Prelude.{◌≡◌, []};
ghost use Rattle.lent.specs.List.{opened_list};
ghost use Rattle.udphost.specs.Requests.{crossing, crossed_of, stepping};

use state::Interface;
use udphost::{Record, Reply, Request};

// Opening over a lent list of interface records. After 2 or 17 the record is that of an ended host, the store untouched.
#[unsafe(no_mangle)]
pub extern "C" fn udphost_open(list: &[Interface], store: &mut [u8]) -> Reply
    ensures { crossing result store.new [] ≡ crossed_of (opened_list list.now store.old) }
{
    udphost::udphost_open(list, store)
}

// One step. A record whose thread's numbers are none is answered with 1, a kind that is none with 1, 2 or 6.
#[unsafe(no_mangle)]
pub extern "C" fn udphost_step(
    kept: Record,
    store: &mut [u8],
    request: Request,
    payload: &[u8],
    buffer: &mut [u8],
) -> Reply
    ensures { crossing result store.new buffer.new ≡ stepping kept store.old request payload.now buffer.old }
{
    udphost::udphost_step(kept, store, request, payload, buffer)
}
