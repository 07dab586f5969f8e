// The source that a destination is reached from (000, 2.3.7: outroute).
ghost use Rattle.std.specs.Prelude.{◌≡◌};
ghost use Rattle.matching.specs.Routes.{route_source};

use state::Interface;

// 127.0.0.1.
const LOCALHOST: u32 = 0x7F00_0001;

// 127.0.0.1 for loopback; else the primary of the first of n interfaces whose primary agrees with the
// destination under its mask, else the first one's; 0 where there is no interface.
// stays: 0 for none, as document 01 has it for what is absent, and the definition `route_source`.
#[tactic(auto, unfolding(crate::specs::Routes::route_source))]
pub fn source(interfaces: &[Interface; 4], n: usize, dst: u32) -> u32
    ensures { result ≡ route_source interfaces.now n dst }
{
    if net::is_loopback(dst) {
        return LOCALHOST;
    }
    // An array of 4 has no more than 4 in use, whatever the count says.
    let used = &interfaces[..n.min(4)];
    let reaching = used.iter().find(|x| net::is_agreed(x.first, dst, x.mask));
    reaching.or(used.first()).map_or(0, |x| x.first)
}
