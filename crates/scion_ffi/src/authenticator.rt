//! The authenticator of a hop.

ghost use Rattle.std.specs.Prelude.{◌≡◌};
ghost use Rattle.scion_topology.specs.Keys.{key_from};
ghost use Rattle.hop_mac.specs.Hop.{authenticator};
ghost use Rattle.scion_ffi.specs.Authenticator.{IsMacAnswered};

use crate::answer::{DONE, ScionAnswer, plain, view_answer};
use hop_mac::HopInput;
use scion_topology::Key;

/// Writes the authenticator of a hop of these values under this key to `mac`.
///
/// If the key is empty or has more than 64 bytes, `code` is 11 and `mac` is as before.
#[unsafe(no_mangle)]
pub extern "C" fn scion_hop_mac(
    key: &[u8],
    beta: u16,
    timestamp: u32,
    exp_time: u8,
    cons_ingress: u16,
    cons_egress: u16,
    mac: &mut [u8; 6],
) -> ScionAnswer
    ensures { IsMacAnswered (key_from key.now)
        (λ key. authenticator key beta timestamp exp_time cons_ingress cons_egress)
        mac.old mac.new result }
{
    let key = match Key::new(key) {
        Ok(key) => key,
        Err(fault) => return view_answer(fault),
    };
    *mac = key.hop_mac(&HopInput {
        beta,
        timestamp,
        exp_time,
        cons_ingress,
        cons_egress,
    });
    plain(DONE)
}
