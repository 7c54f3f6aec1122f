//! Three ASes in a row with one router each, as lines and their answers: a core AS, its child, and
//! the child of that.

use crate::table::{Row, answers_of, lines_of};
use hop_mac::{hop_mac, next_beta};
use std::alloc::Global;
use std::test::Fail;

/// The row up to an answer with the path of its last AS to its first. Its segment is made with
/// accumulator 4660, and live up to second 22600.
pub(crate) fn row_asked() -> [Row; 6] {
    [
        (worked::row(), "topology ok"),
        (r#"{"do":"tick","now":1000}"#, "ok"),
        (
            r#"{"do":"originate","ia":"1-ff00:0:110","egress":1,"beta0":4660}"#,
            "beacon 0",
        ),
        (
            r#"{"do":"extend","beacon":0,"ia":"1-ff00:0:111","egress":2}"#,
            "beacon 1",
        ),
        (
            r#"{"do":"terminate","beacon":1,"ia":"1-ff00:0:112"}"#,
            "segment new",
        ),
        (
            r#"{"do":"ask","src":"1-ff00:0:112","dst":"1-ff00:0:110","limit":4}"#,
            "ask 0 1; 1-ff00:0:112#0,1 1-ff00:0:111#2,1 1-ff00:0:110#1,0",
        ),
    ]
}

/// Two packets by that path.
pub(crate) fn sent_twice() -> [Row; 2] {
    [
        (
            r#"{"do":"send","ask":0,"path":0,"payload":"6869"}"#,
            "packet 0",
        ),
        (
            r#"{"do":"send","ask":0,"path":0,"payload":"6869"}"#,
            "packet 1",
        ),
    ]
}

/// The row up to the first of these packets.
pub(crate) fn row_sent() -> [Row; 7] {
    let [topology, tick, originate, extend, terminate, ask] = row_asked();
    let [send, _] = sent_twice();
    [topology, tick, originate, extend, terminate, ask, send]
}

/// The turns of that packet.
pub(crate) fn row_turns() -> [Row; 3] {
    [
        (r#"{"do":"turn","packet":0}"#, "link 1"),
        (r#"{"do":"turn","packet":0}"#, "link 1"),
        (r#"{"do":"turn","packet":0}"#, "delivered"),
    ]
}

/// All lines of the row, its packet's turns and what is asked of it then, and their answers.
pub(crate) fn row_and_replies(alloc: Global) -> Result<(String, String), Fail> {
    let sent = row_sent();
    let [first, second, third] = row_turns();
    let shown = (
        r#"{"do":"show","packet":0}"#,
        "delivered; 1-ff00:0:112#0,1 1-ff00:0:111#2,1 1-ff00:0:110#1,0",
    );
    let late = (r#"{"do":"turn","packet":0}"#, "no 131 NotInFlight");
    let told: [Row; 5] = [first, second, third, shown, late];
    let tables: [&[Row]; 2] = [&sent, &told];
    Ok((lines_of(alloc, &tables)?, answers_of(alloc, &tables)?))
}

/// The authenticators of the row's segment.
pub(crate) fn authenticators() -> [[u8; 6]; 3] {
    let first = hop_mac(b"a0", 4660, 1000, 63, 0, 1);
    let beta = next_beta(4660, &first);
    let second = hop_mac(b"a1", beta, 1000, 63, 1, 2);
    let third = hop_mac(b"a2", next_beta(beta, &second), 1000, 63, 1, 0);
    [first, second, third]
}

/// The authenticators of its last hop under the key of its AS and under two later ones.
fn last_authenticators() -> [[u8; 6]; 3] {
    let [first, second, third] = authenticators();
    let beta = next_beta(next_beta(4660, &first), &second);
    let under = |key: &[u8; 2]| hop_mac(key, beta, 1000, 63, 1, 0);
    [third, under(b"a3"), under(b"a4")]
}

/// So a packet that is refused after two changes of the key is not taken by chance.
#[test]
fn the_authenticators_of_three_keys_differ(rt: HostRuntime) {
    let [first, second, third] = last_authenticators();
    assert!(rt; first != second && second != third && first != third);
}
