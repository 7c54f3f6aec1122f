use hop_mac::{HopInput, MacKey, expiry, hmac_sha256, hop_is_live, hop_mac, mac_input, next_beta};

/// By test cases 1 to 4 of RFC 4231, with the key as bytes and as a [`MacKey`].
#[test]
fn authenticators_are_those_of_hmac_sha_256(rt: HostRuntime) {
    let counted: [u8; 25] = [
        1, 2, 3, 4, 5, 6, 7, 8, 9, 10, 11, 12, 13, 14, 15, 16, 17, 18, 19, 20, 21, 22, 23, 24, 25,
    ];
    let cases: [(&[u8], &[u8], [u8; 32]); 4] = [
        (
            &[0x0b; 20],
            b"Hi There",
            [
                0xb0, 0x34, 0x4c, 0x61, 0xd8, 0xdb, 0x38, 0x53, 0x5c, 0xa8, 0xaf, 0xce, 0xaf, 0x0b,
                0xf1, 0x2b, 0x88, 0x1d, 0xc2, 0x00, 0xc9, 0x83, 0x3d, 0xa7, 0x26, 0xe9, 0x37, 0x6c,
                0x2e, 0x32, 0xcf, 0xf7,
            ],
        ),
        (
            b"Jefe",
            b"what do ya want for nothing?",
            [
                0x5b, 0xdc, 0xc1, 0x46, 0xbf, 0x60, 0x75, 0x4e, 0x6a, 0x04, 0x24, 0x26, 0x08, 0x95,
                0x75, 0xc7, 0x5a, 0x00, 0x3f, 0x08, 0x9d, 0x27, 0x39, 0x83, 0x9d, 0xec, 0x58, 0xb9,
                0x64, 0xec, 0x38, 0x43,
            ],
        ),
        (
            &[0xaa; 20],
            &[0xdd; 50],
            [
                0x77, 0x3e, 0xa9, 0x1e, 0x36, 0x80, 0x0e, 0x46, 0x85, 0x4d, 0xb8, 0xeb, 0xd0, 0x91,
                0x81, 0xa7, 0x29, 0x59, 0x09, 0x8b, 0x3e, 0xf8, 0xc1, 0x22, 0xd9, 0x63, 0x55, 0x14,
                0xce, 0xd5, 0x65, 0xfe,
            ],
        ),
        (
            &counted,
            &[0xcd; 50],
            [
                0x82, 0x55, 0x8a, 0x38, 0x9a, 0x44, 0x3c, 0x0e, 0xa4, 0xcc, 0x81, 0x98, 0x99, 0xf2,
                0x08, 0x3a, 0x85, 0xf0, 0xfa, 0xa3, 0xe5, 0x78, 0xf8, 0x07, 0x7a, 0x2e, 0x3f, 0xf4,
                0x67, 0x29, 0x66, 0x5b,
            ],
        ),
    ];
    for (key, text, want) in cases.iter() {
        assert!(rt; key.len() <= 64);
        assert_eq!(rt; hmac_sha256(key, text), *want);
        assert_eq!(rt; MacKey::new(key).mac(text), *want);
    }
}

#[test]
fn a_hop_has_its_input_and_its_authenticator(rt: HostRuntime) {
    let input = [0, 0, 0x12, 0x34, 0, 0, 0, 0x64, 0, 0x3f, 0, 1, 0, 2, 0, 0];
    assert_eq!(rt; mac_input(0x1234, 100, 63, 1, 2), input);
    assert_eq!(rt; next_beta(0x1234, &[0xab, 0xcd, 0, 0, 0, 0]), 0xb9f9);
    let mac = [0x11, 0x0e, 0x4c, 0x1d, 0x3d, 0xad];
    assert_eq!(rt; hop_mac(b"k", 0xb396, 100, 63, 2, 0), mac);
    let hop = HopInput {
        beta: 0xb396,
        timestamp: 100,
        exp_time: 63,
        cons_ingress: 2,
        cons_egress: 0,
    };
    assert_eq!(rt; MacKey::new(b"k").hop_mac(&hop), mac);
}

/// With the timestamp 1000: at the last second at which a hop is live, and at the one after it.
#[test]
fn a_hop_is_live_up_to_its_last_second(rt: HostRuntime) {
    for (exp_time, last) in [(0, 1337), (255, 87_400)] {
        assert!(rt; hop_is_live(1000, exp_time, 0));
        assert!(rt; hop_is_live(1000, exp_time, last));
        assert!(rt; !hop_is_live(1000, exp_time, last + 1));
    }
    assert_eq!(rt; expiry(100, 63), 43_400);
}
