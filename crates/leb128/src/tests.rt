//! Numbers with the bytes that they must have.

use super::*;
use std::process::Abort;

fn unsigned_is(rt: &impl Abort, val: u64, bytes: &[u8]) {
    let leb = Leb128::unsigned(val);
    assert!(rt; leb.bytes() == bytes);
    assert_eq!(rt; leb.len(), bytes.len());
    assert_eq!(rt; uleb128_size(val), bytes.len());
}

fn signed_is(rt: &impl Abort, val: i64, bytes: &[u8]) {
    let leb = Leb128::signed(val);
    assert!(rt; leb.bytes() == bytes);
    assert_eq!(rt; leb.len(), bytes.len());
    assert_eq!(rt; sleb128_size(val), bytes.len());
}

// The examples of DWARF 5, section 7.6, then the first and the last number of some lengths.
#[test]
fn unsigned_numbers(rt: HostRuntime) {
    let cases: [(u64, &[u8]); 11] = [
        (2, &[0x02]),
        (127, &[0x7f]),
        (128, &[0x80, 0x01]),
        (129, &[0x81, 0x01]),
        (12857, &[0xb9, 0x64]),
        (0, &[0x00]),
        (0x3fff, &[0xff, 0x7f]),
        (0x4000, &[0x80, 0x80, 0x01]),
        (
            0x7fff_ffff_ffff_ffff,
            &[0xff, 0xff, 0xff, 0xff, 0xff, 0xff, 0xff, 0xff, 0x7f],
        ),
        (
            0x8000_0000_0000_0000,
            &[0x80, 0x80, 0x80, 0x80, 0x80, 0x80, 0x80, 0x80, 0x80, 0x01],
        ),
        (
            u64::MAX,
            &[0xff, 0xff, 0xff, 0xff, 0xff, 0xff, 0xff, 0xff, 0xff, 0x01],
        ),
    ];
    for case in &cases {
        unsigned_is(&rt, case.0, case.1);
    }
}

// The examples of DWARF 5, section 7.6, then the first and the last number of some lengths.
#[test]
fn signed_numbers(rt: HostRuntime) {
    let cases: [(i64, &[u8]); 15] = [
        (2, &[0x02]),
        (-2, &[0x7e]),
        (127, &[0xff, 0x00]),
        (-127, &[0x81, 0x7f]),
        (128, &[0x80, 0x01]),
        (-128, &[0x80, 0x7f]),
        (129, &[0x81, 0x01]),
        (-129, &[0xff, 0x7e]),
        (0, &[0x00]),
        (63, &[0x3f]),
        (64, &[0xc0, 0x00]),
        (-64, &[0x40]),
        (-65, &[0xbf, 0x7f]),
        (
            i64::MAX,
            &[0xff, 0xff, 0xff, 0xff, 0xff, 0xff, 0xff, 0xff, 0xff, 0x00],
        ),
        (
            i64::MIN,
            &[0x80, 0x80, 0x80, 0x80, 0x80, 0x80, 0x80, 0x80, 0x80, 0x7f],
        ),
    ];
    for case in &cases {
        signed_is(&rt, case.0, case.1);
    }
}
