//! Bodies of records and their bytes. What is expected was worked out by hand from the format.

ghost use Rattle.std.specs.Prelude.{◌≡◌, nat_lt};
ghost use Rattle.std.specs.List.{list_all};

use lb_base::{List, Outcome, Path, Tag, Value, Words};
use rec_codec::{
    Body, DecodeFault, EncodeFault, decode, encode, key_tag, read_is_spelled, tags_of,
};
use std::alloc::Global;
use std::test::Fail;

/// Bytes that spell no body, and the offset at which they cease to.
const DAMAGED: [(&[u8], usize); 11] = [
    (&[], 0),
    (&[3, 13], 0),
    (&[2, 13], 1),
    (&[1, 17], 1),
    (&[1, 13, 0], 2),
    (&[1, 14, 0], 2),
    (&[2, 17], 2),
    (&[2, 4], 2),
    (&[1, 2, 0], 2),
    (&[1, 2, 1, 0, 0, 0, 0], 3),
    (&[1, 2, 1, 0, 0, 0, 1, 0], 7),
];

/// A body of each kind, of both formats, by its bytes.
const SPELLED: [&[u8]; 18] = [
    &[1, 1, 1, 0, 0, 0, 1, 0, 1, 102, 1, 0],
    &[
        1, 2, 4, 0, 15, 255, 255, 0, 0, 0, 1, 0, 0, 0, 2, 0, 0, 15, 255,
    ],
    &[1, 3, 1, 0, 0, 0, 1, 0, 0, 0, 0, 0, 0, 0, 1, 0, 1, 120],
    &[
        1, 4, 1, 0, 0, 0, 1, 0, 0, 0, 0, 0, 0, 0, 1, 0, 0, 0, 0, 0, 0, 0, 1, 0, 1, 120,
    ],
    &[
        1, 5, 1, 0, 0, 0, 1, 0, 0, 0, 0, 0, 0, 0, 1, 0, 0, 0, 0, 0, 0, 15, 255, 0, 1, 103, 2, 2, 0,
        1, 97, 0,
    ],
    &[
        1, 6, 1, 0, 0, 0, 1, 0, 0, 0, 0, 0, 0, 0, 2, 0, 0, 0, 0, 0, 0, 0, 1,
    ],
    &[
        1, 7, 1, 0, 0, 0, 1, 0, 0, 0, 0, 0, 0, 0, 1, 0, 1, 113, 1, 255, 255, 255, 255, 255, 255,
        255, 255,
    ],
    &[1, 8, 1, 0, 0, 0, 1, 0, 0, 0, 0, 0, 0, 0, 1, 0, 1, 113],
    &[
        1, 9, 1, 0, 0, 0, 1, 0, 0, 0, 0, 0, 0, 0, 1, 2, 0, 1, 110, 0, 1, 109,
    ],
    &[
        1, 10, 1, 0, 0, 0, 1, 0, 0, 0, 0, 0, 0, 0, 2, 0, 0, 0, 0, 0, 0, 0, 7, 1, 0, 1, 110, 1, 0,
        1, 110, 0,
    ],
    &[1, 11, 1, 0, 0, 0, 1, 0, 0, 0, 0, 0, 0, 0, 3, 1, 9],
    &[1, 12, 2],
    &[1, 13],
    &[1, 14, 0, 0, 0, 0, 0, 0, 0, 4],
    &[
        1, 15, 0, 255, 255, 255, 255, 255, 255, 255, 0, 0, 0, 0, 0, 0, 0, 9,
    ],
    &[1, 16, 0, 2, 0, 255],
    &[
        2, 4, 1, 0, 0, 0, 1, 0, 0, 0, 0, 0, 0, 0, 1, 0, 0, 0, 0, 0, 0, 0, 1, 0, 1, 120, 0,
    ],
    &[
        2, 17, 1, 0, 0, 0, 1, 0, 0, 0, 0, 0, 0, 0, 1, 2, 0, 1, 97, 0, 1, 98,
    ],
];

/// True of every slice: what a law on lists of numbers asks of bytes.
fn are_bytes(bytes: &[u8]) -> bool
    ensures { result ≡ list_all (λ b. nat_lt b 256) bytes.now }
{
    bytes.iter().all(|b| u16::from(*b) < 256)
}

/// Whether bytes are decoded, and the body is encoded to them again.
fn comes_round(alloc: Global, bytes: &[u8]) -> Result<bool, EncodeFault> {
    if !are_bytes(bytes) {
        return Ok(false);
    }
    let Ok(body) = decode(alloc, bytes) else {
        return Ok(false);
    };
    read_is_spelled();
    let again = encode(alloc, &body);
    drop(body);
    Ok(again?.as_slice() == bytes)
}

#[test]
fn each_kind_comes_round(rt: HostRuntime) -> Result<(), Fail> {
    for bytes in &SPELLED {
        assert!(rt; comes_round(rt.alloc(), bytes)?);
    }
    Ok(())
}

#[test]
fn damaged_bytes_tell_the_offset(rt: HostRuntime) {
    for (bytes, offset) in &DAMAGED {
        assert_eq!(rt;
            decode(rt.alloc(), bytes).err(),
            Some(DecodeFault::Bad(*offset))
        );
    }
}

#[test]
fn a_whole_body_is_decoded(rt: HostRuntime) {
    assert!(rt; matches!(decode(rt.alloc(), &[1, 13]), Ok(Body::SwitchEnd)));
}

#[test]
fn a_floor_is_spelled(rt: HostRuntime) -> Result<(), Fail> {
    let body = Body::Trim { w: 4 };
    let bytes = encode(rt.alloc(), &body);
    drop(body);
    assert_eq!(rt;
        bytes?.as_slice(),
        [1, 14, 0, 0, 0, 0, 0, 0, 0, 4].as_slice()
    );
    Ok(())
}

#[test]
fn an_end_is_spelled(rt: HostRuntime) -> Result<(), Fail> {
    let path = Path::request(1).ok_or("1 is a request")?;
    let body = Body::Finish {
        path,
        index: 3,
        outcome: Outcome::Good(Value::Int(5)),
    };
    let bytes = encode(rt.alloc(), &body);
    drop(body);
    let spelled = [
        1, 11, 1, 0, 0, 0, 1, 0, 0, 0, 0, 0, 0, 0, 3, 0, 1, 0, 0, 0, 0, 0, 0, 0, 5,
    ];
    assert_eq!(rt; bytes?.as_slice(), spelled.as_slice());
    Ok(())
}

#[test]
fn a_short_write_holds_its_value(rt: HostRuntime) -> Result<(), Fail> {
    let path = Path::request(1).ok_or("1 is a request")?;
    let key = Words::from_text(rt.alloc(), "x")?;
    let body = Body::Write {
        path,
        index: 1,
        place: 1,
        key,
        value: Some(Value::Int(5)),
    };
    let bytes = encode(rt.alloc(), &body);
    drop(body);
    let spelled = [
        2, 4, 1, 0, 0, 0, 1, 0, 0, 0, 0, 0, 0, 0, 1, 0, 0, 0, 0, 0, 0, 0, 1, 0, 1, 120, 1, 0, 0, 0,
        0, 0, 0, 0, 5,
    ];
    assert_eq!(rt; bytes?.as_slice(), spelled.as_slice());
    Ok(())
}

#[test]
fn a_step_has_its_tag(rt: HostRuntime) -> Result<(), Fail> {
    let path = Path::request(1).ok_or("1 is a request")?;
    let body = Body::Init { path };
    let tags = tags_of(rt.alloc(), &body);
    drop(body);
    assert_eq!(rt;
        tags?.as_slice(),
        [Tag(0x0200_0010_0000_0000), Tag(0x0900_0000_0000_0000)].as_slice()
    );
    Ok(())
}

#[test]
fn a_name_is_folded(rt: HostRuntime) {
    assert_eq!(rt; key_tag(5, "a"), Tag(0x0563_dc4c_8601_ec8c));
}

/// A user's record of so many bytes, spelled.
fn spell_user(alloc: Global, len: usize) -> Result<Result<List<u8>, EncodeFault>, Fail> {
    let bytes = List::from_vec(vec![in alloc; 0u8; len]?);
    if !are_bytes(bytes.as_slice()) {
        return Err(Fail::from("each u8 is a byte"));
    }
    let body = Body::User { bytes };
    let spelled = encode(alloc, &body);
    drop(body);
    Ok(spelled)
}

#[test]
fn a_record_has_at_most_4096_bytes(rt: HostRuntime) -> Result<(), Fail> {
    let longest = spell_user(rt.alloc(), 4_092)?;
    assert_eq!(rt; longest.ok().map(|bytes| bytes.len()), Some(4_096));
    let longer = spell_user(rt.alloc(), 4_093)?;
    assert_eq!(rt; longer.err(), Some(EncodeFault::TooLong));
    Ok(())
}
