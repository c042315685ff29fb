//! Tests of a tagged hash, against a value of another program, and of reading bytes part by part.

use bar_bytes::{Reader, Short, Tagged};

const BYTES: [u8; 20] = [
    0x01, 0x02, 0x03, 0x04, 0x05, 0x06, 0x07, 0x08, 0x09, 0x0a, 0x0b, 0x0c, 0x0d, 0x0e, 0x0f, 0xba,
    0x47, 0xff, 0xfe, 0xfd,
];

#[test]
fn takes_so_many_bytes(rt: HostRuntime) {
    let mut reader = Reader::new(&BYTES);
    assert_eq!(rt; reader.take(17).map(<[u8]>::len), Ok(17));
    assert_eq!(rt; reader.rest(), 3);
    assert_eq!(rt; reader.take(4), Err(Short));
    assert_eq!(rt; reader.take(3), Ok([0xff, 0xfe, 0xfd].as_slice()));
}

// From Python's hashlib, over the 45 bytes of the tag, the id and the fields.
#[test]
fn hashes_tag_id_and_fields(rt: HostRuntime) {
    let id = [0x00, 0x11, 0x22, 0x33, 0x44, 0x55, 0x66, 0x77];
    let mut hash = Tagged::new(b"RND1", &id);
    hash.add(&[0, 0, 0, 7]);
    hash.add(&[
        0, 1, 2, 3, 4, 5, 6, 7, 8, 9, 10, 11, 12, 13, 14, 15, 16, 17, 18, 19, 20, 21, 22, 23, 24,
        25, 26, 27, 28, 29, 30, 31,
    ]);
    assert_eq!(rt;
        hash.finish(),
        [
            0xdd, 0x2b, 0xba, 0x06, 0x7f, 0x4b, 0x66, 0x46, 0x1c, 0xa5, 0xa8, 0xe2, 0x98, 0x45,
            0x8e, 0x9f, 0x5b, 0x36, 0x31, 0x01, 0xb9, 0xf1, 0x57, 0x8f, 0xfa, 0xe0, 0x6c, 0x75,
            0xa8, 0x02, 0x7f, 0x8e,
        ]
    );
}
