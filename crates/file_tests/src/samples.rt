// Files of all six kinds, worked out by hand from Faiss's layouts.
use file_parts::Reason;

/// A Flat of 8 bits with the code `ab`.
pub const FLAT: &[u8] = b"IBxF\x08\0\0\0\x01\0\0\0\x01\0\0\0\0\0\0\0\x01\x01\0\0\0\
    \x01\0\0\0\0\0\0\0\xab";

/// A Hash by keys of 8 bits, with the codes `0000`, `0001` and `0100` in two buckets.
pub const HASH: &[u8] = b"IBHh\x10\0\0\0\x02\0\0\0\x03\0\0\0\0\0\0\0\x01\x01\0\0\0\
    \x08\0\0\0\0\0\0\0\x02\0\0\0\0\0\0\0\x02\0\0\0\
    \x03\0\0\0\0\0\0\0\0\x06\x04\
    \x02\0\0\0\0\0\0\0\0\0\0\0\0\0\0\0\x01\0\0\0\0\0\0\0\
    \x04\0\0\0\0\0\0\0\0\0\0\x01\
    \x01\0\0\0\0\0\0\0\x02\0\0\0\0\0\0\0\
    \x02\0\0\0\0\0\0\0\x01\0";

/// The same Hash with its buckets in the other order.
pub const TURNED: &[u8] = b"IBHh\x10\0\0\0\x02\0\0\0\x03\0\0\0\0\0\0\0\x01\x01\0\0\0\
    \x08\0\0\0\0\0\0\0\x02\0\0\0\0\0\0\0\x02\0\0\0\
    \x03\0\0\0\0\0\0\0\x01\x01\x08\
    \x01\0\0\0\0\0\0\0\x02\0\0\0\0\0\0\0\
    \x02\0\0\0\0\0\0\0\x01\0\
    \x02\0\0\0\0\0\0\0\0\0\0\0\0\0\0\0\x01\0\0\0\0\0\0\0\
    \x04\0\0\0\0\0\0\0\0\0\0\x01";

/// A MultiHash by two keys of 8 bits, with the code `0100` three times.
pub const MULTI: &[u8] = b"IBHm\x10\0\0\0\x02\0\0\0\x03\0\0\0\0\0\0\0\x01\x01\0\0\0\
    IBxF\x10\0\0\0\x02\0\0\0\x03\0\0\0\0\0\0\0\x01\x01\0\0\0\
    \x06\0\0\0\0\0\0\0\x01\0\x01\0\x01\0\
    \x08\0\0\0\x02\0\0\0\0\0\0\0\
    \x02\0\0\0\x01\0\0\0\0\0\0\0\x02\0\0\0\0\0\0\0\x01\x93\
    \x02\0\0\0\x01\0\0\0\0\0\0\0\x02\0\0\0\0\0\0\0\0\x93";

/// A MultiHash by one key of 64 bits, with the codes of the numbers 1, 2^40 and 3.
pub const WIDE: &[u8] = b"IBHm\x40\0\0\0\x08\0\0\0\x03\0\0\0\0\0\0\0\x01\x01\0\0\0\
    IBxF\x40\0\0\0\x08\0\0\0\x03\0\0\0\0\0\0\0\x01\x01\0\0\0\
    \x18\0\0\0\0\0\0\0\
    \x01\0\0\0\0\0\0\0\0\0\0\0\0\x01\0\0\x03\0\0\0\0\0\0\0\
    \x40\0\0\0\x01\0\0\0\0\0\0\0\
    \x02\0\0\0\x03\0\0\0\0\0\0\0\x1a\0\0\0\0\0\0\0\
    \x01\0\0\0\0\0\0\0\x01\0\0\0\0\x10\0\0\x50\x03\0\0\0\0\0\0\0\x09";

/// An IVF of two lists with the centroids `00` and `ff`, and with the code `0f` on the first.
pub const IVF: &[u8] = b"IBwF\x08\0\0\0\x01\0\0\0\x01\0\0\0\0\0\0\0\x01\x01\0\0\0\
    \x02\0\0\0\0\0\0\0\x01\0\0\0\0\0\0\0\
    IBxF\x08\0\0\0\x01\0\0\0\x02\0\0\0\0\0\0\0\x01\x01\0\0\0\
    \x02\0\0\0\0\0\0\0\0\xff\
    \0\0\0\0\0\0\0\0\0\
    ilar\x02\0\0\0\0\0\0\0\x01\0\0\0\0\0\0\0\
    sprs\x02\0\0\0\0\0\0\0\0\0\0\0\0\0\0\0\x01\0\0\0\0\0\0\0\
    \x0f\0\0\0\0\0\0\0\0";

/// The Flat under the id -1.
pub const MAPPED: &[u8] = b"IBMp\x08\0\0\0\x01\0\0\0\x01\0\0\0\0\0\0\0\x01\x01\0\0\0\
    IBxF\x08\0\0\0\x01\0\0\0\x01\0\0\0\0\0\0\0\x01\x01\0\0\0\
    \x01\0\0\0\0\0\0\0\xab\
    \x01\0\0\0\0\0\0\0\xff\xff\xff\xff\xff\xff\xff\xff";

/// The IVF with a direct map, and with the code `ff` on the second list.
pub const DIRECT: &[u8] = b"IBwF\x08\0\0\0\x01\0\0\0\x02\0\0\0\0\0\0\0\x01\x01\0\0\0\
    \x02\0\0\0\0\0\0\0\x01\0\0\0\0\0\0\0\
    IBxF\x08\0\0\0\x01\0\0\0\x02\0\0\0\0\0\0\0\x01\x01\0\0\0\
    \x02\0\0\0\0\0\0\0\0\xff\
    \x01\x02\0\0\0\0\0\0\0\
    \0\0\0\0\0\0\0\0\0\0\0\0\x01\0\0\0\
    ilar\x02\0\0\0\0\0\0\0\x01\0\0\0\0\0\0\0\
    full\x02\0\0\0\0\0\0\0\x01\0\0\0\0\0\0\0\x01\0\0\0\0\0\0\0\
    \x0f\0\0\0\0\0\0\0\0\
    \xff\x01\0\0\0\0\0\0\0";

/// A Flat of 40,000 codes of 16 bits, up to the codes.
pub const MANY_FLAT: &[u8] = b"IBxF\x10\0\0\0\x02\0\0\0\x40\x9c\0\0\0\0\0\0\x01\x01\0\0\0\
    \x80\x38\x01\0\0\0\0\0";

/// A Hash of the same codes, all of them `0000`, up to the ids.
pub const MANY_HASH: &[u8] = b"IBHh\x10\0\0\0\x02\0\0\0\x40\x9c\0\0\0\0\0\0\x01\x01\0\0\0\
    \x08\0\0\0\0\0\0\0\x01\0\0\0\0\0\0\0\x10\0\0\0\
    \x03\0\0\0\0\0\0\0\0\x40\x9c\
    \x40\x9c\0\0\0\0\0\0";

/// An IVF of one list of the same codes, up to the codes.
pub const MANY_IVF: &[u8] = b"IBwF\x10\0\0\0\x02\0\0\0\x40\x9c\0\0\0\0\0\0\x01\x01\0\0\0\
    \x01\0\0\0\0\0\0\0\x01\0\0\0\0\0\0\0\
    IBxF\x10\0\0\0\x02\0\0\0\x01\0\0\0\0\0\0\0\x01\x01\0\0\0\
    \x02\0\0\0\0\0\0\0\0\0\
    \0\0\0\0\0\0\0\0\0\
    ilar\x01\0\0\0\0\0\0\0\x02\0\0\0\0\0\0\0\
    full\x01\0\0\0\0\0\0\0\x40\x9c\0\0\0\0\0\0";

/// A MultiHash of the same codes, up to the codes.
pub const MANY_MULTI: &[u8] = b"IBHm\x10\0\0\0\x02\0\0\0\x40\x9c\0\0\0\0\0\0\x01\x01\0\0\0\
    IBxF\x10\0\0\0\x02\0\0\0\x40\x9c\0\0\0\0\0\0\x01\x01\0\0\0\
    \x80\x38\x01\0\0\0\0\0";

/// What stands between its codes and the positions of its one bucket.
pub const MANY_POSITIONS: &[u8] = b"\x08\0\0\0\x01\0\0\0\0\0\0\0\
    \x10\0\0\0\x01\0\0\0\0\0\0\0\x83\x38\x01\0\0\0\0\0\
    \0\x40\x9c";

/// What is known of a file.
#[derive(Clone, Copy)]
pub struct Sample {
    pub bytes: &'static [u8],
    /// The number of its codes.
    pub count: u64,
    /// The offsets at which its fields begin.
    pub starts: &'static [u64],
    /// How many files are whole that have 00, 01, 7f or ff in one place, as another reader of the
    /// layouts counts them.
    pub accepted: u32,
}

pub const SAMPLES: [Sample; 7] = [
    Sample {
        bytes: FLAT,
        count: 1,
        starts: &[0, 4, 8, 12, 20, 21, 25, 33],
        accepted: 34,
    },
    Sample {
        bytes: HASH,
        count: 3,
        starts: &[
            0, 4, 8, 12, 20, 21, 25, 29, 33, 41, 45, 53, 56, 64, 72, 80, 88, 90, 92, 100, 108, 116,
        ],
        accepted: 186,
    },
    Sample {
        bytes: TURNED,
        count: 3,
        starts: &[
            0, 4, 8, 12, 20, 21, 25, 29, 33, 41, 45, 53, 56, 64, 72, 80, 82, 90, 98, 106, 114, 116,
        ],
        accepted: 187,
    },
    Sample {
        bytes: MULTI,
        count: 3,
        starts: &[
            0, 4, 8, 12, 20, 21, 25, 29, 33, 37, 45, 46, 50, 58, 60, 62, 64, 68, 72, 76, 80, 88,
            96, 98, 102, 110, 118,
        ],
        accepted: 102,
    },
    Sample {
        bytes: IVF,
        count: 1,
        starts: &[
            0, 4, 8, 12, 20, 21, 25, 33, 41, 45, 49, 53, 61, 62, 66, 74, 75, 76, 77, 85, 89, 97,
            105, 109, 117, 125, 133, 134,
        ],
        accepted: 179,
    },
    Sample {
        bytes: DIRECT,
        count: 2,
        starts: &[
            0, 4, 8, 12, 20, 21, 25, 33, 41, 45, 49, 53, 61, 62, 66, 74, 75, 76, 77, 85, 93, 101,
            105, 113, 121, 125, 133, 141, 149, 150, 158, 159,
        ],
        accepted: 180,
    },
    Sample {
        bytes: MAPPED,
        count: 1,
        starts: &[0, 4, 8, 12, 20, 21, 25, 29, 33, 37, 45, 46, 50, 58, 59, 67],
        accepted: 96,
    },
];

/// Some bytes from a place on, and the fault of the file that has them there.
pub type Change<'a> = (usize, &'a [u8], u64, Reason);

/// Faults of the Flat.
pub const FLAT_FAULTS: &[Change<'static>] = &[
    (0, b"IBHf", 0, Reason::LeftOut),
    (0, b"IBxx", 0, Reason::Fourcc),
    (4, b"\x0c", 4, Reason::Dim),
    (8, b"\x02", 8, Reason::CodeSize),
    (12, b"\xff\xff\xff\xff\xff\xff\xff\xff", 12, Reason::Count),
    (12, b"\0\0\0\0\0\x01\0\0", 12, Reason::Load),
    (20, b"\x02", 20, Reason::Flag),
    (21, b"\x02", 21, Reason::Metric),
    (25, b"\x02", 25, Reason::VectorSize),
];

/// Faults of the Hash.
pub const HASH_FAULTS: &[Change<'static>] = &[
    (12, b"\0\0\0\x01", 25, Reason::Load),
    (25, b"\0", 25, Reason::Number),
    (25, b"\x11", 25, Reason::Number),
    (29, b"\x09", 29, Reason::Number),
    (33, b"\0", 33, Reason::Number),
    (33, b"\x04", 33, Reason::Number),
    (41, b"\x20", 41, Reason::Bits),
    (45, b"\x04", 45, Reason::VectorSize),
    (
        41,
        b"\x03\0\0\0\x03\0\0\0\0\0\0\0\0\x0a\x08",
        53,
        Reason::Bits,
    ),
    (53, b"\0\x06\x14", 53, Reason::Padding),
    (53, b"\0\x02\x04", 53, Reason::DuplicateKey),
    (53, b"\0\x06\0", 53, Reason::EmptyBucket),
    (53, b"\0\x05\x04", 53, Reason::ListSizes),
    (56, b"\x03", 56, Reason::VectorSize),
    (80, b"\x05", 80, Reason::VectorSize),
    (88, b"\x01", 88, Reason::WrongBucket),
    (116, b"\x02\0", 116, Reason::WrongBucket),
];

/// Faults of the MultiHash.
pub const MULTI_FAULTS: &[Change<'static>] = &[
    (37, b"\x02", 37, Reason::Count),
    (76, b"\x03", 76, Reason::Bits),
    (96, b"\x01\x53", 96, Reason::Positions),
    (96, b"\x02\x93", 96, Reason::WrongBucket),
];

/// Faults of the MultiHash by a key of 64 bits.
pub const WIDE_FAULTS: &[Change<'static>] = &[
    (122, b"\x05", 114, Reason::WrongBucket),
    (130, b"\x10", 114, Reason::Positions),
    (130, b"\x90", 114, Reason::WrongBucket),
    (139, b"\x0d", 114, Reason::Positions),
    (139, b"\x19", 114, Reason::Padding),
];

/// Faults of the IVF.
pub const IVF_FAULTS: &[Change<'static>] = &[
    (25, b"\0", 25, Reason::Number),
    (33, b"\0", 33, Reason::Number),
    (53, b"\x01", 53, Reason::Count),
    (76, b"\x01", 77, Reason::VectorSize),
    (85, b"il00", 85, Reason::LeftOut),
    (88, b"x", 85, Reason::Fourcc),
    (109, b"\0", 109, Reason::ListSizes),
    (109, b"\x01", 109, Reason::VectorSize),
    (109, b"\x04", 109, Reason::VectorSize),
    (117, b"\x02", 117, Reason::ListSizes),
    (125, b"\x02", 125, Reason::ListSizes),
    (125, b"\0", 125, Reason::ListSizes),
];

/// Faults of the IVF with a direct map.
pub const DIRECT_FAULTS: &[Change<'static>] = &[
    (76, b"\x02", 76, Reason::LeftOut),
    (76, b"\x03", 76, Reason::Number),
    (
        85,
        b"\0\0\0\0\x01\0\0\0\0\0\0\0\0\0\0\0",
        150,
        Reason::DirectMap,
    ),
    (133, b"\x03", 133, Reason::ListSizes),
    (133, b"\0", 125, Reason::ListSizes),
    (150, b"\x02", 150, Reason::IdRange),
];

/// Faults of the IDMap.
pub const MAPPED_FAULTS: &[Change<'static>] = &[
    (25, b"IBM2", 25, Reason::LeftOut),
    (59, b"\x02", 59, Reason::VectorSize),
];
