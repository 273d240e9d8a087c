// Factory texts: those that name an index, and what is said of the others.
use crate::row::Row;
use faissb_core::Status;

pub static ROWS: [Row; 5] = [
    // Every kind, by itself and under ids, with the least and the greatest of its numbers.
    Row {
        pairs: &[
            ("new 65536 BFlat", "ok"),
            ("new 65536 BIVF1", "ok"),
            ("new 65536 BHash1", "ok"),
            ("new 65536 BHash64", "ok"),
            ("new 65536 BHash1x1", "ok"),
            ("new 65536 BHash1024x64", "ok"),
            ("new 65536 IDMap,BFlat", "ok"),
            ("new 65536 IDMap2,BFlat", "ok"),
            ("new 16 IDMap,BIVF4", "ok"),
            ("new 16 IDMap2,BIVF4", "ok"),
            ("new 16 IDMap,BHash8", "ok"),
            ("new 16 IDMap2,BHash8", "ok"),
            ("new 16 IDMap,BHash2x8", "ok"),
            ("new 16 IDMap2,BHash2x8", "ok"),
        ],
        status: Status::Fine,
    },
    // Numbers out of their ranges, or with a leading zero.
    Row {
        pairs: &[
            ("new 16 BHash0", "refused factory number"),
            ("new 16 BHash08", "refused factory number"),
            ("new 16 BHash65", "refused factory number"),
            ("new 16 BHash00", "refused factory number"),
            ("new 16 BHash0x8", "refused factory number"),
            ("new 16 BHash8x0", "refused factory number"),
            ("new 16 BHash1025x1", "refused factory number"),
            ("new 16 BHash1x65", "refused factory number"),
            ("new 16 BHash01x1", "refused factory number"),
            ("new 16 BHash1x01", "refused factory number"),
            ("new 16 BIVF0", "refused factory number"),
            ("new 16 BIVF01", "refused factory number"),
            ("new 16 BIVF4194305", "refused factory number"),
            (
                "new 16 BIVF99999999999999999999999999",
                "refused factory number",
            ),
            ("new 16 IDMap,BHash0", "refused factory number"),
            ("new 16 IDMap2,BIVF0", "refused factory number"),
        ],
        status: Status::Refused,
    },
    // Indexes of Faiss that are left out, and prefixes in prefixes.
    Row {
        pairs: &[
            ("new 16 BHNSW32", "refused factory leftout"),
            ("new 16 BHNSW", "refused factory leftout"),
            ("new 16 BHNSW0,x", "refused factory leftout"),
            ("new 16 BIVF4_HNSW32", "refused factory leftout"),
            ("new 16 BIVF0_HNSW", "refused factory leftout"),
            ("new 16 IDMap,BHNSW32", "refused factory leftout"),
            ("new 16 IDMap2,BIVF4_HNSW", "refused factory leftout"),
            ("new 16 IDMap,IDMap2,BFlat", "refused factory nested"),
            ("new 16 IDMap2,IDMap,", "refused factory nested"),
            ("new 16 IDMap,IDMap,BHNSW32", "refused factory nested"),
        ],
        status: Status::Refused,
    },
    // Texts that name nothing.
    Row {
        pairs: &[
            ("new 16 BFlatt", "refused factory unknown"),
            ("new 16 BFla", "refused factory unknown"),
            ("new 16 Flat", "refused factory unknown"),
            ("new 16 bflat", "refused factory unknown"),
            ("new 16 BFlat,IDMap", "refused factory unknown"),
            ("new 16 IDMap", "refused factory unknown"),
            ("new 16 IDMap,", "refused factory unknown"),
            ("new 16 IDMap3,BFlat", "refused factory unknown"),
            ("new 16 IDMap,,BFlat", "refused factory unknown"),
            ("new 16 idmap,BFlat", "refused factory unknown"),
            ("new 16 BIVF", "refused factory unknown"),
            ("new 16 BIVFx", "refused factory unknown"),
            ("new 16 BIVF4,BFlat", "refused factory unknown"),
            ("new 16 BIVF4_", "refused factory unknown"),
            ("new 16 BIVF_HNSW32", "refused factory unknown"),
            ("new 16 BIVF-1", "refused factory unknown"),
            ("new 16 BHash", "refused factory unknown"),
            ("new 16 BHashx8", "refused factory unknown"),
            ("new 16 BHash8x", "refused factory unknown"),
            ("new 16 BHash2x8x", "refused factory unknown"),
            ("new 16 BHash2x8x1", "refused factory unknown"),
            ("new 16 BHash2X8", "refused factory unknown"),
            ("new 16 BHash+8", "refused factory unknown"),
            ("new 16 BHas8", "refused factory unknown"),
            ("new 16 ,BFlat", "refused factory unknown"),
            ("new 16 BIVF4_HNS", "refused factory unknown"),
        ],
        status: Status::Refused,
    },
    // Keys that are longer than a code. The bits of a code are looked at first.
    Row {
        pairs: &[
            ("new 16 BHash3x8", "refused factory misfit"),
            ("new 16 BHash17", "refused factory misfit"),
            ("new 16 BHash16", "ok"),
            ("new 16 BHash2x8", "ok"),
            ("new 8 BHash1024x64", "refused factory misfit"),
            ("new 8 IDMap,BHash9", "refused factory misfit"),
            ("new 12 BHash3x8", "refused dim"),
            ("new 12 BHNSW32", "refused dim"),
        ],
        status: Status::Refused,
    },
];
