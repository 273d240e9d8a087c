use bcodes::Dim;
use factory_text::{Kind, Prefix, Spec, SpecError, fits, print, read, read_bytes};
use std::test::Fail;

fn ok(prefix: Prefix, kind: Kind) -> Result<Spec, SpecError> {
    Ok(Spec { prefix, kind })
}

#[test]
fn reads(rt: HostRuntime) {
    assert_eq!(rt; read("BFlat"), ok(Prefix::Plain, Kind::Flat));
    assert_eq!(rt;
        read("IDMap,BIVF4194304"),
        ok(Prefix::Map, Kind::Ivf(4_194_304))
    );
    assert_eq!(rt;
        read("IDMap2,BHash1024x64"),
        ok(Prefix::Map2, Kind::Multi(1_024, 64))
    );
    assert_eq!(rt; read_bytes(b"BHash64"), ok(Prefix::Plain, Kind::Hash(64)));
    for text in [
        "",
        "BFlatt",
        "BHash",
        "BHashx8",
        "BHash8x",
        "BHash1x2x3",
        "BFlat,IDMap",
        "BIVF_HNSW",
    ] {
        assert_eq!(rt; read(text), Err(SpecError::Unknown), "{text}");
    }
    for text in [
        "BHash0",
        "BHash08",
        "BHash65",
        "BHash1025x1",
        "BIVF4194305",
        "BIVF4294967297",
    ] {
        assert_eq!(rt; read(text), Err(SpecError::Number), "{text}");
    }
    for text in ["BHNSW32", "BIVF4_HNSW32", "IDMap,BIVF0_HNSW"] {
        assert_eq!(rt; read(text), Err(SpecError::LeftOut), "{text}");
    }
    for text in ["IDMap,IDMap2,BFlat", "IDMap,IDMap,BFlat", "IDMap2,IDMap,"] {
        assert_eq!(rt; read(text), Err(SpecError::Nested), "{text}");
    }
}

#[test]
fn prints(rt: HostRuntime) -> Result<(), Fail> {
    for written in ["BFlat", "IDMap,BIVF1024", "BHash16", "IDMap2,BHash16x16"] {
        let text = print(rt.alloc(), read(written)?)?;
        assert_eq!(rt; text.as_str(), written);
    }
    Ok(())
}

#[test]
fn fits_up_to_the_bits_of_a_code(rt: HostRuntime) -> Result<(), Fail> {
    let dim = Dim::new(16)?;
    assert!(rt; fits(read("BHash2x8")?, dim));
    assert!(rt; !fits(read("BHash3x8")?, dim));
    assert!(rt; !fits(read("BHash17")?, dim));
    Ok(())
}
