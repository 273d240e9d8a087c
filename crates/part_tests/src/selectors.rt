use id_select::Selector;
use std::process::Abort;
use std::test::Fail;

// An id that comes twice is chosen like any other.
#[test]
fn listed_ids_and_all_but_them(rt: HostRuntime) -> Result<(), Fail> {
    let ids = [7, -3, 9_223_372_036_854_775_807, 7];
    let listed = Selector::listed(rt.alloc(), &ids)?;
    let others = Selector::all_but(rt.alloc(), &ids)?;
    for (id, chosen) in [
        (7, true),
        (-3, true),
        (0, false),
        (i64::MAX, true),
        (i64::MIN, false),
    ] {
        assert_eq!(rt; listed.has(id), chosen, "at {id}");
        assert_eq!(rt; others.has(id), !chosen, "at {id}");
    }
    let flags = listed.flags(rt.alloc(), &[0, 7, 1])?;
    assert_eq!(rt; flags.as_slice(), &[true, false, true][..]);
    let none = Selector::listed(rt.alloc(), &[])?;
    assert!(rt; !none.has(0));
    Ok(())
}

// A range has its first id and not its last, and may be empty.
#[test]
fn ranges(rt: HostRuntime) -> Result<(), Fail> {
    let range = Selector::range(-3, 2);
    for (id, chosen) in [(-4, false), (-3, true), (1, true), (2, false)] {
        assert_eq!(rt; range.has(id), chosen, "at {id}");
    }
    for (from, to) in [(5, 5), (5, 4)] {
        assert!(rt; !Selector::range(from, to).has(5));
    }
    let mut flags = Vec::with_capacity(rt.alloc(), 3)?;
    range.push_flags(&[2], &mut flags);
    range.push_flags(&[1, 5], &mut flags);
    assert_eq!(rt; flags.as_slice(), &[true, false, true][..]);
    Ok(())
}
