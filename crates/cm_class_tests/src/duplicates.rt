//! Fields and methods with the name and the descriptor of one before them.
use crate::member_samples::{Indexes, class_bytes};
use cm_class::{Class, read_shape};
use cm_duplicates::{first_duplicate_field, first_duplicate_method};
use std::alloc::Global;
use std::hash::{FoldHasher, Hasher};
use std::process::Abort;
use std::test::Fail;

/// The first duplicate field, and the first duplicate method.
type Found = (Option<u16>, Option<u16>);

fn find_duplicate_in(alloc: Global, class: &Class) -> Result<Found, Fail> {
    let field = first_duplicate_field(alloc, class)?;
    let method = first_duplicate_method(alloc, class)?;
    Ok((field, method))
}

/// What is found if the fields and the methods are these.
fn find_duplicate(
    alloc: Global,
    utf8s: &[&[u8]],
    fields: &[Indexes],
    methods: &[Indexes],
) -> Result<Found, Fail> {
    let bytes = class_bytes(alloc, utf8s, fields, methods)?;
    let class = read_shape(alloc, &bytes)?;
    find_duplicate_in(alloc, &class)
}

/// Checks that such a place is found among such members: the same for fields and for methods, and
/// none among the others.
fn is_first(
    rt: &(impl Abort + AllocGlobal),
    utf8s: &[&[u8]],
    members: &[Indexes],
    place: Option<u16>,
) -> Result<(), Fail> {
    let (alloc, count) = (rt.alloc(), members.len());
    let found = find_duplicate(alloc, utf8s, members, &[])?;
    assert!(rt; found == (place, None), "among {count} fields");
    let found = find_duplicate(alloc, utf8s, &[], members)?;
    assert!(rt; found == (None, place), "among {count} methods");
    Ok(())
}

/// Each of the first eight Utf8s with each of the next eight.
fn pairs(alloc: Global) -> Result<Vec<Indexes>, Fail> {
    let mut pairs = Vec::new(alloc);
    for name in 1..9 {
        for descriptor in 9..17 {
            pairs.push((name, descriptor))?;
        }
    }
    Ok(pairs)
}

/// Members by the indexes of `a`, `b`, `a`, `I` and `J`, and the first duplicate.
static FEW: [(&[Indexes], Option<u16>); 7] = [
    (&[], None),
    (&[(1, 4)], None),
    (&[(1, 4), (2, 4), (1, 5)], None),
    (&[(1, 4), (2, 4), (1, 4)], Some(2)),
    (&[(1, 4), (3, 4)], Some(1)),
    (&[(1, 4), (2, 4), (2, 4), (1, 4)], Some(2)),
    // Indexes that name nothing have no bytes.
    (&[(0, 4), (9, 4)], Some(1)),
];

#[test]
fn few_members(rt: HostRuntime) -> Result<(), Fail> {
    let utf8s: [&[u8]; 5] = [b"a", b"b", b"a", b"I", b"J"];
    for (members, place) in &FEW {
        is_first(&rt, &utf8s, members, *place)?;
    }
    Ok(())
}

/// Checks that none of 64 members is a duplicate, and that the first one added after them is one,
/// with and without those after it.
fn are_told_apart(
    rt: &(impl Abort + AllocGlobal),
    utf8s: &[&[u8]],
    members: &mut Vec<Indexes>,
    more: &[Indexes],
) -> Result<(), Fail> {
    is_first(rt, utf8s, members, None)?;
    for member in more {
        members.push(*member)?;
        is_first(rt, utf8s, members, Some(64))?;
    }
    Ok(())
}

#[test]
fn many_members(rt: HostRuntime) -> Result<(), Fail> {
    let utf8s: [&[u8]; 17] = [
        b"a", b"b", b"c", b"d", b"e", b"f", b"g", b"h", b"B", b"C", b"D", b"F", b"I", b"J", b"S",
        b"Z", b"c",
    ];
    let mut members = pairs(rt.alloc())?;
    are_told_apart(&rt, &utf8s, &mut members, &[(17, 10), (1, 9)])
}

/// Names with the same quick fingerprint, descriptors, and the third name again.
static MEETING: [&[u8]; 17] = [
    b"aaaaaaaaaaaaaa10oO\x0f$\x14NN]_______a",
    b"aaaaaaaaaaaaaa10oO\x0f$\x14NN]_______b",
    b"aaaaaaaaaaaaaa10oO\x0f$\x14NN]_______c",
    b"aaaaaaaaaaaaaa10oO\x0f$\x14NN]_______d",
    b"aaaaaaaaaaaaaa10oO\x0f$\x14NN]_______e",
    b"aaaaaaaaaaaaaa10oO\x0f$\x14NN]_______f",
    b"aaaaaaaaaaaaaa10oO\x0f$\x14NN]_______g",
    b"aaaaaaaaaaaaaa10oO\x0f$\x14NN]_______h",
    b"B",
    b"C",
    b"D",
    b"F",
    b"I",
    b"J",
    b"S",
    b"Z",
    b"aaaaaaaaaaaaaa10oO\x0f$\x14NN]_______c",
];

/// What the crate uses as a quick fingerprint.
fn fingerprint(bytes: &[u8]) -> u64 {
    let mut hasher = FoldHasher::default();
    hasher.write(bytes);
    hasher.finish()
}

#[test]
fn names_meet(rt: HostRuntime) {
    for name in &MEETING[..8] {
        assert_eq!(rt; fingerprint(name), fingerprint(MEETING[0]));
    }
}

/// Names with the same fingerprint differ, and are distinguished.
#[test]
fn members_that_meet(rt: HostRuntime) -> Result<(), Fail> {
    let mut members = pairs(rt.alloc())?;
    are_told_apart(&rt, &MEETING, &mut members, &[(17, 16), (1, 9)])
}
