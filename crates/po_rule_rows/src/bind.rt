//! Pairs beside shapes of others.
use crate::texts::{pair, shape_of};
use po_skel::bind;
use po_term::Reg::{self, Virt};
use po_term::well_formed;
use std::alloc::Global;
use std::test::Fail;

/// Two instructions, and which registers are live after them.
type Two = (&'static str, &'static str, &'static [Reg]);

/// Two pairs, and whether the second has the first one's shape.
type Row = (&'static str, Two, Two, bool);

const ROWS: [Row; 8] = [
    (
        "other registers and another constant",
        ("v3 := 1", "v4 := (v2 + v3)", &[Virt(4)]),
        ("v8 := 200", "v2 := (v9 + v8)", &[Virt(2)]),
        true,
    ),
    (
        "one more is live",
        ("v3 := 1", "v4 := (v2 + v3)", &[Virt(4)]),
        ("v3 := 1", "v4 := (v2 + v3)", &[Virt(3), Virt(4)]),
        false,
    ),
    (
        "one register at two holes",
        ("v1 := v2", "v3 := (v1 + v4)", &[Virt(3)]),
        ("v1 := v2", "v3 := (v1 + v1)", &[Virt(3)]),
        false,
    ),
    (
        "two registers at one hole",
        ("v1 := v2", "v3 := (v1 + v1)", &[Virt(3)]),
        ("v1 := v2", "v3 := (v1 + v4)", &[Virt(3)]),
        false,
    ),
    (
        "one symbol at two holes",
        ("v0 := &s1", "v1 := (v0 + &s2)", &[Virt(1)]),
        ("v0 := &s1", "v1 := (v0 + &s1)", &[Virt(1)]),
        false,
    ),
    (
        "another fixed register",
        ("v0 := 1", "rv := v0", &[Reg::Rv]),
        ("v0 := 1", "arg0 := v0", &[Reg::Arg(0)]),
        false,
    ),
    (
        "another relation",
        ("cc := v0 ? 1", "if cc lt goto L0", &[]),
        ("cc := v0 ? 1", "if cc le goto L0", &[]),
        false,
    ),
    (
        "another label",
        ("cc := v0 ? 1", "if cc lt goto L0", &[]),
        ("cc := v4 ? 9", "if cc lt goto L7", &[]),
        true,
    ),
];

fn is_bound(alloc: Global, first: Two, second: Two) -> Result<bool, Fail> {
    let (a, b, live) = first;
    let shape = shape_of(alloc, &pair(alloc, a, b, live, false)?)?;
    let (a, b, live) = second;
    let p = pair(alloc, a, b, live, false)?;
    if well_formed(&p.a) && well_formed(&p.b) {
        let bound = bind(alloc, &shape, &p)?;
        Ok(bound.is_some())
    } else {
        Err(Fail::from("not well formed"))
    }
}

#[test]
fn bound(rt: HostRuntime) -> Result<(), Fail> {
    let alloc = rt.alloc();
    for (words, first, second, want) in ROWS {
        assert!(rt; is_bound(alloc, first, second)? == want, "{words}");
    }
    Ok(())
}
