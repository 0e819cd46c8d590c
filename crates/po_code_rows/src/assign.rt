//! Placements of small units' naive code, and codes that are crowded. The instruction p of a code reads at the point 2
//! * p and writes at the point 2 * p + 1.
use crate::texts::{machine, unit_code};
use po_assign::{AssignRefusal, assign, never_shared, placed_runs_alike};
use std::alloc::Global;
use std::test::Fail;

/// What a code gives.
#[derive(Clone, Copy)]
enum Want {
    Given(&'static [(u32, u32)]),
    /// The point, and how many intervals it lies in.
    Crowded(u32, u32),
}

/// Words, the machine registers, a unit, and its placement.
type Case = (&'static str, &'static str, &'static str, Want);

const CASES: [Case; 5] = [
    (
        "five values on four registers",
        "r0 r1 r2 r3",
        "con 1\ncon 2\ncon 3\ncon 4\ncon 5\nadd\nadd\nadd\nadd\nret\n",
        Want::Crowded(9, 5),
    ),
    (
        "four values on four registers",
        "r0 r1 r2 r3",
        "con 1\ncon 2\ncon 3\ncon 4\nadd\nadd\nadd\nret\n",
        Want::Given(&[(0, 0), (1, 1), (2, 2), (3, 3), (4, 2), (5, 1), (6, 0)]),
    ),
    (
        "a register is free from the last read of its value on",
        "r0 r1 r2 r3",
        "adl 4\nlod\ncon 1\nadd\nret\n",
        Want::Given(&[(0, 0), (1, 0), (2, 1), (3, 0)]),
    ),
    (
        "a register that is never read is there at its write alone",
        "r0",
        "con 1\npop\ncon 2\nret\n",
        Want::Given(&[(0, 0), (1, 0)]),
    ),
    // v0 := 1 | no instruction | v1 := 2, v2 := 3
    (
        "points are counted over all blocks",
        "r0",
        "con 1\npop\nlab a\nlab b\ncon 2\ncon 3\nadd\nret\n",
        Want::Crowded(5, 2),
    ),
];

fn is_placed(alloc: Global, regs: &str, unit: &str, want: Want) -> Result<bool, Fail> {
    let text = format!(in alloc;
        "machine m\nframe fp\nresult rv\nargs a0 a1 a2 a3\nregs {regs}\nend\n"
    )?;
    let m = machine(alloc, text.as_str())?;
    let text = format!(in alloc; "unit f\n{unit}end\n")?;
    let code = unit_code(alloc, text.as_str())?;
    match (assign(alloc, &m, code), want) {
        (Ok(placed), Want::Given(pairs)) => Ok(placed.regs.as_slice() == pairs),
        (Err(AssignRefusal::TooFew { point, needed }), Want::Crowded(at, count)) => {
            Ok(point == at && needed == count)
        }
        _ => Ok(false),
    }
}

#[test]
fn placed(rt: HostRuntime) -> Result<(), Fail> {
    let alloc = rt.alloc();
    for (words, regs, unit, want) in CASES {
        assert!(rt; is_placed(alloc, regs, unit, want)?, "{words}");
    }
    never_shared();
    placed_runs_alike();
    Ok(())
}
