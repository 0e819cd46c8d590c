//! Placement where the mode `slow` makes one instruction that sets two registers. The instruction p of a code reads at
//! the point 2 * p and writes at the point 2 * p + 1.

use crate::runs::{GOOD, run, text_of};
use po_run::Status;
use std::test::Fail;

const HEAD: &str = "machine m\nframe fp\nresult rv\nargs a0 a1 a2 a3\nregs ";

const ENTRIES: &str = "\n\
insn %0 := #1 => li %0,#1\n\
insn %0 := (fp + #1) => lea %0,#1\n\
insn %0 := M[%1] => ld %0,(%1)\n\
insn %0 := M[%1] ; %2 := #3 => ldi %0,(%1),%2,#3\n\
insn %0 := (%1 + %2) => add %0,%1,%2\n\
insn %0 := %1 => mov %0,%1\n\
insn ret => ret\n\
end\n";

/// What becomes: v0 := (fp + 4) | v1 := M[v0] ; v2 := 1 | rv := (v1 + v2) | ret
const ONE: &str = "unit f\nadl 4\nlod\ncon 1\nadd\nret\nend\n";

/// What becomes: v0 := (fp + 4) | v1 := M[v0] ; v2 := 1 | v3 := (v1 + v2) | rv := (v0 + v3) | ret
const TWICE: &str = "unit f\nadl 4\ndup\nlod\ncon 1\nadd\nadd\nret\nend\n";

/// What a unit gives.
#[derive(Clone, Copy)]
enum Want {
    Assembly(&'static str),
    /// How many registers are needed at the point 3, where there are too few.
    Needed(u32),
}

/// The machine registers, a unit, and what it gives.
const ROWS: [(&str, &str, Want); 5] = [
    // By their places in the instruction; the first takes the register of what it reads.
    (
        "r0 r1",
        ONE,
        Want::Assembly("f:\n  lea r0,4\n  ldi r0,(r0),r1,1\n  add rv,r0,r1\n  ret\n"),
    ),
    ("r0", ONE, Want::Needed(2)),
    (
        "r0 r1 r2",
        TWICE,
        Want::Assembly(
            "f:\n  lea r0,4\n  ldi r1,(r0),r2,1\n  add r1,r1,r2\n  add rv,r0,r1\n  ret\n",
        ),
    ),
    // All that start at the crowded point are counted.
    ("r0", TWICE, Want::Needed(3)),
    ("r0 r1", TWICE, Want::Needed(3)),
];

#[test]
fn two_registers_of_one_instruction(rt: HostRuntime) -> Result<(), Fail> {
    for (regs, unit, want) in ROWS {
        let text = text_of(rt.alloc(), &[HEAD, regs, ENTRIES, unit])?;
        let ended = run(rt.alloc(), "slow", text, &GOOD)?;
        let (status, assembly) = match want {
            Want::Assembly(text) => (Status::Done, text),
            Want::Needed(needed) => (
                Status::TooFew {
                    unit: 0,
                    point: 3,
                    needed,
                },
                "",
            ),
        };
        assert_eq!(rt; ended.status, status, "{regs}, {unit}");
        assert_eq!(rt; ended.sink.kept(), assembly.as_bytes(), "{regs}, {unit}");
    }
    Ok(())
}
