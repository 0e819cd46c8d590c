//! Units and their naive code, and the first instruction that a machine lacks.
use crate::texts::{machine, unit_code};
use po_expand::{CheckRefusal, check};
use po_model::Block;
use po_term::Label;
use po_termtext::print_instr;
use std::alloc::Global;
use std::test::Fail;

/// A unit, and its naive code: a line for the label of each block, and one for each instruction.
struct Case {
    unit: &'static str,
    code: &'static str,
}

const CASES: [Case; 6] = [
    Case {
        unit: "unit f\nadl 4\nlod\ncon 1\nadd\nret\nend\n",
        code: "-\nv0 := (fp + 4)\nv1 := M[v0]\nv2 := 1\nv3 := (v1 + v2)\nrv := v3\nret\n",
    },
    // Two labels in a row: the first has a block of its own.
    Case {
        unit: "unit f\nlab a\nlab b\njmp a\nend\n",
        code: "L0:\nL1:\ngoto L0\n",
    },
    // The block behind `ret` is blank, and so the label names it; operands in their order.
    Case {
        unit: "unit f\ncon 3\ncon 4\nblt far\ncon 7\ncon 2\nsub\nret\nlab far\ncon 2\nret\nend\n",
        code: "-\nv0 := 3\nv1 := 4\ncc := v0 ? v1\nif cc lt goto L0\n-\nv2 := 7\nv3 := 2\nv4 := (v2 - v3)\nrv := v4\n\
            ret\nL0:\nv5 := 2\nrv := v5\nret\n",
    },
    // A call ends its block; symbols by first occurrence, labels by `lab`.
    Case {
        unit: "unit f\nadl 1\narg 0\ncall note 1\npop\njmp b\nlab a\nadg calls\nadg note\ndup\nsto\nneg\nret\nlab b\n\
            jmp a\nend\n",
        code: "-\nv0 := (fp + 1)\narg0 := v0\ncall &s0 1\n-\nv1 := rv\ngoto L1\nL0:\nv2 := &s1\nv3 := &s0\n\
            M[v3] := v3\nv4 := neg(v2)\nrv := v4\nret\nL1:\ngoto L0\n",
    },
    // The first jump ends the unit's first block; the last label stands behind a blank block.
    Case {
        unit: "unit f\njmp b\nlab b\njmp c\njmp b\nlab c\ncon 0\nret\nend\n",
        code: "-\ngoto L0\nL0:\ngoto L1\n-\ngoto L0\nL1:\nv0 := 0\nrv := v0\nret\n",
    },
    // A loop over an array, a global counter and a call.
    Case {
        unit: "unit sum\nadl 3\ncon 0\nsto\nadl 4\ncon 0\nsto\nlab top\nadl 3\nlod\nadl 1\nlod\nbge out\nadl 4\n\
            adl 4\nlod\nadl 2\nlod\nadl 3\nlod\nadd\nlod\nadd\nsto\nadl 3\nadl 3\nlod\ncon 1\nadd\nsto\njmp top\n\
            lab out\nadg calls\nadg calls\nlod\ncon 1\nadd\nsto\nadl 4\nlod\narg 0\ncall note 1\npop\nadl 4\nlod\n\
            ret\nend\n",
        code: "-\nv0 := (fp + 3)\nv1 := 0\nM[v0] := v1\nv2 := (fp + 4)\nv3 := 0\nM[v2] := v3\nL0:\nv4 := (fp + 3)\n\
            v5 := M[v4]\nv6 := (fp + 1)\nv7 := M[v6]\ncc := v5 ? v7\nif cc ge goto L1\n-\nv8 := (fp + 4)\n\
            v9 := (fp + 4)\nv10 := M[v9]\nv11 := (fp + 2)\nv12 := M[v11]\nv13 := (fp + 3)\nv14 := M[v13]\n\
            v15 := (v12 + v14)\nv16 := M[v15]\nv17 := (v10 + v16)\nM[v8] := v17\nv18 := (fp + 3)\nv19 := (fp + 3)\n\
            v20 := M[v19]\nv21 := 1\nv22 := (v20 + v21)\nM[v18] := v22\ngoto L0\nL1:\nv23 := &s0\nv24 := &s0\n\
            v25 := M[v24]\nv26 := 1\nv27 := (v25 + v26)\nM[v23] := v27\nv28 := (fp + 4)\nv29 := M[v28]\narg0 := v29\n\
            call &s1 1\n-\nv30 := rv\nv31 := (fp + 4)\nv32 := M[v31]\nrv := v32\nret\n",
    },
];

fn push_text(out: &mut Vec<u8>, text: &[u8]) -> Result<(), Fail> {
    out.extend_from_slice(text)?;
    Ok(())
}

fn push_block(alloc: Global, out: &mut Vec<u8>, block: &Block) -> Result<(), Fail> {
    match block.label {
        Some(Label(number)) => push_text(out, format!(in alloc; "L{number}:\n")?.as_bytes())?,
        None => push_text(out, b"-\n")?,
    }
    for instr in &block.instrs {
        push_text(out, &print_instr(alloc, instr)?)?;
        push_text(out, b"\n")?;
    }
    Ok(())
}

fn code_text(alloc: Global, blocks: &[Block]) -> Result<Vec<u8>, Fail> {
    let mut out = Vec::new(alloc);
    for block in blocks {
        push_block(alloc, &mut out, block)?;
    }
    Ok(out)
}

#[test]
fn units_expand(rt: HostRuntime) -> Result<(), Fail> {
    let alloc = rt.alloc();
    for case in &CASES {
        let u = unit_code(alloc, case.unit)?;
        let text = code_text(alloc, &u.code.blocks)?;
        assert!(rt; text.as_slice() == case.code.as_bytes(), "{}", case.unit);
    }
    Ok(())
}

const HEAD: &str = "\
machine m\n\
frame fp\n\
result rv\n\
args a0 a1 a2 a3\n\
regs r0\n\
insn %0 := #1 => li %0,#1\n\
insn %0 := (fp + #1) => lea %0,#1\n\
insn %0 := M[%1] => ld %0,(%1)\n\
insn %0 := %1 => mov %0,%1\n\
insn ret => ret\n";

/// The last lines of a machine, and whether it has an instruction for each one of the unit.
const MACHINES: [(&str, bool); 2] = [
    ("insn %0 := (%1 + %2) => add %0,%1,%2\nend\n", true),
    ("end\n", false),
];

#[test]
fn the_first_unfit_is_told(rt: HostRuntime) -> Result<(), Fail> {
    let alloc = rt.alloc();
    let u = unit_code(alloc, "unit f\nadl 4\nlod\ncon 1\nadd\nret\nend\n")?;
    for (rest, adds) in MACHINES {
        let text = format!(in alloc; "{HEAD}{rest}")?;
        let m = machine(alloc, text.as_str())?;
        match check(alloc, &m, &u) {
            Ok(()) => assert!(rt; adds, "{rest}"),
            Err(CheckRefusal::Unrecognised { block, index }) => {
                assert!(rt; !adds && block == 0 && index == 3, "{rest}")
            }
            Err(CheckRefusal::OutOfMemory) => return Err(Fail::from("memory")),
        }
    }
    Ok(())
}
