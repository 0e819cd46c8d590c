//! The assembly of a small unit, byte by byte.
ghost use Rattle.std.specs.Prelude.{IfOk};
ghost use Rattle.po_model.specs.Blocks.{block_of, code_of, EndsLast, IsCode};

use crate::texts::{machine, transfer};
use po_assign::Placed;
use po_emit::emit;
use po_model::{Block, Code, UnitCode};
use po_name::Name;
use po_term::{Instr, Label};
use std::alloc::Global;
use std::test::Fail;

/// The first entry clobbers `cc`.
const MACHINE: &str = "\
machine m\n\
frame fp\n\
result rv\n\
args a0 a1 a2 a3\n\
regs r0 r1\n\
insn %0 := #1 clobber cc => zap %0,#1\n\
insn %0 := #1 => li %0,#1\n\
insn %0 := &1 => la %0,&1\n\
insn cc := %0 ? #1 => cmp %0,#1\n\
insn if cc eq goto @2 => beq @2\n\
insn %0 := %1 => mov %0,%1\n\
insn ret => ret\n\
end\n";

/// Blocks of one instruction each.
const BLOCKS: [(Option<Label>, &str); 7] = [
    (None, "cc := v5 ? 0"),
    // cc is live here
    (None, "v6 := -7"),
    (Some(Label(0)), "if cc eq goto L1"),
    (None, "v5 := -2147483648"),
    (Some(Label(1)), "v6 := &s0"),
    (None, "rv := v6"),
    (None, "ret"),
];

const REGS: [(u32, u32); 2] = [(5, 1), (6, 0)];

const TEXT: &str =
    "before\nf:\n  cmp r1,0\n  li r0,-7\nf.a:\n  beq f.b\n  zap r1,-2147483648\nf.b:\n  la r0,g\n  mov rv,r0\n  ret\n";

fn block(alloc: Global, label: Option<Label>, text: &str) -> Result<Block, Fail>
    ensures { IfOk result (λ b. EndsLast (block_of b).instrs) }
{
    let mut xs = Vec::new(alloc);
    xs.push(transfer(alloc, text)?)?;
    let mut instrs = Vec::new(alloc);
    instrs.push(Instr { xs })?;
    Ok(Block { label, instrs })
}

fn code(alloc: Global) -> Result<Code, Fail>
    ensures { IfOk result (λ c. IsCode (code_of c)) }
{
    let mut blocks = Vec::new(alloc);
    for (label, text) in BLOCKS {
        blocks.push(block(alloc, label, text)?)?;
    }
    Ok(Code { blocks })
}

fn name(alloc: Global, letters: &str) -> Result<Name, Fail> {
    let name = Name::new(alloc, letters.as_bytes())?;
    Ok(name.ok_or("no name")?)
}

fn names(alloc: Global, letters: &[&str]) -> Result<Vec<Name>, Fail> {
    let mut names = Vec::new(alloc);
    for word in letters {
        names.push(name(alloc, *word)?)?;
    }
    Ok(names)
}

fn placed(alloc: Global) -> Result<Placed, Fail>
    ensures { IfOk result (λ p. IsCode (code_of p.unit.code)) }
{
    let unit = UnitCode {
        name: name(alloc, "f")?,
        labels: names(alloc, &["a", "b"])?,
        syms: names(alloc, &["g"])?,
        code: code(alloc)?,
    };
    let regs = Vec::from_slice(alloc, &REGS)?;
    Ok(Placed { unit, regs })
}

#[test]
fn written(rt: HostRuntime) -> Result<(), Fail> {
    let alloc = rt.alloc();
    let m = machine(alloc, MACHINE)?;
    let p = placed(alloc)?;
    let mut out = Vec::from_slice(alloc, b"before\n")?;
    emit(alloc, &m, &p, &mut out)?;
    assert!(rt; out.as_slice() == TEXT.as_bytes());
    Ok(())
}
