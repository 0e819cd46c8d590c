//! Instructions and the entries that they fit, on both sides of each rule.
ghost use Rattle.std.specs.Prelude.{◌<◌, ◌^◌, length, IfOk};
ghost use Rattle.po_model.specs.Machines.{IsMachine};
ghost use Rattle.po_recog.specs.Indexes.{IsIndexOf};

use crate::texts::{instr, machine};
use po_mdread::TINY;
use po_model::Machine;
use po_recog::{Fit, Index, Operand, is_recognised_by, recognise, recognise_by};
use po_term::{Label, Reg, Sym};
use std::alloc::Global;
use std::test::Fail;

/// What the entries of `tiny` lack: the entries 24 to 28.
const FIVE: &str = "\
insn %0 := (%0 - %1) => sub %0,%1\n\
insn %0 := (%1 * (#2 * #2)) => square %0,%1,#2\n\
insn %0 := (%1 << -3) => shift %0,%1\n\
insn %0 := M[%1] ; %1 := (%1 + #2) => ldi %0,%1,#2\n\
insn rv := (%0 ^ #1) => xor rv,%0,#1\n\
end\n";

/// What an operand stands for.
type Stands = Option<Operand>;

const IS_V0: Stands = Some(Operand::Reg(Reg::Virt(0)));

const IS_V1: Stands = Some(Operand::Reg(Reg::Virt(1)));

const IS_FP: Stands = Some(Operand::Reg(Reg::Fp));

const IS_4: Stands = Some(Operand::Num(4));

const IS_127: Stands = Some(Operand::Num(127));

const IS_MINUS_128: Stands = Some(Operand::Num(0xffff_ff80));

const IS_SYM: Stands = Some(Operand::Sym(Sym(6)));

const IS_LABEL: Stands = Some(Operand::Label(Label(5)));

/// An instruction, whether `cc` is live, the entry that it fits, and what stands at 0, 1 and so on.
type Fitting = (&'static str, bool, u32, &'static [Stands]);

const FITTING: [Fitting; 19] = [
    ("v0 := (fp + 4)", true, 1, &[IS_V0, IS_4]),
    ("M[(fp + 4)] := v1", true, 6, &[IS_FP, IS_4, IS_V1]),
    // an entry that clobbers cc, where cc is dead
    ("if v0 ? 4 eq goto L5", false, 20, &[IS_V0, IS_4, IS_LABEL]),
    // both ends of a range, by the signed view
    ("v1 := (v0 + 127)", true, 8, &[IS_V1, IS_V0, IS_127]),
    ("v1 := (v0 + -128)", true, 8, &[IS_V1, IS_V0, IS_MINUS_128]),
    // %k stands for fp and rv too, and two operands for one register
    ("v0 := fp", true, 9, &[IS_V0, IS_FP]),
    ("v0 := (v0 + v0)", true, 7, &[IS_V0, IS_V0, IS_V0]),
    // symbols, and calls with any number of arguments
    ("v0 := &s6", true, 2, &[IS_V0, IS_SYM]),
    ("call &s6 0", true, 22, &[IS_SYM]),
    ("call &s6 4", true, 22, &[IS_SYM]),
    // relations, jumps, returns
    ("if cc ge goto L5", true, 17, &[IS_LABEL]),
    ("goto L5", true, 21, &[IS_LABEL]),
    ("ret", true, 23, &[]),
    ("cc := v0 ? 4", true, 11, &[IS_V0, IS_4]),
    // a repeated %k
    ("v0 := (v0 - v1)", true, 24, &[IS_V0, IS_V1]),
    // a repeated #k
    ("v0 := (v1 * (4 * 4))", true, 25, &[IS_V0, IS_V1, IS_4]),
    // a number
    ("v0 := (v1 << -3)", true, 26, &[IS_V0, IS_V1]),
    // two transfers
    (
        "v0 := M[v1] ; v1 := (v1 + 4)",
        true,
        27,
        &[IS_V0, IS_V1, IS_4],
    ),
    // a fixed register
    ("rv := (v0 ^ 4)", true, 28, &[IS_V0, IS_4]),
];

/// Instructions that fit no entry, and whether `cc` is live.
const UNFIT: [(&str, bool); 11] = [
    // only fp fits fp, and 200 is beyond the range
    ("v1 := (v0 + 200)", true),
    // an entry that clobbers cc
    ("if v0 ? 4 eq goto L5", true),
    ("if v0 ? 4 ne goto L5", false),
    ("v1 := (v0 + 128)", true),
    ("v1 := (v0 + -129)", true),
    ("v0 := (v1 - v0)", true),
    ("v0 := (v1 * (4 * 5))", true),
    ("v0 := (v1 << 3)", true),
    ("v0 := M[v1] ; v1 := (v0 + 4)", true),
    ("v0 := M[v1] ; ret", true),
    ("v1 := (v0 ^ 4)", true),
];

/// The machine `tiny` with five more entries.
fn longer(alloc: Global) -> Result<Machine, Fail>
    ensures { IfOk result IsMachine }
{
    let tiny = TINY.strip_suffix("end\n").ok_or("no end")?;
    let text = format!(in alloc; "{tiny}{FIVE}")?;
    machine(alloc, text.as_str())
}

fn found(alloc: Global, m: &Machine, text: &str, cc_live: bool) -> Result<Option<Fit>, Fail>
    requires { length m.now.entries < 2 ^ 32 }
{
    let i = instr(alloc, text)?;
    Ok(recognise(alloc, m, i.xs.as_slice(), cc_live)?)
}

/// The same by an index of the machine.
fn found_by(
    alloc: Global,
    m: &Machine,
    index: &Index,
    text: &str,
    cc_live: bool,
) -> Result<Option<Fit>, Fail>
    requires few { length m.now.entries < 2 ^ 32 }
    requires index { IsIndexOf m.now index.now }
{
    let i = instr(alloc, text)?;
    Ok(recognise_by(alloc, m, index, i.xs.as_slice(), cc_live)?)
}

/// Whether there is an entry, by the index.
fn is_found_by(
    alloc: Global,
    m: &Machine,
    index: &Index,
    text: &str,
    cc_live: bool,
) -> Result<bool, Fail>
    requires few { length m.now.entries < 2 ^ 32 }
    requires index { IsIndexOf m.now index.now }
{
    let i = instr(alloc, text)?;
    Ok(is_recognised_by(m, index, i.xs.as_slice(), cc_live))
}

fn first_are(operands: &[Stands], want: &[Stands]) -> bool {
    operands.len() == 10 && operands.iter().zip(want).all(|(a, b)| *a == *b)
}

fn is_fit(found: Option<Fit>, entry: u32, operands: &[Stands]) -> bool {
    match found {
        Some(fit) => fit.entry == entry && first_are(fit.operands.as_slice(), operands),
        None => false,
    }
}

#[test]
fn fitting(rt: HostRuntime) -> Result<(), Fail> {
    let alloc = rt.alloc();
    let m = longer(alloc)?;
    assert_eq!(rt; m.entries.len(), 29);
    let index = Index::new(alloc, &m)?;
    for (text, cc_live, entry, operands) in FITTING {
        let fit = found(alloc, &m, text, cc_live)?;
        assert!(rt; is_fit(fit, entry, operands), "{text}");
        let fit = found_by(alloc, &m, &index, text, cc_live)?;
        assert!(rt; is_fit(fit, entry, operands), "by the index: {text}");
        let is_found = is_found_by(alloc, &m, &index, text, cc_live)?;
        assert!(rt; is_found, "whether there is one: {text}");
    }
    Ok(())
}

#[test]
fn unfit(rt: HostRuntime) -> Result<(), Fail> {
    let alloc = rt.alloc();
    let m = longer(alloc)?;
    assert_eq!(rt; m.entries.len(), 29);
    let index = Index::new(alloc, &m)?;
    for (text, cc_live) in UNFIT {
        let fit = found(alloc, &m, text, cc_live)?;
        assert!(rt; fit.is_none(), "{text}");
        let fit = found_by(alloc, &m, &index, text, cc_live)?;
        assert!(rt; fit.is_none(), "by the index: {text}");
        let is_found = is_found_by(alloc, &m, &index, text, cc_live)?;
        assert!(rt; !is_found, "whether there is one: {text}");
    }
    Ok(())
}
