//! Pairs of instructions beside their rules.
ghost use Rattle.std.specs.Prelude.{◌≡◌, ◌<◌, IfOk};
ghost use Rattle.std.specs.Arc.{arc_value};
ghost use Rattle.po_term.specs.Form.{WellFormed};
ghost use Rattle.po_term.specs.Moves.{instr_of};
ghost use Rattle.po_model.specs.Machines.{IsMachine};
ghost use Rattle.po_model.specs.Pairs.{pair_of};
ghost use Rattle.po_model.specs.Holed.{rule_of};
ghost use Rattle.po_model.specs.Generalised.{generalised};

use self::On::{Clobbering, Shifting, Tiny};
use crate::texts::{machine, pair};
use po_general::{generalise, one_rule, rules_are_canonical, rules_are_filled};
use po_mdread::TINY;
use po_model::{Machine, Pair, Steps};
use po_rule::{Learned, print_rule};
use po_term::Reg::{self, Virt};
use po_term::well_formed;
use po_word::OutOfMemory;
use std::alloc::Global;
use std::marker::Brand;
use std::string::String;
use std::sync::Arc;
use std::sync::ledger::{Blank, Ledger};
use std::test::Fail;

/// A machine.
#[derive(Clone, Copy)]
enum On {
    /// `tiny`.
    Tiny,
    /// `tiny`, whose `addi` leaves nothing in `cc`.
    Clobbering,
    /// `tiny` with one more entry, which shifts by a constant.
    Shifting,
}

/// A machine, two instructions, which registers are live after them, whether `cc` is, and their rule.
type Row = (
    On,
    &'static str,
    &'static str,
    &'static [Reg],
    bool,
    &'static str,
);

const ROWS: [Row; 17] = [
    (
        Tiny,
        "v3 := 1",
        "v4 := (v2 + v3)",
        &[Virt(4)],
        false,
        "%0 := #0 | %1 := (%2 + %0) live %1 ask zero(#0) no, in(#0,-128,127) yes => %1 := (%2 + #0)",
    ),
    (
        Tiny,
        "v3 := 0",
        "v4 := (v2 + v3)",
        &[Virt(4)],
        false,
        "%0 := #0 | %1 := (%2 + %0) live %1 ask zero(#0) yes => %1 := %2",
    ),
    (
        Tiny,
        "v3 := 200",
        "v4 := (v2 + v3)",
        &[Virt(4)],
        false,
        "%0 := #0 | %1 := (%2 + %0) live %1 ask zero(#0) no, in(#0,-128,127) no => keep",
    ),
    // the last constant within the range, and the first one beyond it
    (
        Tiny,
        "v3 := 127",
        "v4 := (v2 + v3)",
        &[Virt(4)],
        false,
        "%0 := #0 | %1 := (%2 + %0) live %1 ask zero(#0) no, in(#0,-128,127) yes => %1 := (%2 + #0)",
    ),
    (
        Tiny,
        "v3 := 128",
        "v4 := (v2 + v3)",
        &[Virt(4)],
        false,
        "%0 := #0 | %1 := (%2 + %0) live %1 ask zero(#0) no, in(#0,-128,127) no => keep",
    ),
    // a question about what two constants come to
    (
        Tiny,
        "v1 := (v0 + 5)",
        "v2 := (v1 + -5)",
        &[Virt(2)],
        false,
        "%0 := (%1 + #0) | %2 := (%0 + #1) live %2 ask zero(#0) no, zero((#0 + #1)) yes => %2 := %1",
    ),
    // the read may meet the store
    (
        Tiny,
        "M[(fp + 4)] := v1",
        "v2 := M[v3]",
        &[Virt(2)],
        false,
        "M[(fp + #0)] := %0 | %1 := M[%2] live %1 ask zero(#0) no => keep",
    ),
    // it doesn't, and it does; no entry has two transfers
    (
        Tiny,
        "M[(fp + 4)] := v1",
        "v2 := M[(fp + 5)]",
        &[Virt(2)],
        false,
        "M[(fp + #0)] := %0 | %1 := M[(fp + #1)] live %1 ask zero(#0) no, zero(#1) no, same(#0,#1) no => keep",
    ),
    (
        Tiny,
        "M[(fp + 4)] := v1",
        "v2 := M[(fp + 4)]",
        &[Virt(2)],
        false,
        "M[(fp + #0)] := %0 | %1 := M[(fp + #1)] live %1 ask zero(#0) no, zero(#1) no, same(#0,#1) yes => keep",
    ),
    // a register that is met twice has one hole
    (
        Tiny,
        "v1 := v2",
        "v3 := (v1 + v1)",
        &[Virt(3)],
        false,
        "%0 := %1 | %2 := (%0 + %0) live %2 ask - => %2 := (%1 + %1)",
    ),
    (
        Tiny,
        "v1 := v2",
        "v3 := (v1 + v4)",
        &[Virt(3)],
        false,
        "%0 := %1 | %2 := (%0 + %3) live %2 ask - => %2 := (%1 + %3)",
    ),
    // one register more is live
    (
        Tiny,
        "v3 := 1",
        "v4 := (v2 + v3)",
        &[Virt(3), Virt(4)],
        false,
        "%0 := #0 | %1 := (%2 + %0) live %0 %1 ask zero(#0) no => keep",
    ),
    // one store at the address of another
    (
        Tiny,
        "M[(fp + 4)] := v1",
        "M[(fp + 4)] := v2",
        &[],
        false,
        "M[(fp + #0)] := %0 | M[(fp + #1)] := %1 live - \
ask zero(#0) no, zero(#1) no, same(#0,#1) yes, in(#1,-128,127) yes => M[(fp + #1)] := %1",
    ),
    // an entry that clobbers cc is passed over where cc is live, without a question
    (
        Clobbering,
        "v3 := 1",
        "v4 := (v2 + v3)",
        &[Virt(4)],
        true,
        "%0 := #0 | %1 := (%2 + %0) live %1 cc ask zero(#0) no => keep",
    ),
    // a constant that is what another comes to
    (
        Shifting,
        "v1 := 8",
        "v2 := (v0 * v1)",
        &[Virt(2)],
        false,
        "%0 := #0 | %1 := (%2 * %0) live %1 \
ask zero(#0) no, one(#0) no, pow2(#0) yes, in(log2(#0),0,31) yes => %1 := (%2 << {log2(#0)})",
    ),
    // a number that is no hole
    (
        Tiny,
        "v1 := v0",
        "v2 := (v1 - v0)",
        &[Virt(2)],
        false,
        "%0 := %1 | %2 := (%0 - %1) live %2 ask - => %2 := 0",
    ),
    // a branch that is decided
    (
        Tiny,
        "v0 := 3",
        "if v0 ? 3 eq goto L0",
        &[],
        false,
        "%0 := #0 | if %0 ? #1 eq goto @0 live - ask eq(#0,#1) yes => goto @0",
    ),
];

/// The rule of a pair, with its own count of steps.
fn counted<L: Ledger>(
    alloc: Global,
    m: Arc<Machine>,
    p: &Pair,
    ledger: Blank,
) -> Result<Learned, OutOfMemory>
    requires machine { IsMachine (arc_value m) }
    requires first { WellFormed (instr_of p.now.a) }
    requires second { WellFormed (instr_of p.now.b) }
    requires name { ledger.name ≡ L.name }
    requires parts { ledger.parts ≡ L.parts }
    requires some { 0 < ledger.parts }
    ensures { IfOk result (λ l. rule_of l.1 ≡ generalised (arc_value m) (pair_of p.now)) }
{
    let mut steps = Steps::<L>::new(ledger);
    generalise(alloc, m, p, &mut steps)
}

fn learned(alloc: Global, m: Arc<Machine>, p: &Pair) -> Result<Learned, OutOfMemory>
    requires machine { IsMachine (arc_value m) }
    requires first { WellFormed (instr_of p.now.a) }
    requires second { WellFormed (instr_of p.now.b) }
    ensures { IfOk result (λ l. rule_of l.1 ≡ generalised (arc_value m) (pair_of p.now)) }
{
    counted::<Brand>(alloc, m, p, Blank::new(1))
}

/// Whether the rule of a pair has this text.
fn has_rule(alloc: Global, m: Machine, p: &Pair, text: &str) -> Result<bool, Fail>
    requires { IsMachine m }
{
    if well_formed(&p.a) && well_formed(&p.b) {
        let m = Arc::new(alloc, m)?;
        let learned = learned(alloc, m, p)?;
        let printed = print_rule(alloc, learned.rule())?;
        Ok(printed.as_slice() == text.as_bytes())
    } else {
        Err(Fail::from("not well formed"))
    }
}

/// `tiny` with `clobber cc` at its `addi`.
fn clobbering(alloc: Global) -> Result<String, Fail> {
    let (before, behind) = TINY.split_once(" => addi ").ok_or("no addi")?;
    Ok(format!(in alloc; "{before} clobber cc => addi {behind}")?)
}

/// `tiny` with an entry at its end that shifts.
fn shifting(alloc: Global) -> Result<String, Fail> {
    let tiny = TINY.strip_suffix("end\n").ok_or("no end")?;
    let entry = "insn %0 := (%1 << #2[0,31]) => shl %0,%1,#2";
    Ok(format!(in alloc; "{tiny}{entry}\nend\n")?)
}

fn description(alloc: Global, on: On) -> Result<String, Fail> {
    match on {
        Tiny => Ok(format!(in alloc; "{TINY}")?),
        Clobbering => clobbering(alloc),
        Shifting => shifting(alloc),
    }
}

fn is_row(alloc: Global, row: Row) -> Result<bool, Fail> {
    let (on, a, b, live, cc, text) = row;
    let m = machine(alloc, description(alloc, on)?.as_str())?;
    has_rule(alloc, m, &pair(alloc, a, b, live, cc)?, text)
}

#[test]
fn rules(rt: HostRuntime) -> Result<(), Fail> {
    let alloc = rt.alloc();
    for row in ROWS {
        assert!(rt; is_row(alloc, row)?, "{}", row.5);
    }
    rules_are_canonical();
    rules_are_filled();
    one_rule();
    Ok(())
}
