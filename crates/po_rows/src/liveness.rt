//! What is live after each instruction of small codes, by hand from the rules of liveness.
ghost use Rattle.std.specs.Prelude.{ℕ, ◌≡◌, ◌↔◌, ◌<◌, IsTrue, map, length, None};
ghost use Rattle.po_term.specs.Moves.{moves_of, instrs_of};
ghost use Rattle.po_model.specs.Blocks.{block_of, code_of, instrs_at, EndsLast, IsCode};
ghost use Rattle.po_model.specs.Parts.{ending_of};
ghost use Rattle.po_live.specs.Parts.{blocks_in, parts_in, IsLiveList, HasParts};

use po_live::{LiveAt, LiveList, Lives, live_after, live_list};
use po_model::{Block, Code, Live};
use po_term::{Cond, Instr, Label, Reg, Sym, Term, Transfer};
use po_word::{OutOfMemory, Rel};
use std::alloc::Global;
use std::test::Fail;

/// Codes by their blocks, in which a digit is the block's label and each letter an instruction (`transfer` says
/// which); and what is live after each instruction.
const CODES: [(&[&str], &str); 7] = [
    // a straight block
    (&["zuvr"], "v0 fp;v1 fp;fp rv;fp;"),
    // a loop, at whose end v0 is live since its start reads it
    (
        &["z", "0ucb", "r"],
        "v0 fp rv;v0 v1 fp rv;v0 fp rv cc;v0 fp rv;fp;",
    ),
    // cc is read over a branch, behind the label and not behind the branch
    (
        &["cB", "zr", "1b", "r"],
        "fp rv cc;fp rv cc;fp rv;fp;fp rv;fp;",
    ),
    // a call reads two arguments, and sets rv and cc
    (
        &["xyck", "wb", "r"],
        "v0 v1 fp arg0;v0 v1 fp arg0 arg1;fp arg0 arg1;fp rv cc;fp rv cc;fp rv;fp;",
    ),
    // behind a jump to a label that no block has nothing is read
    (&["zg", "ur"], "fp;fp;fp rv;fp;"),
    // through a block that has only a label
    (&["zg", "1", "ur"], "v0 fp rv;v0 fp rv;fp rv;fp;"),
    // the first of two blocks with one label
    (&["zg", "1ur", "1r"], "v0 fp rv;v0 fp rv;fp rv;fp;fp;"),
];

/// The registers of these codes, in the order in which they are shown.
const REGS: [Reg; 7] = [
    Reg::Virt(0),
    Reg::Virt(1),
    Reg::Virt(2),
    Reg::Fp,
    Reg::Rv,
    Reg::Arg(0),
    Reg::Arg(1),
];

fn transfer(letter: u8) -> Transfer {
    let v = |n: u32| Term::Reg(Reg::Virt(n));
    match letter {
        b'z' => Transfer::Set(Reg::Virt(0), Term::Num(1)),
        b'u' => Transfer::Set(Reg::Virt(1), v(0)),
        b'v' => Transfer::Set(Reg::Rv, v(1)),
        b'w' => Transfer::Set(Reg::Virt(2), Term::Reg(Reg::Rv)),
        b'x' => Transfer::Set(Reg::Arg(0), v(0)),
        b'y' => Transfer::Set(Reg::Arg(1), v(0)),
        b'c' => Transfer::Cc(v(0), v(1)),
        b'b' => Transfer::If(Cond::Cc, Rel::Eq, Label(0)),
        b'B' => Transfer::If(Cond::Cc, Rel::Eq, Label(1)),
        b'g' => Transfer::Goto(Label(1)),
        b'k' => Transfer::Call(Sym(0), 2),
        _ => Transfer::Ret,
    }
}

fn block(alloc: Global, letters: &str) -> Result<Block, OutOfMemory> {
    let mut label = None;
    let mut instrs = Vec::new(alloc);
    for letter in letters.as_bytes() {
        match *letter {
            b'0' => label = Some(Label(0)),
            b'1' => label = Some(Label(1)),
            other => {
                let mut xs = Vec::new(alloc);
                xs.push(transfer(other))?;
                instrs.push(Instr { xs })?;
            }
        }
    }
    Ok(Block { label, instrs })
}

fn code(alloc: Global, parts: &[&str]) -> Result<Code, OutOfMemory> {
    let mut blocks = Vec::new(alloc);
    for part in parts {
        blocks.push(block(alloc, part)?)?;
    }
    Ok(Code { blocks })
}

fn is_plain(xs: &[Transfer]) -> bool
    ensures { IsTrue result ↔ (ending_of (moves_of xs.now) ≡ None) }
{
    match xs {
        [] => true,
        [
            Transfer::Set(_, _) | Transfer::Cc(_, _) | Transfer::Store(_, _),
            rest @ ..,
        ] => { is_plain(rest) }
        _ => false,
    }
}

fn block_ends_last(xs: &[Instr]) -> bool
    ensures { IsTrue result ↔ EndsLast (instrs_of xs.now) }
{
    match xs {
        [] => true,
        [_] => true,
        [x, rest @ ..] => is_plain(&x.xs) && block_ends_last(rest),
    }
}

fn blocks_end_last(blocks: &[Block]) -> bool
    ensures { IsTrue result → IsCode (map block_of blocks.now) }
{
    match blocks {
        [] => true,
        [b, rest @ ..] => block_ends_last(&b.instrs) && blocks_end_last(rest),
    }
}

fn name(r: Reg) -> &'static str {
    match r {
        Reg::Virt(0) => "v0 ",
        Reg::Virt(1) => "v1 ",
        Reg::Virt(_) => "v2 ",
        Reg::Fp => "fp ",
        Reg::Rv => "rv ",
        Reg::Arg(0) => "arg0 ",
        Reg::Arg(_) => "arg1 ",
    }
}

fn show_cc(text: &mut String, cc: bool) -> Result<(), OutOfMemory> {
    if cc {
        text.push_str("cc ")?;
    }
    text.pop();
    text.push_str(";")?;
    Ok(())
}

fn show(text: &mut String, live: &Live) -> Result<(), OutOfMemory> {
    for r in &live.regs {
        text.push_str(name(*r))?;
    }
    show_cc(text, live.cc)
}

fn shown(alloc: Global, lives: &Lives) -> Result<String, OutOfMemory> {
    let mut text = String::new(alloc);
    for block in &lives.after {
        for live in block {
            show(&mut text, live)?;
        }
    }
    Ok(text)
}

fn show_part(text: &mut String, live: LiveAt) -> Result<(), OutOfMemory> {
    for r in &REGS {
        if live.has(*r) {
            text.push_str(name(*r))?;
        }
    }
    show_cc(text, live.cc)
}

fn show_parts(text: &mut String, list: &LiveList, b: usize, n: usize) -> Result<(), OutOfMemory>
    requires { HasParts list.now b n }
{
    for i in 0..n {
        show_part(text, list.at(b, i))?;
    }
    Ok(())
}

fn show_block(text: &mut String, c: &Code, list: &LiveList, b: usize) -> Result<(), OutOfMemory>
    requires block { b < length c.now.blocks.items }
    requires list { IsLiveList list.now }
    requires blocks { blocks_in list.now ≡ length (code_of c.now) }
    requires lengths { (b : ℕ) → parts_in list.now b ≡ length (instrs_at (code_of c.now) b) }
{
    show_parts(text, list, b, c.blocks[b].instrs.len())
}

/// What the list of a code says, after each instruction.
fn shown_parts(alloc: Global, c: &Code, list: &LiveList) -> Result<String, OutOfMemory>
    requires list { IsLiveList list.now }
    requires blocks { blocks_in list.now ≡ length (code_of c.now) }
    requires lengths { (b : ℕ) → parts_in list.now b ≡ length (instrs_at (code_of c.now) b) }
{
    let mut text = String::new(alloc);
    for b in 0..c.blocks.len() {
        show_block(&mut text, c, list, b)?;
    }
    Ok(text)
}

#[test]
fn codes(rt: HostRuntime) -> Result<(), Fail> {
    let alloc = rt.alloc();
    for (parts, want) in CODES {
        let c = code(alloc, parts)?;
        assert!(rt; blocks_end_last(&c.blocks));
        let lives = live_after(alloc, &c)?;
        let text = shown(alloc, &lives)?;
        assert_eq!(rt; text.as_str(), want);
        let list = live_list(alloc, &c)?;
        let parts = shown_parts(alloc, &c, &list)?;
        assert_eq!(rt; parts.as_str(), want);
    }
    Ok(())
}
