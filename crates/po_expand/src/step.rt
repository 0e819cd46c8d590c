//! What each operation does. The registers are numbered in the order in which they are set.

ghost use Rattle.std.specs.Prelude.{◌≡◌, ◌<◌, ◌≤◌, ◌+◌, ◌-◌, ◌^◌, ◌++◌, ◌∷◌, [], List, length, OnOk, IfOk};
ghost use Rattle.po_word.specs.declared.operator.Bin.TheVariants.{Add as Sum};
ghost use Rattle.po_term.specs.Tree.{Unary, Binary, Read};
ghost use Rattle.po_term.specs.Terms.{tree_of};
ghost use Rattle.po_ir.specs.Ops.{pops};
ghost use Rattle.po_ir.specs.declared.unit.Op.TheVariants as op;
ghost use Rattle.po_model.specs.Naive.{Text, virt, label, symbol};
ghost use Rattle.po_expand.specs.Steps.{between, defined, pushed, Expands};

use crate::names::Numbered;
use crate::state::Expansion;
use po_ir::Op;
use po_term::{Cond, Label, Reg, Sym, Term, Transfer};
use po_word::{Bin, OutOfMemory, Rel, Un};
use std::alloc::Global;

/// The register with this number.
fn virt(number: u32) -> Term
    ensures { tree_of result ≡ virt number }
{
    Term::Reg(Reg::Virt(number))
}

fn push_number(stack: &mut Vec<u32>, number: u32) -> Result<(), OutOfMemory>
    ensures { OnOk result (stack.new.items ≡ stack.old.items ++ number ∷ []) }
{
    match stack.push(number) {
        Ok(()) => Ok(()),
        Err(_) => Err(OutOfMemory),
    }
}

fn word_at(alloc: Global, address: Term) -> Result<Term, OutOfMemory>
    ensures { IfOk result (λ term. tree_of term ≡ Read (tree_of address)) }
{
    Ok(Term::Mem(Box::new(alloc, address)?))
}

fn unary(alloc: Global, op: Un, x: Term) -> Result<Term, OutOfMemory>
    ensures { IfOk result (λ term. tree_of term ≡ Unary op (tree_of x)) }
{
    Ok(Term::Un(op, Box::new(alloc, x)?))
}

fn binary(alloc: Global, op: Bin, left: Term, right: Term) -> Result<Term, OutOfMemory>
    ensures { IfOk result (λ term. tree_of term ≡ Binary op (tree_of left) (tree_of right)) }
{
    let left = Box::new(alloc, left)?;
    let right = Box::new(alloc, right)?;
    Ok(Term::Bin(op, left, right))
}

impl Expansion {
    /// Puts a register on the stack.
    fn push(&mut self, number: u32) -> Result<(), OutOfMemory>
        ensures { OnOk result (between self.new ≡ pushed number (between self.old)) }
    {
        push_number(&mut self.stack, number)
    }

    /// Takes the register on top of the stack.
    fn pop(&mut self) -> u32
        requires { 1 ≤ length self.old.stack.items }
        ensures stack { between self.old ≡ pushed result (between self.new) }
        ensures depth { length self.old.stack.items ≡ length self.new.stack.items + 1 }
    {
        match self.stack.pop() {
            Some(number) => number,
            None => unreachable!(),
        }
    }

    /// Sets the next register to a term, and puts it on the stack.
    fn define(&mut self, alloc: Global, term: Term) -> Result<(), OutOfMemory>
        requires { self.old.next < 2 ^ 32 - 1 }
        ensures { OnOk result (between self.new ≡ defined (tree_of term) (between self.old)) }
    {
        let number = self.next;
        self.add(alloc, Transfer::Set(Reg::Virt(number), term))?;
        self.push(number)?;
        self.next += 1;
        Ok(())
    }
}

/// What the operations do, one function for each form.
impl Expansion {
    fn constant(&mut self, alloc: Global, number: u32) -> Result<(), OutOfMemory>
        requires { self.old.next < 2 ^ 32 - 1 }
        ensures { OnOk result
            ((labels syms : List Text) → Expands labels syms (op.Con number) (between self.old) (between self.new)) }
    {
        self.define(alloc, Term::Num(number))
    }

    #[tactic(auto, using(crate::proofs::Steps::adl_is))]
    fn frame_address(&mut self, alloc: Global, number: u32) -> Result<(), OutOfMemory>
        requires { self.old.next < 2 ^ 32 - 1 }
        ensures { OnOk result
            ((labels syms : List Text) → Expands labels syms (op.Adl number) (between self.old) (between self.new)) }
    {
        let address = binary(alloc, Bin::Add, Term::Reg(Reg::Fp), Term::Num(number))?;
        self.define(alloc, address)
    }

    fn symbol_address(&mut self, alloc: Global, sym: Sym) -> Result<(), OutOfMemory>
        requires { self.old.next < 2 ^ 32 - 1 }
        ensures { OnOk result ((labels syms : List Text) (s : Text) → symbol labels syms s ≡ sym
            → Expands labels syms (op.Adg s) (between self.old) (between self.new)) }
    {
        self.define(alloc, Term::Addr(sym))
    }

    #[tactic(auto, using(crate::proofs::Steps::lod_is))]
    fn load(&mut self, alloc: Global) -> Result<(), OutOfMemory>
        requires room { self.old.next < 2 ^ 32 - 1 }
        requires values { 1 ≤ length self.old.stack.items }
        ensures { OnOk result
            ((labels syms : List Text) → Expands labels syms op.Lod (between self.old) (between self.new)) }
    {
        let address = self.pop();
        let word = word_at(alloc, virt(address))?;
        self.define(alloc, word)
    }

    #[tactic(auto, using(crate::proofs::Steps::sto_is))]
    fn store(&mut self, alloc: Global) -> Result<(), OutOfMemory>
        requires { 2 ≤ length self.old.stack.items }
        ensures { OnOk result
            ((labels syms : List Text) → Expands labels syms op.Sto (between self.old) (between self.new)) }
    {
        let value = self.pop();
        let address = self.pop();
        self.add(alloc, Transfer::Store(virt(address), virt(value)))
    }

    #[tactic(auto, using(crate::proofs::Steps::bin_is))]
    fn apply_two(&mut self, alloc: Global, operator: Bin) -> Result<(), OutOfMemory>
        requires room { self.old.next < 2 ^ 32 - 1 }
        requires values { 2 ≤ length self.old.stack.items }
        ensures { OnOk result
            ((labels syms : List Text) → Expands labels syms (op.Bin operator) (between self.old) (between self.new)) }
    {
        let right = self.pop();
        let left = self.pop();
        let value = binary(alloc, operator, virt(left), virt(right))?;
        self.define(alloc, value)
    }

    #[tactic(auto, using(crate::proofs::Steps::un_is))]
    fn apply_one(&mut self, alloc: Global, operator: Un) -> Result<(), OutOfMemory>
        requires room { self.old.next < 2 ^ 32 - 1 }
        requires values { 1 ≤ length self.old.stack.items }
        ensures { OnOk result
            ((labels syms : List Text) → Expands labels syms (op.Un operator) (between self.old) (between self.new)) }
    {
        let operand = self.pop();
        let value = unary(alloc, operator, virt(operand))?;
        self.define(alloc, value)
    }

    #[tactic(auto, using(crate::proofs::Steps::dup_is))]
    fn duplicate(&mut self) -> Result<(), OutOfMemory>
        requires { 1 ≤ length self.old.stack.items }
        ensures { OnOk result
            ((labels syms : List Text) → Expands labels syms op.Dup (between self.old) (between self.new)) }
    {
        let top = self.pop();
        self.push(top)?;
        self.push(top)
    }

    #[tactic(auto, using(crate::proofs::Steps::pop_is))]
    fn discard(&mut self) -> Result<(), OutOfMemory>
        requires { 1 ≤ length self.old.stack.items }
        ensures { OnOk result
            ((labels syms : List Text) → Expands labels syms op.Pop (between self.old) (between self.new)) }
    {
        self.pop();
        Ok(())
    }

    #[tactic(auto, using(crate::proofs::Steps::lab_is))]
    fn name_place(&mut self, alloc: Global, target: Label) -> Result<(), OutOfMemory>
        ensures { OnOk result ((labels syms : List Text) (l : Text) → label labels syms l ≡ target
            → Expands labels syms (op.Lab l) (between self.old) (between self.new)) }
    {
        self.mark(alloc, target)
    }

    #[tactic(auto, using(crate::proofs::Steps::jmp_is))]
    fn jump(&mut self, alloc: Global, target: Label) -> Result<(), OutOfMemory>
        ensures { OnOk result ((labels syms : List Text) (l : Text) → label labels syms l ≡ target
            → Expands labels syms (op.Jmp l) (between self.old) (between self.new)) }
    {
        self.add(alloc, Transfer::Goto(target))?;
        self.close(alloc)
    }

    #[tactic(auto, using(crate::proofs::Steps::br_is))]
    fn branch_on(&mut self, alloc: Global, relation: Rel, target: Label) -> Result<(), OutOfMemory>
        requires { 2 ≤ length self.old.stack.items }
        ensures { OnOk result ((labels syms : List Text) (l : Text) → label labels syms l ≡ target
            → Expands labels syms (op.Br relation l) (between self.old) (between self.new)) }
    {
        let right = self.pop();
        let left = self.pop();
        self.add(alloc, Transfer::Cc(virt(left), virt(right)))?;
        self.add(alloc, Transfer::If(Cond::Cc, relation, target))?;
        self.close(alloc)
    }

    #[tactic(auto, using(crate::proofs::Steps::arg_is))]
    fn set_argument(&mut self, alloc: Global, number: u8) -> Result<(), OutOfMemory>
        requires { 1 ≤ length self.old.stack.items }
        ensures { OnOk result
            ((labels syms : List Text) → Expands labels syms (op.Arg number) (between self.old) (between self.new)) }
    {
        let value = self.pop();
        self.add(alloc, Transfer::Set(Reg::Arg(number), virt(value)))
    }

    #[tactic(auto, using(crate::proofs::Steps::call_is))]
    fn call(&mut self, alloc: Global, function: Sym, count: u8) -> Result<(), OutOfMemory>
        requires { self.old.next < 2 ^ 32 - 1 }
        ensures { OnOk result ((labels syms : List Text) (f : Text) → symbol labels syms f ≡ function
            → Expands labels syms (op.Call f count) (between self.old) (between self.new)) }
    {
        self.add(alloc, Transfer::Call(function, count))?;
        self.close(alloc)?;
        self.define(alloc, Term::Reg(Reg::Rv))
    }

    #[tactic(auto, using(crate::proofs::Steps::ret_is))]
    fn leave(&mut self, alloc: Global) -> Result<(), OutOfMemory>
        requires { 1 ≤ length self.old.stack.items }
        ensures { OnOk result
            ((labels syms : List Text) → Expands labels syms op.Ret (between self.old) (between self.new)) }
    {
        let value = self.pop();
        self.add(alloc, Transfer::Set(Reg::Rv, virt(value)))?;
        self.add(alloc, Transfer::Ret)?;
        self.close(alloc)
    }

    /// Adds the code of an operation that finds its values on the stack.
    pub fn step(
        &mut self,
        alloc: Global,
        labels: &Numbered,
        syms: &Numbered,
        op: &Op,
    ) -> Result<(), OutOfMemory>
        requires room { self.old.next < 2 ^ 32 - 1 }
        requires labels { length labels.now.table < 2 ^ 32 }
        requires syms { length syms.now.table < 2 ^ 32 }
        requires values { pops op.now ≤ length self.old.stack.items }
        ensures { OnOk result (Expands labels.now.table syms.now.table op.now (between self.old) (between self.new)) }
    {
        match op {
            Op::Con(n) => self.constant(alloc, *n),
            Op::Adl(n) => self.frame_address(alloc, *n),
            Op::Adg(s) => self.symbol_address(alloc, Sym(syms.number(s))),
            Op::Lod => self.load(alloc),
            Op::Sto => self.store(alloc),
            Op::Bin(operator) => self.apply_two(alloc, *operator),
            Op::Un(operator) => self.apply_one(alloc, *operator),
            Op::Dup => self.duplicate(),
            Op::Pop => self.discard(),
            Op::Lab(l) => self.name_place(alloc, Label(labels.number(l))),
            Op::Jmp(l) => self.jump(alloc, Label(labels.number(l))),
            Op::Br(relation, l) => self.branch_on(alloc, *relation, Label(labels.number(l))),
            Op::Arg(k) => self.set_argument(alloc, *k),
            Op::Call(f, n) => self.call(alloc, Sym(syms.number(f)), *n),
            Op::Ret => self.leave(alloc),
        }
    }
}
