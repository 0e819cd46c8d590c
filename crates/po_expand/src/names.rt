//! The labels and symbols of a unit with their numbers: labels in the order of `lab`, symbols by first occurrence. A
//! name is found by a table.

ghost use Rattle.std.specs.Prelude.{◌≡◌, ◌<◌, ◌≤◌, ◌+◌, ◌^◌, ◌++◌, ◌∷◌, [], length, IfOk, OnOk};
ghost use Rattle.std.specs.List.{flat_map};
ghost use Rattle.po_ir.specs.Ops.{label_in, labels_of};
ghost use Rattle.po_model.specs.Naive.{sym_in, with_name, each_once, names_behind, number_in};

use po_ir::Op;
use po_lines::Names;
use po_name::Name;
use po_word::OutOfMemory;
use std::alloc::Global;

/// Names in the order of their numbers, and a table that finds them.
#[derive(Drop)]
pub struct Numbered {
    pub names: Vec<Name>,
    pub table: Names,
}

fn push_name(names: &mut Vec<Name>, name: Name) -> Result<(), OutOfMemory>
    ensures { OnOk result (names.new.items ≡ names.old.items ++ name ∷ []) }
{
    match names.push(name) {
        Ok(()) => Ok(()),
        Err(_) => Err(OutOfMemory),
    }
}

fn none(alloc: Global) -> Numbered
    ensures names { result.names.items ≡ [] }
    ensures table { result.table ≡ [] }
{
    Numbered {
        names: Vec::new(alloc),
        table: Names::new(alloc),
    }
}

impl Numbered {
    /// One name more, where it isn't there.
    fn add(&mut self, alloc: Global, name: &Name) -> Result<(), OutOfMemory>
        requires { self.old.table ≡ self.old.names.items }
        ensures names { OnOk result (self.new.names.items ≡ with_name self.old.names.items name.now) }
        ensures table { OnOk result (self.new.table ≡ self.new.names.items) }
        ensures few { OnOk result (length self.new.names.items ≤ length self.old.names.items + 1) }
    {
        let added = self.table.insert(alloc, name.bytes())?;
        if added {
            push_name(&mut self.names, name.copy(alloc)?)?;
        }
        Ok(())
    }

    fn add_label(&mut self, alloc: Global, op: &Op) -> Result<(), OutOfMemory>
        requires { self.old.table ≡ self.old.names.items }
        ensures names { OnOk result (self.new.names.items ≡ names_behind self.old.names.items (label_in op.now)) }
        ensures table { OnOk result (self.new.table ≡ self.new.names.items) }
        ensures few { OnOk result (length self.new.names.items ≤ length self.old.names.items + 1) }
    {
        match op {
            Op::Lab(label) => self.add(alloc, label),
            _ => Ok(()),
        }
    }

    fn add_sym(&mut self, alloc: Global, op: &Op) -> Result<(), OutOfMemory>
        requires { self.old.table ≡ self.old.names.items }
        ensures names { OnOk result (self.new.names.items ≡ names_behind self.old.names.items (sym_in op.now)) }
        ensures table { OnOk result (self.new.table ≡ self.new.names.items) }
        ensures few { OnOk result (length self.new.names.items ≤ length self.old.names.items + 1) }
    {
        match op {
            Op::Adg(sym) | Op::Call(sym, _) => self.add(alloc, sym),
            _ => Ok(()),
        }
    }

    /// The number of a name: so many stand before it.
    pub fn number(&self, name: &Name) -> u32
        requires { length self.now.table < 2 ^ 32 }
        ensures { result ≡ number_in self.now.table name.now }
    {
        match self.table.place(name.bytes()) {
            Some(place) => place as u32,
            None => self.table.len() as u32,
        }
    }
}

/// The labels of these operations.
#[tactic(auto, using(crate::proofs::Numbers::next_names))]
pub fn labels(alloc: Global, ops: &[Op]) -> Result<Numbered, OutOfMemory>
    ensures names { IfOk result (λ n. n.names.items ≡ each_once (labels_of ops.now)) }
    ensures table { IfOk result (λ n. n.table ≡ n.names.items) }
    ensures few { IfOk result (λ n. length n.names.items ≤ length ops.now) }
{
    let mut all = none(alloc);
    'ops: for op in ops {
        all.add_label(alloc, op)?;
    }
    Ok(all)
}

/// The symbols of these operations.
#[tactic(auto, using(crate::proofs::Numbers::next_names))]
pub fn syms(alloc: Global, ops: &[Op]) -> Result<Numbered, OutOfMemory>
    ensures names { IfOk result (λ n. n.names.items ≡ each_once (flat_map sym_in ops.now)) }
    ensures table { IfOk result (λ n. n.table ≡ n.names.items) }
    ensures few { IfOk result (λ n. length n.names.items ≤ length ops.now) }
{
    let mut all = none(alloc);
    'ops: for op in ops {
        all.add_sym(alloc, op)?;
    }
    Ok(all)
}
