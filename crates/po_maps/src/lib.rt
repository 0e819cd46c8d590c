//! Lemmas alone, for the crates that replace what an instruction is made of.
//!
//! Recognition and slow combination are read over any kind of constants and leaves. Where constants, leaves,
//! registers, symbols and labels are replaced so that what was one stays one and what was two stays two
//! (`Renames`), reading follows the map: the questions that are asked are those asked before, replaced, and where
//! they have the same answers, so is what is found (`first_fit-follows`, `recognised-follows`, `combined-follows`).
//! What `po_simplify` and `po_subst` show of their own tables, this shows of the whole. Renaming a pair is one such
//! map (`po_skel`), and putting values into a shape is another (`po_general`).
#![tactic(auto)]
