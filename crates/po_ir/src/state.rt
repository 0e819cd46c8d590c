//! What was read so far.

use crate::begun::Begun;
use crate::unit::Unit;
use po_lines::Names;
use sqlite_items::Items;

/// What was read so far: the units that have ended, their names and that of the one inside, and the unit inside.
#[derive(Drop)]
pub struct State {
    pub units: Items<Unit>,
    pub names: Names,
    pub inside: Option<Begun>,
}
