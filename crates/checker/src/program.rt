// An accepted program: its order and its tables.
ghost use Rattle.std.specs.Prelude.{◌≡◌, ◌≤◌, true};
ghost use Rattle.arrayvec.specs.ArrayVec.{array_vec_len};
ghost use Rattle.checker.specs.Accepting.{tables_in, is_accepted};

use crate::tables::Tables;
use labels::LabelOrder;

// The tables are accepted under the order, whoever holds the program, and there is a record to begin with.
#[derive(Drop)]
pub struct Program<O: LabelOrder> {
    pub(crate) order: O,
    pub(crate) tables: Tables,
    ghost accepted: { is_accepted (O.meaning order) (tables_in tables) ≡ true },
    ghost begins: { 1 ≤ array_vec_len tables.records },
}
