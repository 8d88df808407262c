// The two tables of a program.
ghost use Rattle.std.specs.Prelude.{◌≤◌};
ghost use Rattle.arrayvec.specs.ArrayVec.{array_vec_len};

use arrayvec::ArrayVec;
use sheet::{Record, Variable};

// The variables and the records, of which there are as many as a sheet may have. They stand in place, so that a yes never
// depends on free memory.
#[derive(Drop)]
pub(crate) struct Tables {
    pub(crate) variables: ArrayVec<Variable, 64>,
    pub(crate) records: ArrayVec<Record, 512>,
    ghost fits: { (array_vec_len variables ≤ 64) × (array_vec_len records ≤ 512) },
}
