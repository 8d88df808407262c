// The records of tables that are well linked, each with the place where it stands.
ghost use Rattle.std.specs.Prelude.{◌≡◌};
ghost use Rattle.checker.specs.Walking.{nested};

use crate::tables::Tables;
use model::Place;

#[derive(Drop)]
pub(crate) struct Nested<'a> {
    pub(crate) tables: &'a Tables,
    pub(crate) places: &'a [Place],
    ghost filled: { places.now ≡ nested tables.now.records.items },
}
