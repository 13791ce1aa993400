// Comparing tables.
ghost use Rattle.std.specs.Prelude.{◌≡◌, Decides};
ghost use Rattle.std.specs.Cmp.{partial_equiv_from_equiv};
ghost use Rattle.table.specs.Equal.{same_table, same_table_equiv};

use super::Table;
use crate::flow::Dimensions;

// Written out, since of a derived `==`, which reads all 64 entries, no caller's check finds `same`.
impl PartialEq for Table {
    ghost eq = { same_table };

    ghost laws = { partial_equiv_from_equiv same_table_equiv };

    fn eq(&self, other: &Table) -> bool
        ensures parts { result ≡ same_table self.now other.now }
        ensures same { Decides result (self.now ≡ other.now) }
    {
        self.dimensions == other.dimensions && self.flows() == other.flows()
    }
}

impl Eq for Table {
    ghost laws = { same_table_equiv };
}
