//! The keys of all theorems.

ghost use Rattle.std.specs.Prelude.{◌≡◌, map, IfOk, OnOk};
ghost use Rattle.plain_syntax.specs.Syntax.{kind_of, unit_of, module_of};
ghost use Rattle.theorem_leaves.specs.Homes.{means};
ghost use Rattle.theorem_leaves.specs.Citations.{HasKeys, modules_keys};
ghost use Rattle.theorem_leaves.specs.Keeping.{kept_of, keep_unit, keep_units};

use crate::home::Home;
use core_expr::Memory;
use indexmap::IndexSet;
use std::alloc::Global;
use symbol_table::Scoped;
use tla_ast::{Module, Unit, UnitKind};
/// The keys of the theorems so far, and how many theorems these are.
#[derive(Drop)]
struct Keys {
    found: IndexSet<u64>,
    before: u64,
}

impl Keys {
    /// The key of a unit's theorem, if it is one.
    fn unit(&mut self, home: &Home, unit: &Unit) -> Result<(), Memory>
        ensures { OnOk result (kept_of self.new
            ≡ keep_unit (means home.now) (kind_of unit.now.kind) (kept_of self.old)) }
    {
        if let UnitKind::Theorem {
            name,
            statement: _,
            proof: _,
        } = &unit.kind
        {
            let key = home.theorem_key(self.before, name)?;
            self.found.insert(key)?;
            self.before = self.before.checked_add(1).ok_or(Memory)?;
        }
        Ok(())
    }

    /// Those of units.
    fn units(&mut self, home: &Home, units: &[Unit]) -> Result<(), Memory>
        ensures { OnOk result (kept_of self.new
            ≡ keep_units (means home.now) (map unit_of units.now) (kept_of self.old)) }
    {
        for unit in units {
            self.unit(home, unit)?;
        }
        Ok(())
    }
}

/// The keys of the theorems of modules.
pub fn theorem_keys(
    alloc: Global,
    scoped: &Scoped,
    modules: &[Module],
) -> Result<IndexSet<u64>, Memory>
    ensures { IfOk result (λ s. HasKeys s.keys
        (modules_keys scoped.now 0 0 (map module_of modules.now))) }
{
    let mut keys = Keys {
        found: IndexSet::new(alloc),
        before: 0,
    };
    for (number, module) in modules.iter().enumerate() {
        let home = Home {
            alloc,
            scoped,
            module: number as u64,
        };
        keys.units(&home, module.units.as_slice())?;
    }
    let Keys { found, before: _ } = keys;
    Ok(found)
}
