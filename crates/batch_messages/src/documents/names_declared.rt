//! The faults in the names that a table declares or uses.
use crate::documents::declared::{first_named, listed_twice, names_of};
use crate::documents::entries::Wrong;
use crate::documents::entry::Entry;
use crate::documents::kinds::{OF_RECIPES, VALUES, kinds_below, namesakes_of};
use crate::documents::lines::line_of;
use crate::documents::table_said;
use crate::near::meant_or_known;
use batch_reader::TableKind;
use std::alloc::AllocError;

impl Entry<'_> {
    /// Says which name at the key of the table is declared nowhere.
    pub(crate) fn undeclared(self, key: &'static str) -> Result<Wrong<'static>, AllocError> {
        let said = match key {
            "chart" => {
                let of_acts = kinds_below(self.spot.kind);
                let (name, kinds) = self.undeclared_in_chart().unwrap_or(("", of_acts));
                self.reference_said(key, name, kinds)
            }
            "values" => self.reference_said(key, self.undeclared_at(key, &VALUES), &VALUES),
            "reports" => self.undeclared_said(key, TableKind::Output),
            "role" => self.undeclared_said(key, TableKind::Role),
            "reserves" => self.undeclared_said(key, TableKind::UnitProcedure),
            _ => self.no_unit_said(key),
        };
        Wrong::with(key, said)
    }

    /// Says that the unit at the key is none of the cell's: that of a desk, whose document has no units, or of a module.
    fn no_unit_said(self, key: &str) -> Result<String, AllocError> {
        if self.spot.kind != TableKind::Desk {
            return self.undeclared_said(key, TableKind::Unit);
        }
        let unit = self.text_at(key);
        format!(in self.alloc; "the cell has no unit `{unit}`")
    }

    /// Says that no table of the kind has a name at the key, and which tables have it, or which name may have been meant.
    fn undeclared_said(self, key: &str, kind: TableKind) -> Result<String, AllocError> {
        let name = self.undeclared_at(key, &[kind]);
        let word = kind.word();
        let said = match first_named(self.document, &OF_RECIPES, name) {
            Some(other) => {
                let other = other.kind.word();
                format!(in self.alloc; "no [[{word}]] is named `{name}`, which is a [[{other}]]")?
            }
            None => {
                let meant = self.meant_said(name, &[kind])?;
                format!(in self.alloc; "no [[{word}]] is named `{name}`{meant}")?
            }
        };
        // Unless a role was meant, it may have been a unit.
        if kind != TableKind::Role || said.ends_with('?') {
            return Ok(said);
        }
        format!(in self.alloc; "{said}; a unit of the cell is named by the key `unit`")
    }

    /// Says that the name of a chart, or of a list of values, is declared nowhere, or as something else.
    fn reference_said(
        self,
        key: &str,
        name: &str,
        kinds: &[TableKind],
    ) -> Result<String, AllocError> {
        let Some(other) = first_named(self.document, &OF_RECIPES, name) else {
            let meant = self.meant_said(name, kinds)?;
            return format!(in self.alloc; "`{name}` is declared nowhere{meant}");
        };
        let word = other.kind.word();
        match (key, kinds) {
            ("values", _) => format!(in self.alloc;
                "`{name}` is a [[{word}]], and `values` are of the kinds [[input]], [[parameter]] and [[output]]"
            ),
            (_, [below]) => format!(in self.alloc;
                "`{name}` is a [[{word}]], and a label of this chart names a [[{}]]",
                below.word()
            ),
            _ => format!(in self.alloc;
                "`{name}` is a [[{word}]], and a condition compares values: an [[input]], a [[parameter]] or an [[output]]"
            ),
        }
    }

    /// The name of a table of these kinds that may have been meant, or those that there are.
    fn meant_said(self, name: &str, kinds: &[TableKind]) -> Result<String, AllocError> {
        meant_or_known(self.alloc, name, names_of(self.alloc, self.document, kinds))
    }

    /// Says which name at the key of the table occurs twice.
    pub(crate) fn duplicate(self, key: &'static str) -> Result<Wrong<'static>, AllocError> {
        let said = match key {
            "name" => self.namesake_said(),
            "phases" => self.offered_said(),
            _ => {
                let name = listed_twice(self.table, key).unwrap_or("");
                format!(in self.alloc; "`{name}` stands twice in `{key}`")
            }
        };
        Wrong::with(key, said)
    }

    /// Says which table has the name of this one already.
    fn namesake_said(self) -> Result<String, AllocError> {
        let name = self.text_at("name");
        let namesakes = namesakes_of(&self.spot.kind);
        let first = first_named(self.document, namesakes, name).unwrap_or(self.spot);
        let table = table_said(self.alloc, first)?;
        match line_of(self.text, self.document, first, "name") {
            Some(line) => format!(in self.alloc;
                "the name `{name}` is declared twice: it is that of {table}, in line {line}"
            ),
            None => format!(in self.alloc;
                "the name `{name}` is declared twice: it is that of {table}"
            ),
        }
    }

    /// Says which phase of the module its unit offers twice.
    fn offered_said(self) -> Result<String, AllocError> {
        let unit = self.text_at("unit");
        if let Some(phase) = listed_twice(self.table, "phases") {
            return format!(in self.alloc;
                "the phase `{phase}` is offered twice by the unit `{unit}`: it stands twice in this module"
            );
        }
        let (phase, other) = self.offered_before().unwrap_or(("", ""));
        format!(in self.alloc;
            "the phase `{phase}` is offered twice by the unit `{unit}`: its module `{other}` has it already"
        )
    }
}
