//! The files and lines of the acts of recipes.
use crate::header::header_in;
use crate::showing::shown;
use crate::ways::WayUp;
use batch_recipe::{Kind, LabelTable, Recipe, act_at};
use std::alloc::{AllocError, Global};

/// The document of a recipe: its path, and the lines in which the tables of its acts begin.
#[derive(Drop)]
pub struct RecipeSource {
    /// The path, with its control characters as escapes.
    path: String,
    procedures: Vec<usize>,
    unit_procedures: Vec<usize>,
    operations: Vec<usize>,
    phases: Vec<usize>,
}

impl RecipeSource {
    /// The source of the document at the path, of which only the lines of headers are kept.
    pub fn of(alloc: Global, path: &str, document: &[u8]) -> Result<RecipeSource, AllocError> {
        let mut source = RecipeSource {
            path: shown(alloc, path)?,
            procedures: Vec::new(alloc),
            unit_procedures: Vec::new(alloc),
            operations: Vec::new(alloc),
            phases: Vec::new(alloc),
        };
        let text = std::str::from_utf8(document).unwrap_or("");
        for (number, line) in text.lines().enumerate() {
            source.record_header(number.saturating_add(1), line)?;
        }
        Ok(source)
    }

    /// Keeps the number of the line if it is the header of an act's table.
    fn record_header(&mut self, number: usize, line: &str) -> Result<(), AllocError> {
        let lines = match header_in(line.trim()) {
            Some("procedure") => &mut self.procedures,
            Some("unit_procedure") => &mut self.unit_procedures,
            Some("operation") => &mut self.operations,
            Some("phase") => &mut self.phases,
            _ => return Ok(()),
        };
        lines.push(number)?;
        Ok(())
    }

    pub(crate) fn path(&self) -> &str {
        self.path.as_str()
    }

    /// The line of the table of the node's act, if the document has as many headers as the recipe has tables of the kind.
    pub(crate) fn line_of(&self, recipe: &Recipe, node: u16) -> Option<usize> {
        let mut way = WayUp::from_node(recipe, node);
        let node = way.find(|node| act_at(recipe, *node).is_some())?;
        match recipe.outline.entries.get(usize::from(node))?.kind {
            Kind::Act(table, number) => {
                let tables = recipe.acts.table(table).len();
                line_among(self.lines_of(table), number, tables)
            }
            _ => line_among(&self.procedures, 0, 1),
        }
    }

    fn lines_of(&self, table: LabelTable) -> &[usize] {
        match table {
            LabelTable::UnitProcedures => &self.unit_procedures,
            LabelTable::Operations => &self.operations,
            LabelTable::Phases => &self.phases,
        }
    }
}

/// The line with this number, if there are as many lines as tables.
fn line_among(lines: &[usize], number: usize, tables: usize) -> Option<usize> {
    if lines.len() == tables {
        lines.get(number).copied()
    } else {
        None
    }
}

/// The file of the recipe with this number and the line of the act at its node, as far as they are known, each with a mark behind it.
pub(crate) fn origin_said(
    alloc: Global,
    source: Option<&RecipeSource>,
    recipe: &Recipe,
    node: u16,
) -> Result<String, AllocError> {
    let Some(source) = source else {
        return Ok(String::new(alloc));
    };
    let path = source.path();
    match source.line_of(recipe, node) {
        Some(line) => format!(in alloc; "{path}: line {line}, "),
        None => format!(in alloc; "{path}: "),
    }
}
