//! The rule that is broken at a node of a recipe, in words.
use crate::near::meant_said;
use crate::ranks::rank_said;
use crate::roles::{class_of, unit_among, unit_of, unit_without};
use crate::subject::Subject;
use crate::ways::{acts_to, place_said};
use batch_cell::Cell;
use batch_recipe::{Act, Recipe, UnitChoice, Work, follows};
use batch_text::Name;
use batch_verify::{Broken, Rule};
use std::alloc::{AllocError, Global};

impl<'a> Subject<'a> {
    /// Names the broken node of the recipe, and says how it breaks the rule.
    pub(crate) fn broken_said(self, broken: Broken) -> Result<String, AllocError> {
        let alloc = self.alloc;
        let name = &self.recipe.acts.procedure.name;
        let acts = acts_to(alloc, self.recipe, broken.node)?;
        let place = place_said(alloc, self.recipe, broken.node)?;
        let Some(act) = acts.last() else {
            return format!(in alloc; "{name} breaks a rule at {place}");
        };
        let said = self.rule_said(broken, &acts, act)?;
        format!(in alloc; "{name}, {} at {place}: {said}", act.name)
    }

    /// Says how the act, the last on its way, breaks the rule.
    fn rule_said(self, broken: Broken, acts: &[&'a Act], act: &Act) -> Result<String, AllocError> {
        match broken.rule {
            Rule::UnknownResource => self.unknown_said(act),
            Rule::ShareAboveCapacity => self.share_said(act),
            Rule::PhaseNotOffered => self.phase_said(acts, act),
            Rule::SamePhaseInParallel => self.parallel_said(broken.node),
            Rule::LoopWithoutPhase => String::from_str(
                self.alloc,
                "a turn of this `loop` may run no phase; each way through its chart has to run one, as by a phase in place of `skip`",
            ),
            Rule::ReserveDoesNotFollow => self.reserve_said(broken.node, act),
            Rule::RankNotRising => rank_said(self, acts),
        }
    }

    /// Names the act's first ask that is for no resource: its unit, a unit that it reserves, or a need.
    fn unknown_said(self, act: &Act) -> Result<String, AllocError> {
        if let Some(choice) = self.lacking(act.unit.as_ref()) {
            return self.lacking_said(choice, None);
        }
        for name in &act.reserves {
            if let Some(choice) = self.lacking(unit_of(self.recipe, name)) {
                return self.lacking_said(choice, Some(name));
            }
        }
        self.need_said(act)
    }

    /// This choice, if the cell lacks the unit, or each unit that may take the role.
    fn lacking<'b>(self, choice: Option<&'b UnitChoice>) -> Option<&'b UnitChoice> {
        choice.filter(|choice| match choice {
            UnitChoice::Unit(unit) => self.cell.unit_of(unit).is_none(),
            UnitChoice::Role(role) => {
                class_of(self.recipe, role).is_some_and(|class| !self.is_class(class))
            }
        })
    }

    /// Says that the cell lacks the unit, or each unit that may take the role: that of the act, or of the unit procedure that it reserves.
    fn lacking_said(self, choice: &UnitChoice, owner: Option<&Name>) -> Result<String, AllocError> {
        let alloc = self.alloc;
        let cell = &self.cell.name;
        match choice {
            UnitChoice::Unit(unit) => {
                let front = owner_said(alloc, owner, "unit ", "")?;
                let meant = self.meant_unit(unit)?;
                format!(in alloc; "{front}{unit} is no unit of the cell {cell}{meant}")
            }
            UnitChoice::Role(role) => {
                let Some(class) = class_of(self.recipe, role) else {
                    return Ok(String::new(alloc));
                };
                let front = owner_said(alloc, owner, "", "its ")?;
                let meant = self.meant_class(class)?;
                format!(in alloc;
                    "{front}role {role} needs a unit of class {class}, and the cell {cell} has none{meant}"
                )
            }
        }
    }

    /// The first need of the act that is no resource.
    fn need_said(self, act: &Act) -> Result<String, AllocError> {
        let cell = self.cell;
        let mut needs = act.needs.iter();
        let Some(need) = needs.find(|need| cell.resource_of(&need.resource).is_none()) else {
            return String::from_str(self.alloc, "a need is no resource of the cell");
        };
        let meant = self.meant_resource(&need.resource)?;
        format!(in self.alloc;
            "its need {} is no resource of the cell {}{meant}",
            need.resource, cell.name
        )
    }

    fn share_said(self, act: &Act) -> Result<String, AllocError> {
        for need in &act.needs {
            if let Some(resource) = self.cell.resource_of(&need.resource) {
                let capacity = self.cell.capacity(resource);
                if need.units > capacity {
                    return format!(in self.alloc;
                        "it asks for {} units of {}, which has {capacity}",
                        need.units, need.resource
                    );
                }
            }
        }
        String::from_str(self.alloc, "it asks for more units than a resource has")
    }

    /// The first unit procedure that the act reserves and that doesn't follow it.
    fn reserve_said(self, node: u16, act: &Act) -> Result<String, AllocError> {
        for (i, name) in act.reserves.iter().enumerate() {
            if follows(self.recipe, node, i).is_none() {
                return format!(in self.alloc;
                    "it reserves {name}, which doesn't follow it; an act reserves the unit procedure that comes next when it ends"
                );
            }
        }
        String::from_str(
            self.alloc,
            "it reserves a unit procedure that doesn't follow it",
        )
    }

    fn phase_said(self, acts: &[&'a Act], act: &Act) -> Result<String, AllocError> {
        let alloc = self.alloc;
        let Work::Runs { phase, .. } = &act.work else {
            return String::from_str(alloc, "its unit doesn't offer its phase");
        };
        match unit_among(acts) {
            Some(UnitChoice::Unit(unit)) => {
                let offered = self.offered_said(unit, phase)?;
                format!(in alloc; "the unit {unit} doesn't offer the phase {phase}{offered}")
            }
            Some(UnitChoice::Role(role)) => self.role_said(role, phase),
            None => format!(in alloc; "its unit doesn't offer the phase {phase}"),
        }
    }

    /// Says which unit that may take the role doesn't offer the phase.
    fn role_said(self, role: &Name, phase: &Name) -> Result<String, AllocError> {
        let alloc = self.alloc;
        let Some(unit) = unit_without(self.cell, self.recipe, role, phase) else {
            return format!(in alloc; "a unit of the role {role} doesn't offer the phase {phase}");
        };
        let offered = self.offered_said(unit, phase)?;
        format!(in alloc;
            "the unit {unit}, which may take the role {role}, doesn't offer the phase {phase}{offered}"
        )
    }

    /// The phases that the unit offers, and which of them may have been meant by this one.
    fn offered_said(self, unit: &Name, phase: &Name) -> Result<String, AllocError> {
        let alloc = self.alloc;
        let names = phase_names(alloc, self.cell, unit)?;
        if names.is_empty() {
            return String::from_str(alloc, "; it offers none, since no module of it has phases");
        }
        let offered = names.join(alloc, ", ")?;
        let meant = meant_said(alloc, phase.text(), &names)?;
        format!(in alloc; "; it offers {offered}{meant}")
    }

    /// Says which phase two branches of the `par` at the node run, the first that a branch runs after another one.
    fn parallel_said(self, node: u16) -> Result<String, AllocError> {
        let alloc = self.alloc;
        let run = phases_run(alloc, self.recipe, node)?;
        for (phase, second) in &run {
            let mut others = run.iter();
            let other = others.find(|(name, branch)| **name == **phase && branch < second);
            if let Some((_, first)) = other {
                return format!(in alloc;
                    "two branches of this `par` run the same phase, {phase}: number {first} and number {second}; phases that run one after the other stand in seq(..)"
                );
            }
        }
        String::from_str(alloc, "two branches of this `par` run the same phase")
    }
}

/// The words before a unit or role that the cell lacks, of the unit procedure with this name, or of the act's own.
fn owner_said(
    alloc: Global,
    owner: Option<&Name>,
    word: &str,
    own: &str,
) -> Result<String, AllocError> {
    match owner {
        Some(name) => format!(in alloc; "it reserves {name}, whose {word}"),
        None => String::from_str(alloc, own),
    }
}

/// The names of the phases that the unit offers.
fn phase_names<'a>(alloc: Global, cell: &'a Cell, unit: &Name) -> Result<Vec<&'a str>, AllocError> {
    cell.modules
        .iter()
        .filter(|module| module.belongs_to(unit))
        .flat_map(|module| module.phases.iter())
        .map(|phase| phase.text())
        .collect(alloc)
}

/// The phases that are run below the `par` at the node, in order, each with the number of its branch, from 1.
fn phases_run<'a>(
    alloc: Global,
    recipe: &'a Recipe,
    node: u16,
) -> Result<Vec<(&'a Name, u16)>, AllocError> {
    let mut run = Vec::new(alloc);
    let entries = &recipe.outline.entries;
    let Some(par) = entries.get(usize::from(node)) else {
        return Ok(run);
    };
    let first = usize::from(node) + 1;
    let end = usize::from(par.end);
    let mut branch: u16 = 0;
    for entry in entries.iter().take(end).skip(first) {
        if entry.parent == node {
            branch = entry.child.saturating_add(1);
        }
        if let Some(Work::Runs { phase, .. }) = entry.kind.act(&recipe.acts).map(|act| &act.work) {
            run.push((phase, branch))?;
        }
    }
    Ok(run)
}
