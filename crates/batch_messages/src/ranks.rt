//! Ranks that don't rise along the path to a step.
use crate::roles::{may_take, unit_among, unit_of};
use crate::subject::Subject;
use batch_recipe::{Act, UnitChoice};
use batch_text::Name;
use std::alloc::AllocError;

/// An ask for one of several units, of which one has the least rank and one the greatest; a resource that is named is both.
#[derive(Clone, Copy)]
struct Ask<'a> {
    least: &'a Name,
    greatest: &'a Name,
    /// The unit procedure that the unit is reserved for.
    procedure: Option<&'a Name>,
    /// The role that the unit takes for it, if it has one.
    role: Option<&'a Name>,
}

/// A subject, and a role of it with the unit that is to take it.
#[derive(Clone, Copy)]
struct Scene<'a> {
    subject: Subject<'a>,
    taken: Option<(&'a Name, &'a Name)>,
}

impl<'a> Ask<'a> {
    fn of(name: &'a Name) -> Ask<'a> {
        Ask {
            least: name,
            greatest: name,
            procedure: None,
            role: None,
        }
    }

    /// The name with its rank, and the unit procedure that the unit of this name is reserved for.
    fn said(self, subject: Subject<'a>, name: &Name) -> Result<String, AllocError> {
        let alloc = subject.alloc;
        let rank = subject.rank_of(name);
        match (self.procedure, self.role) {
            (Some(procedure), Some(role)) => format!(in alloc;
                "{name} of rank {rank}, reserved for {procedure} where it takes the role {role}"
            ),
            (Some(procedure), None) => {
                format!(in alloc; "{name} of rank {rank}, reserved for {procedure}")
            }
            (None, _) => format!(in alloc; "{name} of rank {rank}"),
        }
    }
}

impl<'a> Scene<'a> {
    /// The unit that is to take the role.
    fn taker(self, role: &Name) -> Option<&'a Name> {
        match self.taken {
            Some((own, unit)) if *own == *role => Some(unit),
            _ => None,
        }
    }

    /// The unit of the act, if it is known.
    fn unit_on(self, act: &'a Act) -> Option<&'a Name> {
        match act.unit.as_ref()? {
            UnitChoice::Unit(unit) => Some(unit),
            UnitChoice::Role(role) => self.taker(role),
        }
    }

    /// The units of the least and of the greatest rank that may take the role, the first of each.
    fn extremes(self, role: &Name) -> Option<(&'a Name, &'a Name)> {
        if let Some(unit) = self.taker(role) {
            return Some((unit, unit));
        }
        let subject = self.subject;
        let units = subject.cell.units.iter();
        let least = units
            .filter(|unit| may_take(subject.recipe, role, unit))
            .min_by_key(|unit| subject.rank_of(&unit.name))?;
        let units = subject.cell.units.iter().rev();
        let greatest = units
            .filter(|unit| may_take(subject.recipe, role, unit))
            .max_by_key(|unit| subject.rank_of(&unit.name))?;
        Some((&least.name, &greatest.name))
    }

    /// The ask for the unit of a unit procedure that is reserved. If the ask before it is for the same role, it is for the same unit.
    fn reserved(self, procedure: &'a Name, before: Option<&Ask<'a>>) -> Option<Ask<'a>> {
        let (role, (least, greatest)) = match unit_of(self.subject.recipe, procedure)? {
            UnitChoice::Unit(unit) => (None, (unit, unit)),
            UnitChoice::Role(role) => match before {
                Some(ask) if ask.role.is_some_and(|own| *own == *role) => {
                    (Some(role), (ask.greatest, ask.greatest))
                }
                _ => (Some(role), self.extremes(role)?),
            },
        };
        Some(Ask {
            least,
            greatest,
            procedure: Some(procedure),
            role,
        })
    }

    /// The asks of the acts, in order.
    fn asks(self, acts: &[&'a Act]) -> Result<Vec<Ask<'a>>, AllocError> {
        let mut asks = Vec::new(self.subject.alloc);
        for act in acts {
            if let Some(unit) = self.unit_on(act) {
                asks.push(Ask::of(unit))?;
            }
            for procedure in &act.reserves {
                if let Some(ask) = self.reserved(procedure, asks.last()) {
                    asks.push(ask)?;
                }
            }
            for need in &act.needs {
                asks.push(Ask::of(&need.resource))?;
            }
        }
        Ok(asks)
    }

    /// Names the first ask of the acts whose rank isn't above that of the ask before it, if there is one.
    fn fall_said(self, acts: &[&'a Act]) -> Result<Option<String>, AllocError> {
        let subject = self.subject;
        let asks = self.asks(acts)?;
        for (before, ask) in asks.iter().zip(asks.iter().skip(1)) {
            if subject.rank_of(ask.least) <= subject.rank_of(before.greatest) {
                let pause = if ask.procedure.is_some() { "," } else { "" };
                let later = ask.said(subject, ask.least)?;
                let earlier = before.said(subject, before.greatest)?;
                let said = format!(in subject.alloc;
                    "it asks for {later}{pause} after {earlier}, and ranks have to rise"
                )?;
                return Ok(Some(said));
            }
        }
        Ok(None)
    }
}

/// Names the first ask of the acts whose rank isn't above that of the ask before it.
///
/// The sentence also names the units that take the roles of their unit procedure, and of the unit procedures that they reserve, if these
/// have any.
pub(crate) fn rank_said<'a>(subject: Subject<'a>, acts: &[&'a Act]) -> Result<String, AllocError> {
    let alloc = subject.alloc;
    if let Some(UnitChoice::Role(role)) = unit_among(acts) {
        let units = subject.cell.units.iter();
        for unit in units.filter(|unit| may_take(subject.recipe, role, unit)) {
            let taken = Some((role, &unit.name));
            if let Some(fall) = (Scene { subject, taken }).fall_said(acts)? {
                return format!(in alloc; "where {} takes the role {role}, {fall}", unit.name);
            }
        }
    }
    let scene = Scene {
        subject,
        taken: None,
    };
    match scene.fall_said(acts)? {
        Some(fall) => Ok(fall),
        None => String::from_str(alloc, "it asks for resources whose ranks don't rise"),
    }
}
