//! The bars of a record over time.
use crate::bars::{Bars, Ending, Share};
use crate::block::{Mark, Row, read_mark};
use crate::told::{Claim, Passed, RecordedOut};
use crate::word::{parted, plain_number};
use crate::words::Words;
use batch_matrix::Command;
use batch_text::Name;
use std::alloc::{AllocError, Global};

/// A resource that the record names.
#[derive(Drop)]
pub struct Resource {
    pub name: Name,
    pub is_unit: bool,
}

/// The timeline of a record so far.
#[derive(Drop)]
pub struct Timeline {
    /// In the order in which they are named.
    pub resources: Vec<Resource>,
    pub bars: Bars,
    /// The shares that are listed by a recovery block that hasn't ended.
    block: Option<Vec<Share>>,
    /// Time comes from the record's comments, and not from the numbers of its lines.
    pub has_clock: bool,
    pub first: u64,
    pub now: u64,
}

impl Timeline {
    /// Before the first line, at the first time in the record, or at line 1 if it has none.
    pub fn new(alloc: Global, first: Option<u64>) -> Timeline {
        let time = first.unwrap_or(1);
        Timeline {
            resources: Vec::new(alloc),
            bars: Bars::new(alloc),
            block: None,
            has_clock: first.is_some(),
            first: time,
            now: time,
        }
    }

    /// Begins the line with this number.
    pub fn reach(&mut self, number: u64) {
        if !self.has_clock {
            self.now = number;
        }
    }

    /// Applies a comment, if it is one on times or recoveries. A clock that goes back is passed over.
    pub fn apply_comment(&mut self, alloc: Global, line: &[u8]) -> Result<(), AllocError> {
        if let Some(time) = time_of(line) {
            self.now = self.now.max(time);
            return Ok(());
        }
        match read_mark(line) {
            Some(Mark::Begins) => {
                self.block = Some(Vec::new(alloc));
                Ok(())
            }
            Some(Mark::Ends) => self.end_block(),
            Some(Mark::Row(row)) => self.apply_row(alloc, row),
            None => Ok(()),
        }
    }

    fn apply_row(&mut self, alloc: Global, row: Row<'_>) -> Result<(), AllocError> {
        match row {
            Row::Holds(claim) => self.list(alloc, claim, false),
            Row::Waits(claim) => self.list(alloc, claim, true),
            Row::Runs { step, .. } => self.note_unit(alloc, step.unit),
            Row::Batch { .. } => Ok(()),
        }
    }

    /// Applies the contents of a line.
    pub fn apply_out(&mut self, alloc: Global, told: RecordedOut<'_>) -> Result<(), AllocError> {
        self.block = None;
        match told {
            RecordedOut::Asked(claim) => self.begin(alloc, claim, true),
            RecordedOut::Granted(claim) => {
                self.end(alloc, claim, true)?;
                self.begin(alloc, claim, false)
            }
            RecordedOut::Released(claim) => self.end(alloc, claim, false),
            RecordedOut::Passed(passed) => self.hand_over(alloc, passed),
            RecordedOut::Ordered { command, batch, .. } => {
                self.order(command, batch);
                Ok(())
            }
            RecordedOut::Reported(reported) => self.note_unit(alloc, reported.unit),
            RecordedOut::Sent(sent) => self.note_unit(alloc, sent.step.unit),
            RecordedOut::Started(started) => self.note_unit(alloc, started.step.unit),
            RecordedOut::Created(created) => self.note_roles(alloc, created.roles),
            _ => Ok(()),
        }
    }

    /// A batch that is stopped or aborted waits for nothing more.
    fn order(&mut self, command: Command, batch: u64) {
        if matches!(command, Command::Stop | Command::Abort) {
            self.bars.end(Ending::AsksOf(batch), self.now);
        }
    }

    /// The act gives its unit up, and from then on the batch holds it at the place of the unit procedure that follows.
    fn hand_over(&mut self, alloc: Global, passed: Passed<'_>) -> Result<(), AllocError> {
        let given = passed.claim;
        self.note_unit(alloc, given.resource)?;
        self.end(alloc, given, false)?;
        let taken = Claim {
            place: passed.to,
            ..given
        };
        self.begin(alloc, taken, false)
    }

    fn begin(&mut self, alloc: Global, claim: Claim<'_>, waits: bool) -> Result<(), AllocError> {
        let share = self.share_of(alloc, claim, waits)?;
        self.bars.begin(share, self.now)
    }

    fn end(&mut self, alloc: Global, claim: Claim<'_>, waits: bool) -> Result<(), AllocError> {
        let share = self.share_of(alloc, claim, waits)?;
        self.bars.end(Ending::Share(&share), self.now);
        Ok(())
    }

    /// Adds a share that a block lists.
    fn list(&mut self, alloc: Global, claim: Claim<'_>, waits: bool) -> Result<(), AllocError> {
        let share = self.share_of(alloc, claim, waits)?;
        if let Some(listed) = &mut self.block {
            listed.push(share)?;
        }
        Ok(())
    }

    fn end_block(&mut self) -> Result<(), AllocError> {
        match self.block.take() {
            Some(listed) => self.bars.replace(listed, self.now),
            None => Ok(()),
        }
    }

    fn share_of(
        &mut self,
        alloc: Global,
        claim: Claim<'_>,
        waits: bool,
    ) -> Result<Share, AllocError> {
        let resource = self.number_of(alloc, claim.resource)?;
        Share::of(alloc, resource, claim, waits)
    }

    /// Marks the resources that take the roles of a batch as units. Each role is a name, `=` and the unit's name.
    fn note_roles(&mut self, alloc: Global, roles: Words<'_>) -> Result<(), AllocError> {
        for role in roles {
            let (_, unit) = parted(role, b'=');
            self.note_unit(alloc, unit)?;
        }
        Ok(())
    }

    fn note_unit(&mut self, alloc: Global, name: &[u8]) -> Result<(), AllocError> {
        let number = self.number_of(alloc, name)?;
        if let Some(resource) = self.resources.get_mut(number) {
            resource.is_unit = true;
        }
        Ok(())
    }

    /// The number of the resource with this name, which is added if no line has named it yet.
    fn number_of(&mut self, alloc: Global, name: &[u8]) -> Result<usize, AllocError> {
        let named = |resource: &Resource| resource.name.text().as_bytes() == name;
        if let Some(number) = self.resources.iter().position(named) {
            return Ok(number);
        }
        let number = self.resources.len();
        self.resources.push(Resource {
            // The line was read, so it is a name, and only memory can be refused.
            name: Name::read(alloc, name).map_err(|_| AllocError)?,
            is_unit: false,
        })?;
        Ok(number)
    }
}

/// The milliseconds of the clock in the line, if it is a comment on times.
pub fn time_of(line: &[u8]) -> Option<u64> {
    let mut words = Words::of(line);
    if words.next()? != b"#".as_slice() || words.next()? != b"at".as_slice() {
        return None;
    }
    let time = plain_number(words.next()?)?;
    words.next().is_none().then_some(time)
}
