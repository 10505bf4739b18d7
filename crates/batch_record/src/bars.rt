//! Times that a batch holds a resource, or waits for it.
use crate::told::Claim;
use std::alloc::{AllocError, Global};
use std::str;

/// An act of a batch that holds a resource or waits for it. The resource is given by its number among those that the record names.
#[derive(Drop)]
pub struct Share {
    pub resource: usize,
    pub batch: u64,
    /// The place of the act.
    pub place: String,
    pub units: u32,
    pub waits: bool,
}

impl Share {
    /// The share of this claim, of a resource with this number.
    pub fn of(
        alloc: Global,
        resource: usize,
        claim: Claim<'_>,
        waits: bool,
    ) -> Result<Share, AllocError> {
        let place = String::from_str(alloc, str::from_utf8(claim.place).unwrap_or(""))?;
        Ok(Share {
            resource,
            batch: claim.batch,
            place,
            units: claim.units,
            waits,
        })
    }

    /// Whether the other share is that of the same act.
    fn is(&self, other: &Share) -> bool {
        self.resource == other.resource
            && self.batch == other.batch
            && self.waits == other.waits
            && self.place == other.place
    }
}

/// A share, and how long it stands.
#[derive(Drop)]
pub struct Bar {
    pub share: Share,
    pub from: u64,
    /// When the share ended. None while it stands.
    pub to: Option<u64>,
}

/// Which bars end.
#[derive(Clone, Copy)]
pub enum Ending<'a> {
    /// The bar of this share.
    Share(&'a Share),
    /// The bars of the shares for which this batch waits.
    AsksOf(u64),
    /// The bars of the shares that a recovery block doesn't list.
    Unlisted(&'a [Share]),
}

impl Ending<'_> {
    fn ends(self, share: &Share) -> bool {
        match self {
            Ending::Share(ended) => share.is(ended),
            Ending::AsksOf(batch) => share.waits && share.batch == batch,
            Ending::Unlisted(listed) => !listed.iter().any(|other| share.is(other)),
        }
    }
}

/// All bars, in the order in which they begin.
#[derive(Drop)]
pub struct Bars {
    pub all: Vec<Bar>,
    /// The numbers of the bars that stand.
    standing: Vec<usize>,
}

impl Bars {
    pub fn new(alloc: Global) -> Bars {
        Bars {
            all: Vec::new(alloc),
            standing: Vec::new(alloc),
        }
    }

    /// The share stands from now on.
    pub fn begin(&mut self, share: Share, now: u64) -> Result<(), AllocError> {
        self.standing.push(self.all.len())?;
        self.all.push(Bar {
            share,
            from: now,
            to: None,
        })?;
        Ok(())
    }

    /// Ends these bars.
    pub fn end(&mut self, ending: Ending<'_>, now: u64) {
        let Bars { all, standing } = self;
        standing.retain(|number| match all.get_mut(*number) {
            Some(bar) if ending.ends(&bar.share) => {
                bar.to = Some(now);
                false
            }
            _ => true,
        });
    }

    /// The shares that a recovery block lists stand, and no others.
    pub fn replace(&mut self, listed: Vec<Share>, now: u64) -> Result<(), AllocError> {
        self.end(Ending::Unlisted(&listed), now);
        for share in listed {
            if !self.has(&share) {
                self.begin(share, now)?;
            }
        }
        Ok(())
    }

    /// Whether the share stands.
    fn has(&self, share: &Share) -> bool {
        self.standing
            .iter()
            .filter_map(|number| self.all.get(*number))
            .any(|bar| bar.share.is(share))
    }
}
