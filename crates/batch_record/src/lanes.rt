//! Lanes of a row, so that no bar covers another.
use crate::timeline::Resource;
use std::alloc::{AllocError, Global};

/// The lanes of a resource's row.
#[derive(Drop)]
pub struct Lanes<'a> {
    pub resource: &'a Resource,
    /// The top of the row, in points.
    pub top: u64,
    /// How far each lane is taken, in points.
    pub ends: Vec<u64>,
}

impl<'a> Lanes<'a> {
    /// No lanes of the resource yet, in a row at this top.
    pub fn of(alloc: Global, resource: &'a Resource, top: u64) -> Lanes<'a> {
        Lanes {
            resource,
            top,
            ends: Vec::new(alloc),
        }
    }

    /// Takes the first lane with room from the one point on, up to the other, and returns its number. If there is none, adds a lane.
    pub fn occupy_lane(&mut self, from: u64, to: u64) -> Result<usize, AllocError> {
        if let Some(number) = self.ends.iter().position(|end| *end <= from) {
            if let Some(end) = self.ends.get_mut(number) {
                *end = to;
            }
            return Ok(number);
        }
        let number = self.ends.len();
        self.ends.push(to)?;
        Ok(number)
    }
}
