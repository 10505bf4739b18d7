//! How the thread of a desk waits.
use crate::flag::Flag;
use batch_serve::Pause;

/// Waits as long as the desk isn't cut.
#[derive(Drop)]
pub(crate) struct DeskRest<'a, S> {
    pub(crate) rest: S,
    pub(crate) stop: &'a Flag,
}

impl<S: Pause> Pause for DeskRest<'_, S> {
    fn pause(&mut self) -> bool {
        !self.stop.is_raised() && self.rest.pause()
    }

    fn is_over(&mut self) -> bool {
        self.stop.is_raised() || self.rest.is_over()
    }

    fn note_work(&mut self) {
        self.rest.note_work();
    }
}
