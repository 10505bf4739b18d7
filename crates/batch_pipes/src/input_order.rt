//! The order in which a desk's input is handed over.
use crate::pipes::InputBytes;
use batch_serve::ReaderMessage;
use rtrb::Protocol;
use std::marker::PhantomData;

/// Which message of a desk's reader may follow which: the lines of the input follow its path, as a journal has them, in order, and the
/// end follows all of them.
#[derive(Drop)]
pub struct InputOrder<P> {
    marker: PhantomData<P>,
}

impl<P: InputBytes> Protocol<ReaderMessage> for InputOrder<P> {
    ghost use Rattle.std.specs.Prelude.{[], ◌∷◌, ◌++◌};
    ghost use Rattle.batch_pipes.specs.InputOrder.{IsOrdered};

    ghost allows = { λ before next. IsOrdered P.given (before ++ next ∷ []) };
}
