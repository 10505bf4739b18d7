//! The limits of texts.
ghost use Rattle.std.specs.Prelude.{◌≡◌};
ghost use Rattle.batch_text.specs.declared.name.TheConstants.{MAX_NAME_LEN};
ghost use Rattle.batch_text.specs.declared.number.TheConstants.{MAX_DIGITS};
ghost use Rattle.batch_text.specs.declared.place.TheConstants.{MAX_CHILD_NUMBER, MAX_PLACE_LEN};

/// The limits of names, numbers and places are these numbers.
// claim: limits of texts
pub fn text_limits_are_fixed()
    ensures name { MAX_NAME_LEN ≡ 32 }
    ensures digits { MAX_DIGITS ≡ 19 }
    ensures place { MAX_PLACE_LEN ≡ 100 }
    ensures child_number { MAX_CHILD_NUMBER ≡ 4095 }
{}
