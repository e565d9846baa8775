// Each group of rules.
ghost use Rattle.ebs_point_rules.specs.Laws.{NothingIsMoved, ShownAreGiven, StampsAreStored, ArraysFit, StatesFit};

/// A checkpoint without copies has all that is asked of copies.
pub fn nothing_is_moved()
    ensures { NothingIsMoved }
{}

/// Where each block of a node is one of the machine's, stamps were given, each to one digest.
pub fn shown_are_given()
    ensures { ShownAreGiven }
{}

/// Stamps that were given are no more than the accepted changes, and with their slots are stored.
pub fn stamps_are_stored()
    ensures { StampsAreStored }
{}

/// Each row of a machine has an array within its size that has what was put.
pub fn arrays_fit()
    ensures { ArraysFit }
{}

/// Each row of a lawful machine at rest has what its state lets it have.
pub fn states_fit()
    ensures { StatesFit }
{}
