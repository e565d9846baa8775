// The laws of what a checkpoint says.
ghost use Rattle.ebs_recovery.specs.inner.BaseLaws.{OneBase, FirstIsBase, StateIsSaid, OneIsSaid, BasesAreKept, BasesRest, BasesAreStamped, PointSays};
ghost use Rattle.ebs_recovery.specs.inner.TurnLaws.{ImagesWhileTurned, TurnedFits, TurningFits, DoubtIsTold};

use ebs_world::Disk;

/// A checkpoint with all rules says one state, but for the bytes of its blocks; and that of an empty machine is one. It says one
/// kept form, in which each block has its digest in the place of its bytes, which is that of the state.
pub fn one_base()
    ensures one { OneBase }
    ensures first { FirstIsBase }
    ensures said { StateIsSaid }
    ensures alone { OneIsSaid }
    ensures kept { BasesAreKept }
{}

/// A machine that a history from such a state on gives has lost what time takes until its clock, and only stamps that were given
/// have a slot.
pub fn bases_rest()
    ensures rest { BasesRest }
    ensures stamped { BasesAreStamped }
{}

/// A checkpoint of the kept form that answers calls, with the slots of its blocks, says the machine with the bytes that stand there,
/// whatever a crash leaves.
pub fn point_says<D: Disk>()
    ensures { (disk : D) → PointSays (D.view disk) }
{}

/// While a journal goes on in its other area with the checkpoint of what answers calls, each image stands for what the store stood for, or for the machine that
/// answers calls; and then the store fits whose journal has that checkpoint alone, or where its gate isn't known, that keeps as pending that time has passed.
pub fn points_turn<D: Disk>()
    ensures moments { (old new : D) → ImagesWhileTurned (D.view old) (D.view new) }
    ensures fit { (old new : D) → TurnedFits (D.view old) (D.view new) }
    ensures doubt { (old new : D) → TurningFits (D.view old) (D.view new) }
{}

/// Where a journal is turning, the store that fits has a checkpoint whose gate isn't known. While that is closed each image stands for one of
/// the two machines, and where it still isn't known the store fits as it was.
pub fn doubt_is_told<D: Disk>()
    ensures { (old new : D) → DoubtIsTold (D.view old) (D.view new) }
{}
