// What is shown of a snapshot's row, and to whom.
ghost use Rattle.ebs_laws.specs.ShownLaws.{ShownIsTheRow, KnownIsShown, HiddenIsNotFound};
ghost use Rattle.ebs_laws.specs.OwnLaws.{ListHasOwnRows, OwnPagesJoin};

/// DescribeSnapshot shows a row's own fields and what time makes of its status, lock and tier, and its lock and with whom it is shared to
/// its owner alone. Outside the bin it is shown to its owner, and to each who may read it. To one to whom it is neither its own, nor
/// shared, nor public, it is refused as if it weren't there.
pub fn shown_row_is_the_row()
    ensures shows { ShownIsTheRow }
    ensures known { KnownIsShown }
    ensures hidden { HiddenIsNotFound }
{}

/// DescribeSnapshots lists only rows of the caller's own outside the bin, and ListBin only those in the bin, as they are, in ascending number from the given one, at most so
/// many. Each such row below the next number is listed, and the next number is that of such a row above all that are listed, which are then
/// so many; without one all are listed. So pages that are asked for at one moment, each from the number that the one before it told, have
/// together each such row.
pub fn list_has_own_rows()
    ensures page { ListHasOwnRows }
    ensures join { OwnPagesJoin }
{}
