// What lists of blocks and changes say, and what their tokens do.
ghost use Rattle.ebs_laws.specs.ListLaws.{CallKeepsSecret, ListedTokenReads, ListedTokenReadsInRun, ChangedTokenReadsInRun, BlockPagesJoin, AnyBlockPagesJoin, PagesBetweenJoin, ChangePagesJoin, AnyChangePagesJoin, ChangesMakeSecond};
ghost use Rattle.ebs_laws.specs.FieldLaws.{ListHasEachBlock};
ghost use Rattle.ebs_laws.specs.ChangePages.{ChangePagesBetweenJoin};

/// No call changes the secret of the tokens.
pub fn secret_stays()
    ensures { CallKeepsSecret }
{}

/// The token of a listed block or change reads the block and its SHA-256 before the list's expiry, where the machine has
/// the same secret and the snapshot the same blocks. In a run it has both, whatever else is called.
pub fn listed_token_reads()
    ensures alone { ListedTokenReads }
    ensures run { ListedTokenReadsInRun }
    ensures changed { ChangedTokenReadsInRun }
{}

/// Pages read one after the other, each with the token that the one before it gave, are together the whole list from the
/// starting index, whatever number of at least 1 a page holds at most. Other calls between them change nothing of that.
pub fn pages_join_by_tokens()
    ensures blocks { BlockPagesJoin }
    ensures any_blocks { AnyBlockPagesJoin }
    ensures between { PagesBetweenJoin }
    ensures changes { ChangePagesJoin }
    ensures any_changes { AnyChangePagesJoin }
{}

/// The blocks of the second snapshot are those of the first, with what the list of changes says put over them.
pub fn changes_make_second()
    ensures { ChangesMakeSecond }
{}

/// A list has the index of each block from the starting one upwards, as many as a page holds at most, and no other.
pub fn list_has_each_block()
    ensures { ListHasEachBlock }
{}

/// Pages of the list of changes of two completed snapshots are together the whole list from the starting index, whatever is
/// called between them and whenever, where each of them is answered.
pub fn change_pages_join()
    ensures { ChangePagesBetweenJoin }
{}
