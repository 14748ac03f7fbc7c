// Laws of counting distinct trees.
ghost use Rattle.rewriting.specs.Counting.{SameMembersSameLength};
ghost use Rattle.rewriting.specs.Counting.{FewerMembersShorter};
ghost use Rattle.rewriting.specs.Counting.{DistinctSubtermsAreCounted};

// Lists without repetition that have the same members have the same length.
pub fn same_members_same_length()
    ensures { SameMembersSameLength }
{}

// A list without repetition is no longer than one that has all of its members.
pub fn fewer_members_shorter()
    ensures { FewerMembersShorter }
{}

// However the distinct subterms of some trees are listed, there are as many of them.
pub fn distinct_subterms_are_counted()
    ensures { DistinctSubtermsAreCounted }
{}
