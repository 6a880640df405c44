// Laws of the definitions that the pool's contracts cite.
ghost use Rattle.cm_pool.specs.Laws.{NestedOrApart, HalvesMakeWhole, GivingBackRestores};
ghost use Rattle.cm_pool.specs.Laws.{OneListOfLargest};
ghost use Rattle.cm_pool.specs.SpaceLaws.{TakenIsUsed, TakenIsHeld, HeldIsGiven, RootsKeepHeld};
ghost use Rattle.cm_pool.specs.SpaceLaws.{TakingLosesNone, RootsLoseNone, RootsAreFree};
ghost use Rattle.cm_pool.specs.SpaceLaws.{LargeHasSmall};

/// Two chunks of a region are disjoint, or one is a part of the other.
pub fn nested_or_apart()
    ensures { NestedOrApart }
{}

/// A chunk and its buddy make the chunk of the next order.
pub fn halves_make_whole()
    ensures { HalvesMakeWhole }
{}

/// Giving back what was taken restores the pool.
pub fn giving_back_restores()
    ensures { GivingBackRestores }
{}

/// Whatever words are free, there is exactly one list of the largest free chunks.
pub fn one_list_of_largest()
    ensures { OneListOfLargest }
{}

/// A chunk that is taken is used, and can be held with those that were held before; a chunk that is
/// held can be given back.
pub fn held_chunks_come_and_go()
    ensures used { TakenIsUsed }
    ensures held { TakenIsHeld }
    ensures given { HeldIsGiven }
{}

/// No word is lost if a chunk is taken and kept.
pub fn taking_loses_none()
    ensures { TakingLosesNone }
{}

/// A new root has free chunks of each order. What was held is still held, and no word is lost.
pub fn roots_are_free()
    ensures free { RootsAreFree }
    ensures held { RootsKeepHeld }
    ensures none_lost { RootsLoseNone }
{}

/// If a chunk is free, there are free ones of each smaller order.
pub fn large_has_small()
    ensures { LargeHasSmall }
{}
