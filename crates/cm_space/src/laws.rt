// Laws that hold for every space.
ghost use Rattle.cm_space.specs.Laws.{OneOwner, OneNumber, OwnedOrWaiting, OwnedIsUsed};
ghost use Rattle.cm_space.specs.Laws.{WaitingIsUsed, EachWord, LearningFreesDue, RootsReach};

/// Each chunk has one owner or waits for one number: no two chunks of a space, owned or waiting,
/// share a word.
pub fn chunks_are_apart()
    ensures owned { OneOwner }
    ensures waiting { OneNumber }
    ensures either { OwnedOrWaiting }
{}

/// No word of a chunk that is owned or waits is free.
pub fn held_chunks_are_used()
    ensures owned { OwnedIsUsed }
    ensures waiting { WaitingIsUsed }
{}

/// Each word of a present root is free, or owned, or waits.
pub fn each_word_has_its_place()
    ensures { EachWord }
{}

/// Learning a number frees exactly the words of the chunks that wait for at most this number.
pub fn learning_frees_what_is_due()
    ensures { LearningFreesDue }
{}

/// Adopted places make as many roots present as the greatest root among them requires.
pub fn roots_reach_what_is_adopted()
    ensures { RootsReach }
{}
