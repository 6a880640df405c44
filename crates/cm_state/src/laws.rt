//! Properties of the definitions themselves. Each law is the contract of a function whose body is
//! empty, or only cites other laws.

ghost use Rattle.std.specs.Prelude.{ℕ, List};
ghost use Rattle.cm_class.specs.declared.class_file.ClassFile.{ClassFile};
ghost use Rattle.cm_state.specs.Laws.{ChangesGoOn, NumbersFollow, StandForOne};
ghost use Rattle.cm_state.specs.Laws.{LoadersAreFound, ClassesAreFound, SizesAgree};
ghost use Rattle.cm_state.specs.Laws.{LoadersGo, RowsGo, EntriesAreSteps};
ghost use Rattle.cm_state.specs.Laws.{ArenasAreApart, EachRecordIsInItsArena};

use cm_layout::{contents_determine_rows, live_rows_go_on, loaders_are_own, rows_stay_live};
use cm_record::layout_determines_class;

/// Changes after others continue from the state that those lead to, so each beginning of a list of
/// changes has a state of its own; and each change has the number after that of the one before.
pub fn changes_go_on()
    ensures behind { ChangesGoOn }
    ensures numbers { NumbersFollow }
{}

/// A file's contents stand for at most one cache: its sizes, its state, the chunks of each loader,
/// and the number of the last change.
pub fn contents_determine_cache()
    ensures { StandForOne }
{
    contents_determine_rows();
    layout_determines_class();
}

/// What the state of rows holds is found in the rows, with classes as well as with the words of
/// their records: loaders by name, classes by name in a loader. The state has as many of these as
/// there are rows, and they take as many slots.
pub fn rows_tell_state()
    ensures loaders { LoadersAreFound ClassFile × LoadersAreFound (List ℕ) }
    ensures classes { ClassesAreFound ClassFile × ClassesAreFound (List ℕ) }
    ensures sizes { SizesAgree ClassFile × SizesAgree (List ℕ) }
{
    live_rows_go_on();
    loaders_are_own();
}

/// If loaders are unloaded at once, exactly these are removed, with all their classes, in whatever
/// order they are named; the same holds for rows.
pub fn named_loaders_go()
    ensures loaders { LoadersGo ClassFile × LoadersGo (List ℕ) }
    ensures rows { RowsGo ClassFile × RowsGo (List ℕ) }
{}

/// An entry that keeps the entry rules on the rows of a cache, with a class that is new in its
/// loader, is a step of the cache: there is no cause against the change that it makes, and the next
/// state is that of the rows after it, which are again rows of a cache.
pub fn entries_are_steps()
    ensures classes { EntriesAreSteps ClassFile }
    ensures words { EntriesAreSteps (List ℕ) }
{
    live_rows_go_on();
    loaders_are_own();
}

/// If contents stand for a cache, no two chunks of its arenas share a word, whether they belong to
/// one loader or to two; and each record is in a chunk of its own loader's arena.
pub fn arenas_are_apart()
    ensures apart { ArenasAreApart }
    ensures held { EachRecordIsInItsArena }
{
    rows_stay_live();
    loaders_are_own();
}
