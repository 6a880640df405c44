//! Accepts commands.

ghost use Rattle.std.specs.Prelude.{◌≡◌, ◌+◌, false, true, map, Some};
ghost use Rattle.std.specs.Prelude.{IfOk, OnOk, OnErr};
ghost use Rattle.std.specs.Arc.{arc_value};
ghost use Rattle.cm_pool.specs.declared.chunk.Chunk.{Chunk};
ghost use Rattle.cm_layout.specs.Rows.{classes_in, kept_on, last_chunk};
ghost use Rattle.cm_layout.specs.Names.{is_loader_name};
ghost use Rattle.cm_layout.specs.declared.entry.Entry.TheVariants as variant;
ghost use Rattle.cm_layout.specs.declared.row.Row.TheVariants.{Loader, Class};
ghost use Rattle.cm_space.specs.Space.{left_by_all};
ghost use Rattle.cm_commands.specs.Commands.{change_asked};
ghost use Rattle.cm_state.specs.Step.{AddLoader, Define, Unload as UnloadOf, Tighten};
ghost use Rattle.cm_state.specs.Step.{UnloadAll as UnloadAllOf};
ghost use Rattle.cm_front.specs.Accepting.{FrontAnswers, Unloads, accepted, carried};
ghost use Rattle.cm_front.specs.Refusing.{refusal_of_place};

use crate::front::Front;
use crate::laws::places_keep_rules;
use crate::unsealed::Unsealed;
use cm_arena::{Moved, PlaceRefusal};
use cm_commands::{Command, Names, Prepared, Refusal};
use cm_group::{CarriedEntry, MovedRecords};
use cm_layout::{
    ClassRow, Entry, LoaderRow, Move, Row, SlotName, Unload, UnloadAll, loaders_are_own,
};
use cm_record::Record;
use cm_rows::{LastKept, LiveRows};
use cm_space::{chunks_are_apart, held_chunks_are_used};
use cm_state::{entries_are_steps, rows_tell_state};
use std::alloc::{AllocError, Global};
use std::sync::Arc;

impl Front {
    /// Accepts a command and gives it the next number. The command joins the newest group that
    /// isn't handed out, as long as that has slots for it.
    ///
    /// The refusals are checked in this order: `Closed`, `Broken`, `BadList`, `BadName`,
    /// `NumbersSpent`, `LoaderExists` or `NoLoader`, `ClassExists`, `RecordTooLong`, `JournalFull`,
    /// `RegionFull` or `NoMove`; `NoMemory` is returned only if none of these applies. For several
    /// loaders, `BadName` and `NoLoader` are returned if they apply to any of them. `JournalFull`
    /// says that the loaders and classes would take more slots than they may, half of those that a
    /// half of the journal has, so no unload is refused with it. A refused command takes no number
    /// and leaves everything as it was.
    pub fn accept(&mut self, command: Command<'_>) -> Result<u64, Refusal>
        ensures { FrontAnswers self.old (change_asked command.entry) result self.new }
    {
        if self.is_closed {
            return Err(Refusal::Closed);
        }
        if self.is_broken {
            return Err(Refusal::Broken);
        }
        match command {
            Command::AddLoader(name) => self.add_loader(name),
            Command::Define(name, class) => self.define(name, class),
            Command::Unload(name) => self.unload(name),
            Command::Tighten(name) => self.tighten_chunk(name),
            Command::UnloadAll(names) => self.unload_all(&names),
        }
    }

    /// Moves the records on a loader's last chunk, as [`accept`](Front::accept) of a
    /// [`Command::Tighten`] does: at the same offsets, to the least block that holds them, if that
    /// is smaller or lies before. The loaders and classes stay as they are, and no root is added.
    /// The chunk that is left waits for the command's number.
    pub fn tighten(&mut self, name: &[u8]) -> Result<u64, Refusal>
        ensures { FrontAnswers self.old (Tighten name.now) result self.new }
    {
        self.accept(Command::Tighten(name))
    }

    fn add_loader(&mut self, name: &[u8]) -> Result<u64, Refusal>
        requires running { self.old.closed ≡ false }
        requires whole { self.old.broken ≡ false }
        ensures { FrontAnswers self.old (AddLoader name.now) result self.new }
    {
        rows_tell_state();
        loaders_are_own();
        entries_are_steps();
        let number = self.check_loader(name)?;
        self.unsealed.make_ready()?;
        self.space.add_loader(number)?;
        self.space.invariant_holds();
        let _rule = self.book.apply(number, loader_entry(number, name)); // it breaks none
        let entry = CarriedEntry::loader(self.alloc, loader_row(number, name));
        self.unsealed.join(number, entry);
        self.number = number;
        Ok(number)
    }

    fn define(&mut self, name: &[u8], class: Prepared) -> Result<u64, Refusal>
        requires running { self.old.closed ≡ false }
        requires whole { self.old.broken ≡ false }
        ensures { FrontAnswers self.old (Define name.now class) result self.new }
    {
        rows_tell_state();
        loaders_are_own();
        entries_are_steps();
        places_keep_rules();
        let loader = self.check_class(name, &class)?;
        let words = class.words();
        let Ok(shared) = room_for(&mut self.unsealed, &class) else {
            return Err(if self.space.is_full(loader, words) {
                Refusal::RegionFull
            } else {
                Refusal::NoMemory
            });
        };
        let place = match self.space.place(loader, words) {
            Ok(place) => place,
            Err(refusal) => return Err(refusal_of_place(refusal)),
        };
        self.space.invariant_holds();
        let number = self.number + 1;
        let row = ClassRow { loader, place };
        let _rule = self.book.apply(number, Entry::Live(Row::Class(row, class))); // it breaks none
        let entry = CarriedEntry::class(self.alloc, row, shared.into_record());
        self.unsealed.join(number, entry);
        self.number = number;
        Ok(number)
    }

    fn unload(&mut self, name: &[u8]) -> Result<u64, Refusal>
        requires running { self.old.closed ≡ false }
        requires whole { self.old.broken ≡ false }
        ensures { FrontAnswers self.old (UnloadOf name.now) result self.new }
    {
        rows_tell_state();
        loaders_are_own();
        let loader = self.loader_asked(name)?;
        let unloaded = Entry::Unload(Unload { loader });
        let entry = CarriedEntry::unload(self.alloc, Unload { loader });
        Ok(self.leave(&[loader], unloaded, entry)?)
    }

    fn unload_all(&mut self, names: &Names<'_>) -> Result<u64, Refusal>
        requires running { self.old.closed ≡ false }
        requires whole { self.old.broken ≡ false }
        ensures { FrontAnswers self.old (UnloadAllOf names.now) result self.new }
    {
        rows_tell_state();
        loaders_are_own();
        let loaders = self.loaders_asked(names)?;
        let unloaded = Entry::UnloadAll(UnloadAll { loaders });
        let entry = CarriedEntry::unload_all(self.alloc, UnloadAll { loaders });
        Ok(self.leave(loaders.as_slice(), unloaded, entry)?)
    }

    // Loaders leave with the entry that unloads them.
    fn leave(
        &mut self,
        loaders: &[u64],
        unloaded: Entry<Prepared>,
        entry: CarriedEntry,
    ) -> Result<u64, AllocError>
        requires unloads { Unloads self.old unloaded loaders.now }
        requires carried { entry ≡ carried self.old.rows unloaded }
        ensures number { IfOk result (λ n. n ≡ self.old.number + 1) }
        ensures ok { OnOk result (self.new ≡ accepted self.old unloaded
            (left_by_all self.old.space (self.old.number + 1) loaders.now)) }
        ensures err { OnErr result (self.new ≡ self.old) }
    {
        loaders_are_own();
        entries_are_steps();
        self.unsealed.make_ready()?;
        let number = self.number + 1;
        self.space.leave_all(loaders, number)?;
        self.space.invariant_holds();
        let _rule = self.book.apply(number, unloaded); // it breaks none
        self.unsealed.join(number, entry);
        self.number = number;
        Ok(number)
    }

    fn tighten_chunk(&mut self, name: &[u8]) -> Result<u64, Refusal>
        requires running { self.old.closed ≡ false }
        requires whole { self.old.broken ≡ false }
        ensures { FrontAnswers self.old (Tighten name.now) result self.new }
    {
        rows_tell_state();
        loaders_are_own();
        entries_are_steps();
        held_chunks_are_used();
        chunks_are_apart();
        let loader = self.loader_asked(name)?;
        if self.space.is_tight(loader) {
            return Err(Refusal::NoMove);
        }
        self.unsealed.make_ready()?;
        let records = records_on_last(self.alloc, &self.book, loader)?;
        let number = self.number + 1;
        let Some(moved) = self.space.tighten(loader, number)? else {
            return Err(Refusal::NoMove);
        };
        self.space.invariant_holds();
        let entry = move_entry(loader, moved);
        let _rule = self.book.apply(number, Entry::Move(entry)); // it breaks none
        self.unsealed
            .join(number, CarriedEntry::of_move(entry, records));
        self.number = number;
        Ok(number)
    }
}

// The records on a loader's last chunk, in order; none if it has no class.
fn records_on_last(
    alloc: Global,
    book: &LiveRows<Prepared>,
    loader: u64,
) -> Result<MovedRecords, AllocError>
    ensures { IfOk result (λ moved. (c : Chunk)
        → last_chunk loader (classes_in book.now.rows) ≡ Some c → moved ≡ kept_on c book.now.rows) }
{
    let Some(kept) = book.last_kept(loader) else {
        return Ok(MovedRecords::none(alloc));
    };
    MovedRecords::new(alloc, share_all(alloc, kept)?)
}

// The records of what is kept, in the order of the rows, each shared once more.
fn share_all(
    alloc: Global,
    kept: LastKept<'_, Prepared>,
) -> Result<Vec<Arc<Record, Global>>, AllocError>
    ensures { IfOk result (λ shared. map arc_value shared.items ≡ kept.entry) }
{
    let mut left = kept;
    let mut shared = Vec::new(alloc);
    while let Some(class) = left.next() {
        shared.push(class.record().clone()?)?;
    }
    shared.reverse();
    Ok(shared)
}

fn move_entry(loader: u64, moved: Moved) -> Move
    ensures { result ≡ record { loader = loader; from = moved.from; to = moved.to } }
{
    Move {
        loader,
        from: moved.from,
        to: moved.to,
    }
}

// Reserves the room that a class takes in its group, and shares the class once more.
fn room_for(unsealed: &mut Unsealed, class: &Prepared) -> Result<Prepared, AllocError>
    ensures groups { unsealed.new.groups ≡ unsealed.old.groups }
    ensures ready { OnOk result (unsealed.new.is_ready ≡ true) }
    ensures shared { IfOk result (λ p. p ≡ class.now) }
{
    unsealed.make_ready()?;
    Ok(class.share()?)
}

fn loader_row(number: u64, name: &[u8]) -> LoaderRow
    requires { is_loader_name name.now ≡ true }
    ensures { result ≡ record { number = number; name = name.now } }
{
    let name = SlotName::new(name).unwrap();
    LoaderRow { number, name }
}

fn loader_entry(number: u64, name: &[u8]) -> Entry<Prepared>
    requires { is_loader_name name.now ≡ true }
    ensures { result ≡ variant.Live (Loader (record { number = number; name = name.now })) }
{
    Entry::Live(Row::Loader(loader_row(number, name)))
}

// A place is never refused for the record's length, which was checked before.
fn refusal_of_place(refusal: PlaceRefusal) -> Refusal
    ensures { result ≡ refusal_of_place refusal }
{
    match refusal {
        PlaceRefusal::RecordTooLong => Refusal::RecordTooLong,
        PlaceRefusal::RegionFull => Refusal::RegionFull,
        PlaceRefusal::NoMemory => Refusal::NoMemory,
    }
}
