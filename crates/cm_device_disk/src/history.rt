//! What the calls on a device have made of it. Only clauses read it: it takes no memory.
ghost use Rattle.std.specs.Prelude.{◌≡◌, ◌≤◌, ◌^◌, length, map, true};
ghost use Rattle.std.specs.Borrow.{ftrue};
ghost use Rattle.std.specs.List.{All};
ghost use Rattle.cm_words.specs.Bytes.{word_bytes};
ghost use Rattle.cm_device_disk.specs.State.{DiskState, IsSoundState, no_bytes, opened_state};

use crate::word_run::WordRun;
use cm_disk::write_is_read_back;
use cm_words::bytes_tell_words;
use std::marker::{Model, PhantomData};

/// A call on a device, and how it went.
#[derive(Clone, Copy, Debug)]
pub enum Call {
    /// The device was opened, had this length and began with these bytes.
    Opened(u64),
    /// The bytes were read from this place on when the device was opened.
    ReadOn(u64),
    /// The bytes were written from this place on.
    Wrote(u64),
    /// The write failed, so some of the bytes may have been written.
    NotWritten(u64),
    /// The device was cut to this length.
    Cut(u64),
    /// The cut failed, so the length may be any from this one to the old one.
    NotCut(u64),
    /// Everything was made durable.
    Synced,
    /// The call failed and changed nothing.
    Failed,
}

#[derive(Drop)]
pub struct History {
    marker: PhantomData<u8>,
    pub ghost state: { DiskState },
}

impl Model for History {
    ghost also_owns = { λ _. ftrue };
}

// It owns nothing.
unsafe impl Send for History {}

impl History {
    ghost use Rattle.cm_device_disk.specs.Calls.{CallFollows, IsOpenedAs};
    ghost use Rattle.cm_device_disk.specs.Runs.{range_of, are_ranges, IsFull, IsOf, TellsWords};
    ghost use Rattle.cm_device_disk.specs.Runs.{with_words};

    /// The course of an empty device, all of it durable.
    pub(crate) fn new() -> History
        ensures { result.state ≡ no_bytes }
    {
        History {
            marker: PhantomData,
        }
    }

    /// The course of a device that was opened, had this length, began with these bytes and held
    /// these words.
    pub(crate) fn of_opened(len: u64, beginning: &[u8], runs: &[WordRun]) -> History
        requires runs { are_ranges (length beginning.now) len (map range_of runs.now) ≡ true }
        requires full { All IsFull runs.now }
        requires within_limit { len ≤ 2 ^ 40 }
        ensures contents { IsOpenedAs len beginning.now result.state.now.bytes }
        ensures words { All (IsOf result.state.now.bytes) runs.now }
        ensures unsure { result.state ≡ opened_state result.state.now.bytes }
        ensures sound { IsSoundState result.state }
    {
        write_is_read_back();
        let mut history = History::new();
        history.note(&Call::Opened(len), beginning);
        for run in runs {
            history.note_run(run);
        }
        history
    }

    // Records that the words of a run were read.
    fn note_run(&mut self, run: &WordRun)
        requires { self.old.state ≡ opened_state self.old.state.now.bytes }
        ensures state { self.new.state
            ≡ opened_state (with_words run.now.at run.now.words self.old.state.now.bytes) }
        ensures told { TellsWords run.now }
    {
        if let Some(words) = &run.words {
            bytes_tell_words(words.as_slice());
            self.note_words(&Call::ReadOn(run.at), words.as_slice());
        }
    }

    // Records that the call was made, with the bytes of these words.
    fn note_words(&mut self, _call: &Call, _words: &[u64])
        ensures { CallFollows _call.now (word_bytes _words.now) self.old.state self.new.state }
    {}

    /// Records that the call was made, with these bytes.
    pub(crate) fn note(&mut self, _call: &Call, _bytes: &[u8])
        ensures { CallFollows _call.now _bytes.now self.old.state self.new.state }
    {}
}
