//! The accepted cache.

ghost use Rattle.std.specs.Prelude.{◌≡◌, ◌<◌, true, OnOk, OnErr, IsOk, IfSome, ◌↔◌, ◌≤◌};
ghost use Rattle.std.specs.Option.{option_map};
ghost use Rattle.std.specs.Arc.{arc_value};

use crate::unsealed::Unsealed;
use cm_commands::Prepared;
use cm_group::{Group, Receipt};
use cm_pool::Geometry;
use cm_record::Record;
use cm_rows::LiveRows;
use cm_space::Space;
use cm_state::rows_tell_state;
use std::alloc::Global;
use std::marker::Model;
use std::sync::Arc;
use thiserror::Error;

/// A receipt names a number that wasn't handed out.
#[derive(Clone, Copy, Debug, PartialEq, Eq, Error)]
#[error("the receipt is of a number that wasn't handed out")]
pub struct Stranger;

/// The cache as it was accepted: each loader with its classes, where their records lie, and the
/// commands that are still to be handed to the disk.
///
/// Contracts describe it by the live rows, each class with the words of its record, the number of
/// the last command, the space, and what isn't handed out. The loaders and classes are the map of
/// the rows.
#[derive(Drop)]
pub struct Front {
    pub(crate) alloc: Global,
    pub(crate) book: LiveRows<Prepared>,
    pub(crate) space: Space,
    pub(crate) unsealed: Unsealed,
    pub(crate) number: u64,
    pub(crate) sealed: u64,
    pub(crate) learnt: u64,
    pub(crate) is_broken: bool,
    pub(crate) is_closed: bool,
}

impl Model for Front {
    ghost use Rattle.cm_front.specs.Front.{FrontState, IsFront, front_of, front_code};

    ghost Value = { FrontState };

    ghost coded = { front_code };

    ghost view = { λ f.
        front_of f.book f.space f.unsealed f.number f.sealed f.learnt f.is_broken f.is_closed };

    ghost invariant = { λ f.
        IsFront (front_of f.book f.space f.unsealed f.number f.sealed f.learnt f.is_broken
        f.is_closed) };
}

impl Front {
    ghost use Rattle.cm_group.specs.Groups.{IsRightRecord};
    ghost use Rattle.cm_state.specs.State.{words_show, state_of, class_in};
    ghost use Rattle.cm_front.specs.Front.{IsFront};
    ghost use Rattle.cm_front.specs.Accepting.{Seals, with_learnt};

    /// The sizes of the region.
    pub fn geometry(&self) -> Geometry
        ensures value { result ≡ self.now.sizes }
        ensures lawful { IsFront self.now }
    {
        self.space.geometry()
    }

    /// Does nothing: its clause says what every accepted cache keeps.
    pub fn invariant_holds(&self)
        ensures { IsFront self.now }
    {
        self.space.invariant_holds();
    }

    /// The number of the last accepted command.
    pub fn number(&self) -> u64
        ensures { result ≡ self.now.number }
    {
        self.number
    }

    /// The record of the class of a name in the loader of a name, as accepted, whether or not it is
    /// durable; also after a failure of the device, and once the cache is closed. Allocates
    /// nothing.
    pub fn find(&self, loader: &[u8], class: &[u8]) -> Option<&Arc<Record, Global>>
        ensures found { option_map (λ r. arc_value r.now) result
            ≡ class_in (state_of words_show self.now.rows) loader.now class.now }
        ensures right { IfSome result (λ r. IsRightRecord (arc_value r.now)) }
    {
        rows_tell_state();
        let number = self.book.loader(loader)?;
        let found = self.book.class(number, class)?;
        Some(found.record())
    }

    /// The accepted loaders and classes by their rows, each class with its record.
    pub fn rows(&self) -> &LiveRows<Prepared>
        ensures sizes { result.now.sizes ≡ self.now.sizes }
        ensures rows { result.now.rows ≡ self.now.rows }
        ensures lawful { IsFront self.now }
    {
        &self.book
    }

    /// Hands out the oldest group of accepted commands, with the number that is known to be durable
    /// by now. `None` if all commands are handed out. Allocates nothing.
    pub fn seal(&mut self) -> Option<Group>
        ensures { Seals self.old result self.new }
    {
        let mut group = self.unsealed.take_oldest()?;
        group.set_learnt(self.learnt);
        self.sealed = group.first() + (group.count() as u64 - 1);
        Some(group)
    }

    /// Learns that all commands up to a number are durable: the chunks that waited for one of these
    /// are free from then on. What is learnt never falls. Refused, with nothing changed, if the
    /// number wasn't handed out yet. Allocates nothing.
    pub fn learn(&mut self, receipt: Receipt) -> Result<(), Stranger>
        ensures known { IsOk result ↔ (receipt.number ≤ self.old.sealed) }
        ensures ok { OnOk result (self.new ≡ with_learnt self.old receipt.number) }
        ensures err { OnErr result (self.new ≡ self.old) }
    {
        if receipt.number > self.sealed {
            return Err(Stranger);
        }
        self.learnt = self.learnt.max(receipt.number);
        self.space.learn(self.learnt);
        self.space.invariant_holds();
        Ok(())
    }

    /// The device failed: from now on no command is accepted. Allocates nothing.
    pub fn fail(&mut self)
        ensures { self.new ≡ record self.old { broken = true } }
    {
        self.is_broken = true;
    }

    /// Closes the cache: from now on no command is accepted. Allocates nothing.
    pub fn close(&mut self)
        ensures { self.new ≡ record self.old { closed = true } }
    {
        self.is_closed = true;
    }
}
