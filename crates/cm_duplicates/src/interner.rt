//! One index for each Utf8, so that long ones are compared once, however many members name them.
ghost use Rattle.std.specs.Prelude.{◌≡◌, ℕ, List, Some, IfOk, OnOk, OnErr, unwrap_or, bytes_eq};
ghost use Rattle.std.specs.Prelude.{if◌then◌else◌};
ghost use Rattle.cm_class.specs.Names.{utf8};
ghost use Rattle.cm_duplicates.specs.Interned.{interned, NamesWhatItStandsFor, KnowsIndexes};
ghost use Rattle.cm_duplicates.specs.Interned.{KeepsInterned};

use cm_class::{Class, Member};
use std::alloc::{AllocError, Global};
use std::collections::BTreeMap;

/// For each Utf8 that was looked up, one index that represents it and all equal ones.
#[derive(Drop)]
pub(crate) struct Interner<'a> {
    pub(crate) class: &'a Class<'a>,
    /// The index that represents some bytes.
    pub(crate) interned: BTreeMap<&'a [u8], u16>,
    /// For an index, the one that represents its Utf8, once it was looked up.
    known: Vec<Option<u16>>,
    ghost names: { NamesWhatItStandsFor class.now interned },
    ghost knows: { KnowsIndexes class.now interned known.items },
}

/// The index that represents some bytes: the one that did before, or this one from now on.
fn intern<'a>(
    table: &mut BTreeMap<&'a [u8], u16>,
    bytes: &'a [u8],
    index: u16,
) -> Result<u16, AllocError>
    ensures found { IfOk result (λ i. interned table.new bytes.now ≡ Some i) }
    ensures same { IfOk result (λ i. i ≡ unwrap_or (interned table.old bytes.now) index) }
    ensures others { OnOk result ((q : List ℕ) →
        interned table.new q
        ≡ (if bytes_eq bytes.now q then interned table.new bytes.now else interned table.old q)) }
    ensures err { OnErr result ((q : List ℕ) → interned table.new q ≡ interned table.old q) }
{
    // Most bytes are new, so they are inserted first; if something represented them before, it is
    // put back.
    let Some(before) = table.insert(bytes, index)? else {
        return Ok(index);
    };
    table.insert(bytes, before)?;
    Ok(before)
}

impl<'a> Interner<'a> {
    ghost use Rattle.std.specs.Prelude.{replicate};

    pub(crate) fn new(alloc: Global, class: &'a Class<'a>) -> Result<Interner<'a>, AllocError>
        ensures { IfOk result (λ made. made.class.now ≡ class.entry.now) }
    {
        class.invariant_holds();
        let known = vec![in alloc; None; class.slots().len() + 1]?;
        Ok(Interner {
            class,
            interned: BTreeMap::new(alloc),
            known,
        })
    }

    /// The index that represents the Utf8 that an index names; if it names none, the one for no
    /// bytes.
    fn index_for(&mut self, index: u16) -> Result<u16, AllocError>
        ensures class { self.new.class.now ≡ self.old.class.now }
        ensures found { IfOk result
            (λ i. interned self.new.interned (utf8 self.old.class.now index) ≡ Some i) }
        ensures kept { OnOk result (KeepsInterned self.old.interned self.new.interned) }
    {
        let place = usize::from(index);
        if let Some(Some(before)) = self.known.get(place) {
            return Ok(*before);
        }
        let found = intern(&mut self.interned, self.class.utf8(index), index)?;
        if place < self.known.len() {
            self.known[place] = Some(found);
        }
        Ok(found)
    }

    /// The indexes that represent a member's name and its descriptor.
    pub(crate) fn key_for(&mut self, member: &Member) -> Result<(u16, u16), AllocError>
        ensures class { self.new.class.now ≡ self.old.class.now }
        ensures name { IfOk result
            (λ key. interned self.new.interned (utf8 self.old.class.now member.now.name)
            ≡ Some key.0) }
        ensures descriptor { IfOk result
            (λ key. interned self.new.interned (utf8 self.old.class.now member.now.descriptor)
            ≡ Some key.1) }
        ensures kept { OnOk result (KeepsInterned self.old.interned self.new.interned) }
    {
        let name = self.index_for(member.name)?;
        let descriptor = self.index_for(member.descriptor)?;
        Ok((name, descriptor))
    }
}
