//! A class that is ready to be defined.

ghost use Rattle.std.specs.Prelude.{◌≡◌, length, IfOk, IfSome};
ghost use Rattle.std.specs.Arc.{arc_value};
ghost use Rattle.cm_group.specs.Groups.{IsRightRecord};
ghost use Rattle.cm_record.specs.Names.{class_name_in};

use crate::short_name::ShortName;
use cm_record::{Record, words_tell_name};
use std::alloc::{AllocError, Global};
use std::marker::Model;
use std::sync::Arc;

/// A class that keeps the class rules, ready to be defined: its record, which is shared and never
/// copied. Contracts describe it by the record's words.
#[derive(Debug, Drop)]
pub struct Prepared {
    class: Arc<Record, Global>,
    /// A copy of the class's name if it is short, so that comparing names needn't fetch the record;
    /// otherwise empty.
    name: ShortName,
}

/// The name of a record's class.
fn name_of(alloc: Global, class: &Record) -> Result<Vec<u8>, AllocError>
    ensures { IfOk result (λ name. name.items ≡ class_name_in class.now) }
{
    words_tell_name();
    class.invariant_holds();
    class.class_name(alloc)
}

impl Model for Prepared {
    ghost use Rattle.std.specs.Prelude.{List, ℕ};
    ghost use Rattle.std.specs.Arc.{arc_value};
    ghost use Rattle.cm_group.specs.Groups.{IsRightRecord};
    ghost use Rattle.cm_commands.specs.Names.{IsNameBeside};

    ghost Value = { List ℕ };

    ghost view = { λ p. arc_value p.class };

    ghost invariant = { λ p.
        IsRightRecord (arc_value p.class) × IsNameBeside p.name (arc_value p.class) };
}

impl Prepared {
    /// The class of a record that is one of a class that keeps the rules.
    pub fn of_record(alloc: Global, class: Record) -> Result<Prepared, AllocError>
        requires { IsRightRecord class }
        ensures { IfOk result (λ p. p ≡ class) }
    {
        let name = ShortName::of(&name_of(alloc, &class)?);
        let class = Arc::new(alloc, class)?;
        Ok(Prepared { class, name })
    }

    /// The same class again, with the same record.
    pub fn share(&self) -> Result<Prepared, AllocError>
        ensures { IfOk result (λ p. p ≡ self.now) }
    {
        let class = self.class.clone()?;
        let name = ShortName::of(self.name.as_bytes());
        Ok(Prepared { class, name })
    }

    /// The class's name, as in its Utf8 constant.
    pub fn class_name(&self, alloc: Global) -> Result<Vec<u8>, AllocError>
        ensures { IfOk result (λ name. name.items ≡ class_name_in self.now) }
    {
        name_of(alloc, &self.class)
    }

    /// The class's name without reading its record, if the name is short.
    pub(crate) fn short_name(&self) -> Option<&[u8]>
        ensures { IfSome result (λ name. name.now ≡ class_name_in self.now) }
    {
        let name = self.name.as_bytes();
        if name.is_empty() { None } else { Some(name) }
    }

    /// How many words its record has.
    pub fn words(&self) -> u32
        ensures words { result ≡ length self.now }
        ensures right { IsRightRecord self.now }
    {
        self.class.words()
    }

    /// Its record.
    pub fn record(&self) -> &Arc<Record, Global>
        ensures record { arc_value result.now ≡ self.now }
        ensures right { IsRightRecord self.now }
    {
        &self.class
    }

    /// Its record, given away.
    pub fn into_record(self) -> Arc<Record, Global>
        ensures record { arc_value result ≡ self }
        ensures right { IsRightRecord self }
    {
        let Prepared { class, .. } = self;
        class
    }
}
