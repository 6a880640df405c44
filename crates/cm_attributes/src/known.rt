ghost use Rattle.std.specs.Prelude.{◌≡◌, position};
ghost use Rattle.cm_attributes.specs.Names.{is_known, count_of, first_place};

use cm_class::{Attribute, Attributes, Class};

/// The attributes whose contents are checked (JVMS 4.7).
#[derive(Clone, Copy, Debug, PartialEq, Eq)]
pub enum Known {
    Code,
    ConstantValue,
    Exceptions,
    Signature,
    Synthetic,
    Deprecated,
    SourceFile,
    EnclosingMethod,
    InnerClasses,
    BootstrapMethods,
}

impl Known {
    ghost use Rattle.std.specs.Prelude.{◌≡◌};
    ghost use Rattle.cm_attributes.specs.Names.{name_of};

    /// The attribute's name.
    pub fn name(self) -> &'static [u8]
        ensures { result.now ≡ name_of self }
    {
        match self {
            Known::Code => b"Code",
            Known::ConstantValue => b"ConstantValue",
            Known::Exceptions => b"Exceptions",
            Known::Signature => b"Signature",
            Known::Synthetic => b"Synthetic",
            Known::Deprecated => b"Deprecated",
            Known::SourceFile => b"SourceFile",
            Known::EnclosingMethod => b"EnclosingMethod",
            Known::InnerClasses => b"InnerClasses",
            Known::BootstrapMethods => b"BootstrapMethods",
        }
    }
}

/// Whether an attribute of a class, or of its members, is this one, by its name.
#[tactic(auto, unfolding(crate::specs::Names::is_known))]
pub fn is_known(class: &Class, known: Known, attribute: &Attribute) -> bool
    ensures { result ≡ is_known class.now known attribute.now }
{
    class.names_utf8(attribute.name, known.name())
}

/// How many of the attributes are this one.
pub fn count(class: &Class, known: Known, attributes: &Attributes) -> usize
    ensures { result ≡ count_of class.now known attributes.now }
{
    attributes
        .iter()
        .filter(|attribute| is_known(class, known, attribute))
        .count()
}

fn position_of(class: &Class, known: Known) -> Option<usize>
    ensures { result ≡ position (is_known class.now known) class.now.attributes }
{
    let mut rest = class.attributes();
    let mut place = 0;
    while let Some(attribute) = rest.next() {
        if is_known(class, known, &attribute) {
            return Some(place);
        }
        place += 1;
    }
    None
}

/// The first place at which this attribute is among the attributes of the class itself; if it isn't
/// there, their number.
#[tactic(auto, unfolding(crate::specs::Names::first_place))]
pub fn first_place(class: &Class, known: Known) -> usize
    ensures { result ≡ first_place class.now known }
{
    position_of(class, known).unwrap_or(class.attributes().len())
}
