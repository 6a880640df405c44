ghost use Rattle.std.specs.Prelude.{◌≡◌, Some};
ghost use Rattle.cm_rules.specs.Texts.{spot_text, broken_text};

use std::fmt::{self, Display, Formatter};

/// The rules, in the order in which they are checked. Each rule presupposes that all before it
/// hold.
#[derive(Clone, Copy, Debug, PartialEq, Eq)]
pub enum Rule {
    /// Each Utf8 has the right form (JVMS 4.4.7).
    Utf8Form,
    /// Each index names a constant of the kind that it must name (JVMS 4.4, 4.1, 4.5, 4.6, 4.7).
    EntryKinds,
    /// A method handle's kind is 1 to 9, and names a reference of its sort (JVMS 4.4.8).
    HandleKind,
    /// A Class holds a class name or an array descriptor (JVMS 4.4.1).
    ClassName,
    /// A field reference has a field's name and descriptor (JVMS 4.4.2).
    FieldReference,
    /// A method reference has a method's name and descriptor (JVMS 4.4.2).
    MethodReference,
    /// A dynamic call has a method's name and descriptor (JVMS 4.4.10).
    DynamicCall,
    /// A method type holds a method descriptor (JVMS 4.4.9).
    MethodType,
    /// Which method handles name `<init>` (JVMS 4.4.8).
    HandleName,
    /// The flags of the class (JVMS 4.1, table 4.1-A).
    ClassFlags,
    /// The class itself is no array (JVMS 4.1).
    ThisClass,
    /// The super class (JVMS 4.1).
    SuperClass,
    /// A field's name and descriptor (JVMS 4.5).
    FieldName,
    /// A field's flags (JVMS 4.5, table 4.5-A).
    FieldFlags,
    /// No two fields have the same name and descriptor (JVMS 4.5).
    FieldTwice,
    /// A method's name and descriptor (JVMS 4.6).
    MethodName,
    /// A method's parameters, with its receiver (JVMS 4.3.3).
    MethodUnits,
    /// A method's flags (JVMS 4.6, table 4.6-A).
    MethodFlags,
    /// No two methods have the same name and descriptor (JVMS 4.6).
    MethodTwice,
    /// Which methods have code (JVMS 4.7.3).
    CodeCount,
    /// The form of each code (JVMS 4.7.3).
    CodeForm,
    /// The attributes of fields and methods (JVMS 4.7.2, 4.7.5, 4.7.8, 4.7.9, 4.7.15).
    MemberAttributes,
    /// The attributes of the class (JVMS 4.7.6 to 4.7.10, 4.7.15).
    ClassAttributes,
    /// Bootstrap methods, and the dynamic calls that name them (JVMS 4.7.23).
    BootstrapMethods,
}

/// Where a rule is broken, in the order in which places are checked.
#[derive(Clone, Copy, Debug, PartialEq, Eq)]
pub enum Spot {
    /// The constant at this index of the pool.
    Pool(u16),
    This,
    Super,
    /// The interface at this place, counted from 0.
    Interface(u16),
    Field(u16),
    Method(u16),
    /// The attribute of the class itself at this place.
    Attribute(u16),
}

impl Display for Spot {
    ghost output = { λ spot. Some (spot_text spot) };

    fn fmt<W: fmt::Write>(&self, f: &mut Formatter<W>) -> fmt::Result {
        match self {
            Spot::Pool(index) => write!(f, "pool {index}"),
            Spot::This => write!(f, "this"),
            Spot::Super => write!(f, "super"),
            Spot::Interface(at) => write!(f, "interface {at}"),
            Spot::Field(at) => write!(f, "field {at}"),
            Spot::Method(at) => write!(f, "method {at}"),
            Spot::Attribute(at) => write!(f, "attribute {at}"),
        }
    }
}

/// A rule that a class breaks, and the first place at which it does.
#[derive(Clone, Copy, Debug, PartialEq, Eq)]
pub struct Broken {
    pub rule: Rule,
    pub spot: Spot,
}

impl Display for Broken {
    ghost output = { λ broken. Some (broken_text broken) };

    fn fmt<W: fmt::Write>(&self, f: &mut Formatter<W>) -> fmt::Result {
        let number = self.rule.number();
        let spot = self.spot;
        write!(f, "V{number} {spot}")
    }
}

impl Rule {
    ghost use Rattle.std.specs.Prelude.{◌≡◌};
    ghost use Rattle.cm_rules.specs.Fault.{number};

    /// The rule's number, from 1 to 24.
    pub fn number(self) -> u8
        ensures { result ≡ number self }
    {
        match self {
            Rule::Utf8Form => 1,
            Rule::EntryKinds => 2,
            Rule::HandleKind => 3,
            Rule::ClassName => 4,
            Rule::FieldReference => 5,
            Rule::MethodReference => 6,
            Rule::DynamicCall => 7,
            Rule::MethodType => 8,
            Rule::HandleName => 9,
            Rule::ClassFlags => 10,
            Rule::ThisClass => 11,
            Rule::SuperClass => 12,
            Rule::FieldName => 13,
            Rule::FieldFlags => 14,
            Rule::FieldTwice => 15,
            Rule::MethodName => 16,
            Rule::MethodUnits => 17,
            Rule::MethodFlags => 18,
            Rule::MethodTwice => 19,
            Rule::CodeCount => 20,
            Rule::CodeForm => 21,
            Rule::MemberAttributes => 22,
            Rule::ClassAttributes => 23,
            Rule::BootstrapMethods => 24,
        }
    }
}
