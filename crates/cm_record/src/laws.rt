//! What the words of a record say about its class.

ghost use Rattle.cm_record.specs.Names.{WordsTellName};

/// A record's words determine the name of its class.
pub fn words_tell_name()
    ensures { WordsTellName }
{}
