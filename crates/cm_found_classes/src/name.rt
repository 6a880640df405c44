//! Names of class files and of jars.

ghost use Rattle.std.specs.Prelude.{◌≡◌};
ghost use Rattle.cm_found_classes.specs.Names.{has_last_part, is_class_name, is_jar_name};

/// Whether the last part of a path is this.
fn has_last_part(name: &[u8], part: &[u8]) -> bool
    ensures { result ≡ has_last_part name.now part.now }
{
    if !name.ends_with(part) {
        return false;
    }
    let before = name.len() - part.len();
    before == 0 || name[..before].ends_with(b"/")
}

/// Whether this is the name of a class file: it ends in `.class`, and its last part is neither
/// `module-info.class` nor `package-info.class`, which describe no class.
pub fn is_class_name(name: &[u8]) -> bool
    ensures { result ≡ is_class_name name.now }
{
    name.ends_with(b".class")
        && !has_last_part(name, b"module-info.class")
        && !has_last_part(name, b"package-info.class")
}

/// Whether this is the name of a jar: it ends in `.jar`.
pub fn is_jar_name(name: &[u8]) -> bool
    ensures { result ≡ is_jar_name name.now }
{
    name.ends_with(b".jar")
}
