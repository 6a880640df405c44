//! Lists of names of loaders that are to be unloaded at once. They are short.

ghost use Rattle.std.specs.Prelude.{◌≡◌, not, map};
ghost use Rattle.std.specs.List.{list_all};
ghost use Rattle.std.specs.Str.{bytes_eq};
ghost use Rattle.cm_layout.specs.Names.{is_loader_name};
ghost use Rattle.cm_state.specs.Step.{is_list, names_differ};

use cm_layout::UNLOAD_LIMIT;

/// Whether loaders of these names may be unloaded at once: there are one to seven, and none of them
/// appears twice.
pub(crate) fn is_list(names: &[&[u8]]) -> bool
    ensures { result ≡ is_list (map (λ name. name.now) names.now) }
{
    !names.is_empty() && names.len() <= UNLOAD_LIMIT && names_differ(names)
}

/// Whether each of these is a loader's name.
pub(crate) fn are_loader_names(names: &[&[u8]]) -> bool
    ensures { result ≡ list_all is_loader_name (map (λ name. name.now) names.now) }
{
    names.iter().all(|name| cm_layout::is_loader_name(name))
}

fn names_differ(names: &[&[u8]]) -> bool
    ensures { result ≡ names_differ (map (λ name. name.now) names.now) }
{
    for (at, name) in names.iter().enumerate() {
        if !differs_from_all(name, &names[at + 1..]) {
            return false;
        }
    }
    true
}

fn differs_from_all(name: &[u8], others: &[&[u8]]) -> bool
    ensures { result ≡ list_all (λ other. not (bytes_eq name.now other))
        (map (λ other. other.now) others.now) }
{
    others.iter().all(|other| name != *other)
}
