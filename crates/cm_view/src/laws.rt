//! What the rows of a view mean, as laws.
ghost use Rattle.cm_class.specs.declared.class_file.ClassFile.{ClassFile};
ghost use Rattle.cm_class.specs.Names.{class_name_of};
ghost use Rattle.cm_view_index.specs.declared.row.ViewRow.{ViewRow as RowOf};
ghost use Rattle.cm_view_index.specs.Rows.{ShowsName};
ghost use Rattle.cm_view.specs.Taking.{HasClass};
ghost use Rattle.cm_view.specs.Exactness.{ViewIsExact};
ghost use Rattle.cm_view.specs.Views.{ViewsShowCaches};

use cm_shown_names::kept_names_itself;
use cm_state::rows_tell_state;
use cm_verdict::{found_is_live, verdict_is_exact};

/// A row whose class keeps the class rules shows its name. So a row that shows no name has no such
/// class.
pub fn rows_show_names(bytes: &[u8])
    ensures { (row : RowOf) (c : ClassFile) → HasClass bytes.now row c
        → ShowsName bytes.now row (class_name_of c) }
{
    kept_names_itself();
}

/// If contents stand for a cache, each row of a view of them has a class that keeps the rules, and
/// the rows of a loader have exactly the classes that the cache has in it.
pub fn view_is_exact()
    ensures { ViewIsExact }
{
    verdict_is_exact();
    rows_tell_state();
}

/// A view of contents that stand for a cache has the loaders of this cache, and the rows of each
/// loader have exactly the classes that the cache has in it.
pub fn views_show_caches()
    ensures { ViewsShowCaches }
{
    found_is_live();
    verdict_is_exact();
    rows_tell_state();
}
