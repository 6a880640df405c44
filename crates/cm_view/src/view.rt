//! A view of a file's bytes.
ghost use Rattle.std.specs.Prelude.{◌≡◌, ◌==◌, ℕ, None, Ok, IfOk, IfErr, IfSome, IfNone, filter};
ghost use Rattle.cm_pool.specs.Geometry.{Sizes};
ghost use Rattle.cm_state.specs.State.{CacheState};
ghost use Rattle.cm_state.specs.Stands.{Arenas, Stands};
ghost use Rattle.cm_verdict.specs.Found.{found_in};
ghost use Rattle.cm_view.specs.declared.fault.ViewFault.TheVariants as view_fault;
ghost use Rattle.cm_view.specs.Walking.{found_of};
ghost use Rattle.cm_view.specs.Loaders.{AreInOrder, HasLoader, HasNoLoader};
ghost use Rattle.cm_view.specs.Views.{IsViewOf, IsViewFault, IsFoundIn, HasNoneIn, IsAnswerOf};
ghost use Rattle.cm_view.specs.Views.{IsFaultIn};

use crate::fault::{FindFault, ViewFault};
use crate::finding::find;
use crate::laws::{rows_show_names, views_show_caches};
use crate::listing::{list_classes, list_loaders};
use crate::loaders::{number_among, sort_loaders};
use crate::walking::{WalkedFile, walk_bytes};
use cm_layout::LoaderRow;
use cm_record::Record;
use cm_verdict::{OpenFault, found_is_live, verdict_is_exact};
use cm_view_index::{ViewRow, first_twin, sort_rows};
use std::alloc::{AllocError, Global};

/// What a file's bytes hold, found without its records. It borrows nothing: the bytes are passed to
/// each call that needs them.
#[derive(Drop)]
pub struct View {
    /// The rows of the live classes, in the order in which they are looked up.
    pub rows: Vec<ViewRow>,
    /// The live loaders, in the order of their names.
    pub loaders: Vec<LoaderRow>,
    /// The number of the last command.
    pub number: u64,
}

// The view of what was found.
fn view_walked(alloc: Global, bytes: &[u8], walked: WalkedFile) -> Result<View, ViewFault>
    requires { found_in bytes.now ≡ Ok (found_of walked) }
    ensures opened { IfOk result (IsViewOf bytes.now) }
    ensures fault { IfErr result (IsViewFault bytes.now) }
{
    found_is_live();
    let geometry = walked.geometry;
    let number = walked.walk.number();
    let found = walked.walk.into_book();
    let mut rows = list_classes(alloc, bytes, geometry, &found)?;
    let mut loaders = list_loaders(alloc, &found)?;
    sort_rows(bytes, &mut rows);
    sort_loaders(&mut loaders);
    if let Some(twin) = first_twin(bytes, &rows) {
        return Err(ViewFault::SameName { slot: twin.slot });
    }
    Ok(View {
        rows,
        loaders,
        number,
    })
}

// A view of these bytes.
fn view_bytes(alloc: Global, bytes: &[u8]) -> Result<View, ViewFault>
    ensures opened { IfOk result (IsViewOf bytes.now) }
    ensures fault { IfErr result (IsViewFault bytes.now) }
{
    match walk_bytes(alloc, bytes) {
        Ok(walked) => view_walked(alloc, bytes, walked),
        Err(OpenFault::File(fault)) => Err(ViewFault::File(fault)),
        Err(_) => Err(ViewFault::NoMemory),
    }
}

impl View {
    /// A view of a file's bytes, which are only read. The half of the journal that counts is walked
    /// through up to its first gate that isn't open, as it is to open the file as a cache. No
    /// record is judged, but each has to lie in a whole root, and to show a name that no other
    /// class of its loader shows. If the bytes stand for a cache, there is a view, unless memory
    /// runs out.
    pub fn open(alloc: Global, bytes: &[u8]) -> Result<View, ViewFault>
        ensures opened { IfOk result (IsViewOf bytes.now) }
        ensures fault { IfErr result (IsViewFault bytes.now) }
        ensures standing { (sizes : Sizes) (m : CacheState) (arenas : Arenas) (n : ℕ)
            → Stands sizes bytes.now m arenas n → IfErr result (λ e. e ≡ view_fault.NoMemory) }
    {
        found_is_live();
        verdict_is_exact();
        rows_show_names(bytes);
        view_bytes(alloc, bytes)
    }

    /// The number of the loader of this name, by which its rows refer to it.
    pub fn number_of(&self, name: &[u8]) -> Option<u64>
        ensures some { IfSome result (HasLoader self.now.loaders.items name.now) }
        ensures none { IfNone result (AreInOrder self.now.loaders.items
            → HasNoLoader self.now.loaders.items name.now) }
    {
        number_among(&self.loaders, name)
    }

    /// The rows of the loader of this number.
    pub fn classes_of(&self, alloc: Global, loader: u64) -> Result<Vec<ViewRow>, AllocError>
        ensures { IfOk result (λ rows. rows.items
            ≡ filter (λ row. row.loader == loader) self.now.rows.items) }
    {
        self.rows
            .iter()
            .filter(|row| row.loader == loader)
            .copied()
            .collect(alloc)
    }

    /// The record of the class of this name in the loader of this name. It is judged now: what is
    /// found is the record of a class that keeps the class rules and has this name, whatever the
    /// bytes are. If the bytes stand for a cache of which this is a view, this is the cache's
    /// answer. `buffer` serves for any number of look-ups.
    pub fn find(
        &self,
        alloc: Global,
        buffer: &mut Vec<u8>,
        bytes: &[u8],
        loader: &[u8],
        name: &[u8],
    ) -> Result<Option<Record>, FindFault>
        ensures found { IfOk result (λ found. IfSome found (λ words.
            IsFoundIn bytes.now self.now loader.now name.now words)) }
        ensures none { IfOk result (λ found. found ≡ None → IsViewOf bytes.now self.now
            → HasNoneIn bytes.now self.now loader.now name.now) }
        ensures fault { IfErr result (IsFaultIn bytes.now self.now loader.now) }
        ensures exact { (sizes : Sizes) (m : CacheState) (arenas : Arenas) (n : ℕ)
            → Stands sizes bytes.now m arenas n → IsViewOf bytes.now self.now
            → IsAnswerOf m loader.now name.now result }
    {
        found_is_live();
        views_show_caches();
        let Some(number) = self.number_of(loader) else {
            return Ok(None);
        };
        find(alloc, buffer, bytes, &self.rows, number, name)
    }
}
