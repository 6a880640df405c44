//! The rows of a file, for the accepted cache and for its disk.

ghost use Rattle.std.specs.Prelude.{◌≡◌, [], ◌∷◌, ◌++◌, None, is_some, IfOk, OnOk};
ghost use Rattle.std.specs.Arc.{arc_value};
ghost use Rattle.cm_layout.specs.declared.row.Row.TheVariants.{Loader, Class};
ghost use Rattle.cm_layout.specs.Rows.{rows_with};
ghost use Rattle.cm_layout.specs.Rules.{broken_live_rule};
ghost use Rattle.cm_record.specs.Names.{class_name_in};
ghost use Rattle.cm_rows.specs.Rows.{class_of};

use cm_commands::Prepared;
use cm_layout::{ClassRow, LoaderRow, Row};
use cm_pool::Geometry;
use cm_record::Record;
use cm_rows::LiveRows;
use std::alloc::{AllocError, Global};
use std::marker::Model;
use std::sync::Arc;

/// The live rows, twice: those that are accepted, and those that are committed. Both have one
/// record for each class. Contracts describe the rows by the words of their records.
#[derive(Drop)]
pub(crate) struct SharedRows {
    accepted: LiveRows<Prepared>,
    committed: LiveRows<Arc<Record, Global>>,
}

impl Model for SharedRows {
    ghost use Rattle.std.specs.Prelude.{◌≡◌, List, ℕ};
    ghost use Rattle.std.specs.Arc.{arc_value};
    ghost use Rattle.cm_layout.specs.Rows.{rows_with};
    ghost use Rattle.cm_rows.specs.Rows.{LiveRows};

    ghost Value = { LiveRows (List ℕ) };

    ghost view = { λ r. r.accepted };

    ghost invariant = { λ r. (r.committed.sizes ≡ r.accepted.sizes)
        × (rows_with arc_value r.committed.rows ≡ r.accepted.rows) };
}

impl SharedRows {
    /// No rows.
    pub(crate) fn new(alloc: Global, geometry: Geometry) -> Result<SharedRows, AllocError>
        ensures { IfOk result (λ r. r ≡ record { sizes = geometry; rows = [] }) }
    {
        let accepted = LiveRows::new(alloc, geometry)?;
        let committed = LiveRows::new(alloc, geometry)?;
        Ok(SharedRows {
            accepted,
            committed,
        })
    }

    /// Whether the loader of this number has a class of the same name.
    pub(crate) fn has_class(&self, loader: u64, class: &Prepared) -> bool
        ensures { result ≡ is_some
            (class_of class_name_in loader (class_name_in class.now) self.now.rows) }
    {
        self.accepted.class_like(loader, class).is_some()
    }

    /// Adds a loader, which keeps the rules after a half's head with this base.
    pub(crate) fn push_loader(&mut self, base: u64, row: &LoaderRow)
        requires { broken_live_rule self.old.sizes base self.old.rows (Loader row.now) ≡ None }
        ensures { self.new ≡ record self.old { rows = self.old.rows ++ Loader row.now ∷ [] } }
    {
        let _accepted = self.accepted.apply_live(base, Row::Loader(*row)); // it breaks no rule
        let _committed = self.committed.apply_live(base, Row::Loader(*row)); // nor does it here
    }

    /// Adds a class, which keeps the rules too.
    pub(crate) fn push_class(
        &mut self,
        base: u64,
        row: ClassRow,
        class: Prepared,
    ) -> Result<(), AllocError>
        requires { broken_live_rule self.old.sizes base self.old.rows (Class row class) ≡ None }
        ensures { OnOk result
            (self.new ≡ record self.old { rows = self.old.rows ++ Class row class ∷ [] }) }
    {
        let shared = class.share()?;
        let _accepted = self.accepted.apply_live(base, Row::Class(row, class)); // it breaks no rule
        let _committed = self
            .committed
            .apply_live(base, Row::Class(row, shared.into_record()));
        Ok(())
    }

    /// The rows that are accepted, and those that are committed.
    pub(crate) fn into_books(self) -> (LiveRows<Prepared>, LiveRows<Arc<Record, Global>>)
        ensures accepted { result.0 ≡ self }
        ensures sizes { result.1.sizes ≡ self.sizes }
        ensures committed { rows_with arc_value result.1.rows ≡ self.rows }
    {
        let SharedRows {
            accepted,
            committed,
        } = self;
        (accepted, committed)
    }
}
