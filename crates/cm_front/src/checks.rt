//! Which refusals apply to a command, by the names in the rows.

ghost use Rattle.std.specs.Prelude.{◌≡◌, ◌≤◌, length, map};
ghost use Rattle.cm_layout.specs.Names.{unload_limit};
ghost use Rattle.cm_front.specs.Refusing.{loader_asked, journal_full, loader_made, class_asked};
ghost use Rattle.cm_front.specs.Refusing.{numbers_of, loaders_asked};

use crate::front::Front;
use crate::name_list::{are_loader_names, is_list};
use cm_commands::{Names, Prepared, Refusal};
use cm_layout::{LAST_NUMBER, LoaderNumbers, UNLOAD_LIMIT, is_loader_name, slots_of_name};

impl Front {
    /// Whether fewer than `need` slots are left beside the live loaders and classes.
    fn is_journal_full(&self, need: usize) -> bool
        ensures { result ≡ journal_full self.now need }
    {
        self.book.is_full(need)
    }

    /// The number of the live loader that a command names.
    pub(crate) fn loader_asked(&self, name: &[u8]) -> Result<u64, Refusal>
        ensures { result ≡ loader_asked self.now name.now }
    {
        if !is_loader_name(name) {
            return Err(Refusal::BadName);
        }
        if self.number == LAST_NUMBER {
            return Err(Refusal::NumbersSpent);
        }
        self.book.loader(name).ok_or(Refusal::NoLoader)
    }

    /// The numbers of the live loaders that a command names, in the order of the names.
    pub(crate) fn loaders_asked(&self, names: &Names<'_>) -> Result<LoaderNumbers, Refusal>
        ensures { result ≡ loaders_asked self.now names.now }
    {
        let names = names.as_slice();
        if !is_list(names) {
            return Err(Refusal::BadList);
        }
        if !are_loader_names(names) {
            return Err(Refusal::BadName);
        }
        if self.number == LAST_NUMBER {
            return Err(Refusal::NumbersSpent);
        }
        self.numbers_of(names).ok_or(Refusal::NoLoader)
    }

    // The numbers of the live loaders of these names, if each of them has one.
    fn numbers_of(&self, names: &[&[u8]]) -> Option<LoaderNumbers>
        requires some { 1 ≤ length names.now }
        requires few { length names.now ≤ unload_limit }
        ensures { result ≡ numbers_of (map (λ name. name.now) names.now) self.now.rows }
    {
        let mut numbers = [0; UNLOAD_LIMIT];
        for (at, name) in names.iter().enumerate() {
            numbers[at] = self.book.loader(name)?;
        }
        LoaderNumbers::new(&numbers[..names.len()])
    }

    /// The number that a new loader of this name gets.
    pub(crate) fn check_loader(&self, name: &[u8]) -> Result<u64, Refusal>
        ensures { result ≡ loader_made self.now name.now }
    {
        if !is_loader_name(name) {
            return Err(Refusal::BadName);
        }
        if self.number == LAST_NUMBER {
            return Err(Refusal::NumbersSpent);
        }
        if self.book.loader(name).is_some() {
            return Err(Refusal::LoaderExists);
        }
        if self.is_journal_full(slots_of_name(name)) {
            return Err(Refusal::JournalFull);
        }
        Ok(self.number + 1)
    }

    /// The number of the loader in which this class can be defined.
    pub(crate) fn check_class(&self, name: &[u8], class: &Prepared) -> Result<u64, Refusal>
        ensures { result ≡ class_asked self.now name.now class.now }
    {
        let loader = self.loader_asked(name)?;
        if self.book.class_like(loader, class).is_some() {
            return Err(Refusal::ClassExists);
        }
        if class.words() > self.space.geometry().root_words() {
            return Err(Refusal::RecordTooLong);
        }
        if self.is_journal_full(1) {
            return Err(Refusal::JournalFull);
        }
        Ok(loader)
    }
}
