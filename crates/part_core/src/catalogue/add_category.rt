//! A new category of parts, under a parent or at the top.
ghost use Rattle.std.specs.Prelude.{◌≡◌};
ghost use Rattle.word_core.specs.Acts.{Acts};
ghost use Rattle.part_core.specs.AddCategory.{add_category, add_category_checks};
ghost use Rattle.part_core.specs.CatalogueView.{parts_of, register_before, register_of};

use crate::catalogue::Catalogue;
use crate::{Category, CoreFault, Counter, Id, Name, Refusal, is_named};

impl Catalogue {
    /// A new category, under a number that is drawn for it. `NoSuch` where the parent is no category,
    /// `NameTaken` where a category under this parent has the name, `Full` where there is no number left.
    pub fn add_category(
        &mut self,
        counter: &mut Counter,
        name: &Name,
        parent: Option<Id>,
    ) -> Result<Id, CoreFault>
        requires { register_before self.old counter.old ≡ register_of self.old counter.old }
        ensures acts { let r = register_of self.old counter.old in
            Acts (add_category_checks name.now parent r)
            (add_category name.now parent r, r.counter.next)
            r result (register_of self.new counter.new) }
        ensures before { register_before self.new counter.new
            ≡ register_before self.old counter.old }
    {
        if self.is_category_missing(parent) {
            return Err(CoreFault::Refused(Refusal::NoSuch));
        }
        if is_named(&self.categories, name, parent) {
            return Err(CoreFault::Refused(Refusal::NameTaken));
        }
        if counter.lacks(1) {
            return Err(CoreFault::Refused(Refusal::Full));
        }
        let name = name.copy(self.alloc)?;
        self.categories.put(Category {
            number: counter.next(),
            name,
            parent,
        })?;
        Ok(counter.draw())
    }
}
