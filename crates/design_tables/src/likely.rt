//! Marks put under names of which something is likely: that they stand where the last one does, or that they are new.

ghost use Rattle.std.specs.Prelude.{◌≡◌, ◌∷◌, [], ℕ, List, IfOk, OnOk, Some, false, if◌then◌else◌, not, true};
ghost use Rattle.std.specs.Str.{bytes_eq};
ghost use Rattle.design_tables.specs.ListingViews.{listing_view};
ghost use Rattle.design_tables.specs.Listings.{found, has_name, listed, marks_named, with_marks};

use crate::kept_name::KeptName;
use crate::names::{Listing, NameTable};
use crate::role::Mark;
use name_keys::Name;
use std::alloc::{AllocError, Allocator};
use std::rc::Rc;

impl<A: Allocator + Copy> NameTable<A> {
    /// Puts a mark under the name at a place where it is this one, and answers whether it is.
    fn put_at(&mut self, place: usize, name: &[u8], mark: Mark) -> Result<bool, AllocError>
        ensures put { IfOk result (λ is_here. is_here ≡ true → (n : List ℕ) → listed n self.new ≡ with_marks (marks_named n ((name.now, mark) ∷ [])) (listed n self.old)) }
        ensures same { IfOk result (λ is_here. is_here ≡ false → self.new ≡ self.old) }
    {
        let alloc = self.allocator();
        if place >= self.names.len() {
            return Ok(false);
        }
        let (own, listing) = self.names.pair_mut(place);
        if own.bytes() == name {
            listing.push(alloc, mark)?;
            return Ok(true);
        }
        Ok(false)
    }

    /// Puts a mark under a name that is mostly the same as in the call before: where that one stands is looked at before the
    /// name is hashed.
    pub fn put_again(&mut self, name: &[u8], mark: Mark) -> Result<(), AllocError>
        ensures { OnOk result ((n : List ℕ) → listed n self.new ≡ with_marks (marks_named n ((name.now, mark) ∷ [])) (listed n self.old)) }
    {
        let place = self.last;
        if self.put_at(place, name, mark.again())? {
            return Ok(());
        }
        self.put(name, mark)?;
        self.last = self.names.get_index_of(Name { bytes: name }).unwrap_or(0);
        Ok(())
    }

    /// Puts what stood under a name back, with a mark behind it.
    fn put_back(&mut self, name: &[u8], stood: Listing<A>, mark: Mark) -> Result<(), AllocError>
        ensures { OnOk result ((n : List ℕ) → found n self.new ≡ (if bytes_eq name.now n then Some (with_marks (mark ∷ []) (listing_view stood)) else found n self.old)) }
    {
        let alloc = self.allocator();
        let mut listing = stood;
        listing.push(alloc, mark)?;
        let name = KeptName::copy_of(alloc, name)?;
        self.names.insert(name, listing)?;
        Ok(())
    }

    /// Puts a mark under a name that is mostly new, and answers whether it is. Where it is, it is hashed once, since it isn't looked up
    /// first, as `put` does. It is kept as a part of the text where it stands there at this position.
    pub fn put_new(
        &mut self,
        text: &Rc<Vec<u8, A>, A>,
        pos: usize,
        name: &[u8],
        mark: Mark,
    ) -> Result<bool, AllocError>
        ensures put { OnOk result ((n : List ℕ) → listed n self.new ≡ with_marks (marks_named n ((name.now, mark) ∷ [])) (listed n self.old)) }
        ensures fresh { IfOk result (λ is_new. is_new ≡ not (has_name name.now self.old)) }
    {
        let own = KeptName::in_text(text, pos, name)?;
        match self.names.insert(own, Listing::one(mark.again()))? {
            None => Ok(true),
            Some(stood) => {
                self.put_back(name, stood, mark)?;
                Ok(false)
            }
        }
    }
}
