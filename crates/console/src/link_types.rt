//! The link types that the interfaces of a capture have.

ghost use Rattle.std.specs.Prelude.{◌≡◌, ◌++◌, ◌∷◌, List, [], ℕ};
ghost use Rattle.console.specs.Linking.{AreLinkTypes, entry_links};

use capture_reader::{Entry, savefile_link};

/// The link types that the interfaces of a capture have. A savefile has one interface.
#[derive(Clone, Copy, PartialEq, Eq, Debug)]
pub enum LinkTypes {
    /// There is no interface.
    None,
    /// All have this one.
    One(u32),
    /// There are several.
    Several,
}

impl LinkTypes {
    /// The link types with that of one more interface.
    pub fn with(self, link: u32) -> LinkTypes
        ensures { (links : List ℕ) → AreLinkTypes links self → AreLinkTypes (links ++ link ∷ []) result }
    {
        match self {
            LinkTypes::None => LinkTypes::One(link),
            LinkTypes::One(one) if one == link => self,
            LinkTypes::One(_) => LinkTypes::Several,
            LinkTypes::Several => self,
        }
    }

    /// The link types with that of an entry, if it is an interface.
    pub fn with_entry(self, entry: Entry) -> LinkTypes
        ensures { (links : List ℕ) → AreLinkTypes links self → AreLinkTypes (links ++ entry_links entry) result }
    {
        match entry {
            Entry::Packet(_) => self,
            Entry::Section(_) => self,
            Entry::Savefile(header) => self.with(savefile_link(header)),
            Entry::Interface(interface) => self.with(u32::from(interface.link)),
        }
    }
}
