//! Places of a project's text: a group, slave, area and PDO, and a key there.

/// The part of a table that a place names.
#[derive(Clone, Copy, Debug, PartialEq, Eq)]
pub enum Key {
    /// The table itself.
    Whole,
    /// The array `group` of the document.
    Groups,
    /// `alias` of a group.
    Alias,
    /// The array `slave` of the document or of a group.
    Slaves,
    /// `station` of a slave.
    Station,
    /// The array `area` of a slave.
    Areas,
    /// `sm` of an area.
    Sm,
    /// `dir` of an area.
    Dir,
    /// `phys` of an area.
    Phys,
    /// `task` of an area.
    Task,
    /// The array `assigned` of an area.
    Assigned,
    /// An item of `assigned`, counted from 0.
    AssignedAt(usize),
    /// The array `pdo` of an area.
    Pdos,
    /// `index` of a PDO.
    Index,
    /// The array `entries` of a PDO.
    Entries,
    /// An entry, counted from 0.
    Entry(usize),
    /// The variable of an entry: its item 0.
    Variable(usize),
    /// The bits of an entry: its item 1.
    Bits(usize),
}

/// A place in a project's text. Indexes count from 0 in the order of the text.
#[derive(Clone, Copy, Debug, PartialEq, Eq)]
pub struct Place {
    /// The group, counted from 1 as the text declares them; 0 is the top of the document.
    pub group: usize,
    /// The group's alias; 0 at the top, or if it cannot be read.
    pub alias: u16,
    /// The slave, by its index in its array; `None` if the place lies in no slave.
    pub slave: Option<usize>,
    /// The slave's station address; 0 if the place lies in no slave, or if it cannot be read.
    pub station: u16,
    /// The area of the slave; `None` if the place lies in no area.
    pub area: Option<usize>,
    /// The PDO that the area offers; `None` if the place lies in no PDO.
    pub pdo: Option<usize>,
    /// The part of that table.
    pub key: Key,
}

impl Place {
    ghost use Rattle.std.specs.Prelude.{◌≡◌};
    ghost use Rattle.hc_project.specs.Places.{document, in_area, in_group, in_pdo, in_slave, with_key};

    /// The document.
    pub(crate) fn document() -> Place
        ensures { result ≡ document }
    {
        Place {
            group: 0,
            alias: 0,
            slave: None,
            station: 0,
            area: None,
            pdo: None,
            key: Key::Whole,
        }
    }

    /// A group, by its number and its alias.
    pub(crate) fn in_group(self, group: usize, alias: u16) -> Place
        ensures { result ≡ in_group self group alias }
    {
        Place {
            group,
            alias,
            ..self
        }
    }

    /// A slave, by its index and its station address.
    pub(crate) fn in_slave(self, index: usize, station: u16) -> Place
        ensures { result ≡ in_slave self index station }
    {
        Place {
            slave: Some(index),
            station,
            ..self
        }
    }

    /// An area of a slave, by its index.
    pub(crate) fn in_area(self, index: usize) -> Place
        ensures { result ≡ in_area self index }
    {
        Place {
            area: Some(index),
            ..self
        }
    }

    /// A PDO that an area offers, by its index in the array.
    pub(crate) fn in_pdo(self, index: usize) -> Place
        ensures { result ≡ in_pdo self index }
    {
        Place {
            pdo: Some(index),
            ..self
        }
    }

    /// A key there.
    pub(crate) fn with_key(self, key: Key) -> Place
        ensures { result ≡ with_key self key }
    {
        Place { key, ..self }
    }
}

/// The place of a fault.
#[derive(Clone, Copy, Debug, PartialEq, Eq)]
pub struct Location {
    /// The place; of two things that may not be together, the later one's.
    pub place: Place,
    /// Of two such things the earlier one.
    pub first: Option<Place>,
}

impl Location {
    ghost use Rattle.std.specs.Prelude.{◌≡◌};
    ghost use Rattle.hc_project.specs.Places.{pair, place_alone};

    /// A place alone.
    pub(crate) fn single(place: Place) -> Location
        ensures { result ≡ place_alone place }
    {
        Location { place, first: None }
    }

    /// The places of two things.
    pub(crate) fn pair(first: Place, place: Place) -> Location
        ensures { result ≡ pair first place }
    {
        Location {
            place,
            first: Some(first),
        }
    }
}
