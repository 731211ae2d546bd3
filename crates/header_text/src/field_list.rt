//! The list of a header's fields, and the iterator over them.
ghost use Rattle.std.specs.Prelude.{◌≡◌, ℕ, ◌+◌, ◌<◌, ◌≤◌, List, [], ◌∷◌, ◌++◌, length, slice_range, vec_len, vec_capacity, is_ok, option_map, IfSome, OnOk, OnErr, if◌then◌else◌};
ghost use Rattle.std.specs.Iterator.{YieldsFirstBy, item_count};
ghost use Rattle.header_text.specs.Headers.{HeaderField, fields_size, most_in_header};
ghost use Rattle.header_text.specs.Names.{first_body as first_body_of};

use crate::field::Field;
use std::alloc::{AllocError, Global};
use std::marker::Model;

/// The number of bytes that the names and bodies of a header usually have at most.
const USUAL_BYTES: usize = 2_048;

/// The number of fields that a header usually has at most.
const USUAL_FIELDS: usize = 24;

/// Where a field's name and its body begin. A name ends where its body begins, and a body where the next name does.
#[derive(Clone, Copy)]
pub struct FieldPlace {
    name: usize,
    body: usize,
}

/// The fields of a header, in order. They are kept in two buffers, each of at most 262,144 items.
#[derive(Drop)]
pub struct FieldList {
    bytes: Vec<u8>,
    places: Vec<FieldPlace>,
}

impl Model for FieldList {
    ghost use Rattle.std.specs.Prelude.{List};
    ghost use Rattle.header_text.specs.Headers.{HeaderField};

    ghost Value = { List HeaderField };

    ghost use Rattle.header_text.specs.Inside.Places.{AreKept, fields_at};

    ghost view = { λ s. fields_at s.bytes.items s.places.items };

    ghost invariant = { λ s. AreKept s.bytes.items s.places.items };
}

/// An iterator over the fields of a header.
#[derive(Drop)]
pub struct Fields<'a> {
    bytes: &'a [u8],
    places: &'a [FieldPlace],
}

impl<'a> Model for Fields<'a> {
    ghost use Rattle.std.specs.Prelude.{List};
    ghost use Rattle.header_text.specs.Headers.{HeaderField};

    ghost Value = { List HeaderField };

    ghost use Rattle.std.specs.Prelude.{length};
    ghost use Rattle.header_text.specs.Inside.Places.{ArePlacesInOrder, fields_at};

    ghost view = { λ s. fields_at s.bytes.now s.places.now };

    ghost invariant = { λ s. ArePlacesInOrder (length s.bytes.now) s.places.now };
}

/// Makes room for one more place. For the first one it takes the memory that a header usually needs, so that few
/// buffers grow more than once. If memory runs out, the lists are as before.
fn reserve_place(bytes: &mut Vec<u8>, places: &mut Vec<FieldPlace>) -> Result<(), AllocError>
    ensures bytes { bytes.new.items ≡ bytes.old.items }
    ensures places { places.new.items ≡ places.old.items }
    ensures room { OnOk result (vec_len places.new < vec_capacity places.new) }
{
    if !places.is_empty() {
        return places.reserve(1);
    }
    bytes.reserve(USUAL_BYTES)?;
    places.reserve(USUAL_FIELDS)
}

impl FieldList {
    ghost use Rattle.header_text.specs.OpenFields.{onto_last};

    /// Makes an empty list.
    pub fn new(alloc: Global) -> Self
        ensures { result ≡ [] }
    {
        FieldList {
            bytes: Vec::new(alloc),
            places: Vec::new(alloc),
        }
    }

    /// Removes all fields, and keeps the memory.
    pub fn clear(&mut self)
        ensures { self.new ≡ [] }
    {
        self.bytes.clear();
        self.places.clear();
    }

    /// Adds a field. If memory runs out, nothing changes.
    pub fn push(&mut self, field: Field<'_>) -> Result<(), AllocError>
        requires name { 0 < length field.name.now }
        requires room { fields_size self.old + (length field.name.now + length field.body.now)
            ≤ most_in_header }
        ensures ok { OnOk result (self.new ≡ self.old ++ record
            { name = field.entry.name.now; body = field.entry.body.now } ∷ []) }
        ensures err { OnErr result (self.new ≡ self.old) }
    {
        reserve_place(&mut self.bytes, &mut self.places)?;
        self.bytes.reserve(field.name.len() + field.body.len())?;
        let name = self.bytes.len();
        self.bytes.extend_from_slice(field.name).unwrap();
        let body = self.bytes.len();
        self.bytes.extend_from_slice(field.body).unwrap();
        self.places.push(FieldPlace { name, body }).unwrap();
        Ok(())
    }

    /// Adds bytes to the last field's body, if there is a field. If memory runs out, nothing changes.
    pub fn extend_last(&mut self, more: &[u8]) -> Result<(), AllocError>
        requires { fields_size self.old + length more.now ≤ most_in_header }
        ensures ok { OnOk result (self.new ≡ onto_last more.now self.old) }
        ensures err { OnErr result (self.new ≡ self.old) }
    {
        if self.places.is_empty() {
            return Ok(());
        }
        self.bytes.extend_from_slice(more)
    }

    /// Returns an iterator over the fields.
    pub fn iter(&self) -> Fields<'_>
        ensures { result ≡ self.now }
    {
        Fields {
            bytes: self.bytes.as_slice(),
            places: self.places.as_slice(),
        }
    }
}

impl<'a> Fields<'a> {
    /// Returns an iterator over the fields that are left, so that they can be read once more.
    pub fn again(&self) -> Fields<'a>
        ensures { result ≡ self.now }
    {
        Fields {
            bytes: self.bytes,
            places: self.places,
        }
    }

    /// Returns the body of the first field that is left with this name, in any ASCII case.
    pub fn first_body(self, name: &[u8]) -> Option<&'a [u8]>
        ensures body { option_map (λ body. body.now) result ≡ first_body_of name.now self.entry }
        ensures fits { IfSome result (λ body. length body.now ≤ fields_size self.entry) }
    {
        for field in self {
            if field.is(name) {
                return Some(field.body);
            }
        }
        None
    }
}

impl<'a> Iterator for Fields<'a> {
    type Item = Field<'a>;

    ghost next_gives = { YieldsFirstBy (λ f. record { name = f.name.now; body = f.body.now })
        (λ it. it) };

    ghost remaining = { item_count (λ it. it) };

    fn next(&mut self) -> Option<Field<'a>> {
        let (place, others) = self.places.split_first()?;
        let end = match others {
            [next, ..] => next.name,
            [] => self.bytes.len(),
        };
        self.places = others;
        Some(Field {
            name: &self.bytes[place.name..place.body],
            body: &self.bytes[place.body..end],
        })
    }
}
