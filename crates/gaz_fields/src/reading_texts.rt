//! What a field says that is a label or a text, and five fields that are an object.
ghost use Rattle.std.specs.Prelude.{◌≡◌, ◌≤◌};
ghost use Rattle.gaz_addressable.specs.Objects as Objects;
ghost use Rattle.gaz_fields.specs.Fields.{TellsField, TellsFieldOrMemory};
ghost use Rattle.gaz_fields.specs.Forms.{AddressableObject, LabelTo, Opt, TextTo, is_blank};
ghost use Rattle.gaz_fields.specs.Forms.{object_at, says};

use crate::fields::FieldFault;
use crate::label::Label;
use crate::reading::{Fields, bad};
use gaz_addressable::{ObjFault, Object, Text, TextFault};
use std::alloc::Global;

impl<'a> Fields<'a> {
    #[tactic(auto, unfolding(crate::specs::Forms::says))]
    /// A label of 1 to `MOST` letters `A` to `Z` and digits.
    pub fn label<const MOST: usize>(&self, i: usize) -> Result<Label<MOST>, FieldFault>
        requires { i ≤ 16 }
        ensures { TellsField result i (says (LabelTo MOST) self.now i) }
    {
        Label::read(self.get(i)).ok_or(bad(i))
    }

    #[tactic(auto, unfolding(crate::specs::Forms::says))]
    /// A text of 1 to `MOST` characters.
    pub fn text<const MOST: u64>(&self, alloc: Global, i: usize) -> Result<Text<MOST>, FieldFault>
        requires { i ≤ 16 }
        ensures { TellsFieldOrMemory result i (says (TextTo MOST) self.now i) }
    {
        match Text::read(alloc, self.get(i)) {
            Ok(text) => Ok(text),
            Err(TextFault::Memory) => Err(FieldFault::Memory),
            Err(_) => Err(bad(i)),
        }
    }

    #[tactic(auto, unfolding(crate::specs::Forms::says))]
    /// A text of 1 to `MOST` characters, or none where the field is empty.
    pub fn opt_text<const MOST: u64>(
        &self,
        alloc: Global,
        i: usize,
    ) -> Result<Option<Text<MOST>>, FieldFault>
        requires { i ≤ 16 }
        ensures { TellsFieldOrMemory result i (says (Opt (TextTo MOST)) self.now i) }
    {
        if self.get(i).is_empty() {
            return Ok(None);
        }
        match Text::read(alloc, self.get(i)) {
            Ok(text) => Ok(Some(text)),
            Err(TextFault::Memory) => Err(FieldFault::Memory),
            Err(_) => Err(bad(i)),
        }
    }

    // What five fields say of an object.
    fn read_object(&self, alloc: Global, i: usize) -> Result<Object, ObjFault>
        requires { i ≤ 16 }
        ensures { Objects.OrMemory result (object_at self.now i) }
    {
        Object::read(
            alloc,
            [
                self.get(i),
                self.get(i + 1),
                self.get(i + 2),
                self.get(i + 3),
                self.get(i + 4),
            ],
        )
    }

    #[tactic(auto, unfolding(crate::specs::Forms::says))]
    /// An object, in the five fields from `i` on. A fault of it counts at the first of them.
    pub fn object(&self, alloc: Global, i: usize) -> Result<Object, FieldFault>
        requires { i ≤ 16 }
        ensures { TellsFieldOrMemory result i (says AddressableObject self.now i) }
    {
        match self.read_object(alloc, i) {
            Ok(object) => Ok(object),
            Err(ObjFault::Memory) => Err(FieldFault::Memory),
            Err(_) => Err(bad(i)),
        }
    }

    // Whether five fields are empty.
    fn has_no_object(&self, i: usize) -> bool
        requires { i ≤ 16 }
        ensures { result ≡ is_blank AddressableObject self.now i }
    {
        self.get(i).is_empty()
            && self.get(i + 1).is_empty()
            && self.get(i + 2).is_empty()
            && self.get(i + 3).is_empty()
            && self.get(i + 4).is_empty()
    }

    #[tactic(auto, unfolding(crate::specs::Forms::says))]
    /// An object, in the five fields from `i` on, or none where they are empty. A fault of it
    /// counts at the first of them.
    pub fn opt_object(&self, alloc: Global, i: usize) -> Result<Option<Object>, FieldFault>
        requires { i ≤ 16 }
        ensures { TellsFieldOrMemory result i (says (Opt AddressableObject) self.now i) }
    {
        if self.has_no_object(i) {
            return Ok(None);
        }
        match self.read_object(alloc, i) {
            Ok(object) => Ok(Some(object)),
            Err(ObjFault::Memory) => Err(FieldFault::Memory),
            Err(_) => Err(bad(i)),
        }
    }
}
