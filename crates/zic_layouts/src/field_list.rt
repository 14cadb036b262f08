//! A list of fields of rows.

ghost use Rattle.std.specs.Prelude.{◌≡◌, IfNone, IfSome, true, false};
ghost use Rattle.zic_layouts.specs.FieldList.{is_field_list};

use crate::row_field::RowField;
use arrayvec::ArrayVec;
use std::marker::Model;

/// The most fields that a row may have after its beginning.
pub const MAX_FIELDS: usize = 8;

/// Fields that rows have after their beginning, in their order: 1 to [`MAX_FIELDS`]. Clauses see the list.
#[derive(Drop)]
pub struct FieldList {
    fields: ArrayVec<RowField, MAX_FIELDS>,
}

impl Model for FieldList {
    ghost use Rattle.std.specs.Prelude.{◌≡◌, List, true};
    ghost use Rattle.zic_layouts.specs.FieldList.{is_field_list};
    ghost use Rattle.zic_layouts.specs.declared.row_field.RowField.{RowField};

    ghost Value = { List RowField };

    ghost view = { λ l. l.fields.items };

    ghost invariant = { λ l. is_field_list l.fields.items ≡ true };
}

impl FieldList {
    /// Returns some fields as a list, or `None` if there are none or too many.
    pub fn new(fields: &[RowField]) -> Option<FieldList>
        ensures none { IfNone result (is_field_list fields.now ≡ false) }
        ensures some { IfSome result (λ list. list ≡ fields.now) }
    {
        if fields.is_empty() || fields.len() > MAX_FIELDS {
            return None;
        }
        let mut list = ArrayVec::new();
        list.try_extend_from_slice(fields).unwrap();
        Some(FieldList { fields: list })
    }

    /// Returns the same list.
    pub(crate) fn copy(&self) -> FieldList
        ensures { result ≡ self.now }
    {
        let mut fields = ArrayVec::new();
        fields
            .try_extend_from_slice(self.fields.as_slice())
            .unwrap();
        FieldList { fields }
    }

    /// Returns the fields.
    pub fn fields(&self) -> &[RowField]
        ensures fields { result.now ≡ self.now }
        ensures sound { is_field_list self.now ≡ true }
    {
        self.fields.as_slice()
    }
}
