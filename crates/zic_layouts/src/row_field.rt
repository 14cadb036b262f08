//! The fields that rows have after their beginning.

ghost use Rattle.std.specs.Prelude.{◌≡◌, true};
ghost use Rattle.zic_layouts.specs.FieldList.{is_field_list};
ghost use Rattle.zic_layouts.specs.RowField.{fields_of};

use crate::field_list::FieldList;
use crate::layout::{Style, TimeFrom};

/// A field that a row has after its beginning.
#[derive(Clone, Copy, Debug, Default, PartialEq, Eq)]
pub enum RowField {
    /// The local time at the instant, `2007-03-11T03:00:00`.
    #[default]
    Local,
    /// The local time at the instant with its UT offset, `2007-03-11T03:00:00-04:00`. RFC 3339, 5.6;
    /// seconds of the offset are written where it has some.
    Time,
    /// The instant as a count of units, `1173596400`.
    Instant,
    /// The instant in UT, `2007-03-11T07:00:00Z`. RFC 3339, 5.6.
    Utc,
    /// The UT offset, `-04:00:00`.
    Offset,
    /// The daylight flag, `0` or `1`.
    Daylight,
    /// The abbreviation, `EDT`.
    Abbreviation,
    /// `gap` or `fold` where the local time of the record is in one, and else empty.
    Ambiguous,
}

/// Which fields rows have after their beginning.
#[derive(Drop)]
pub enum RowFields {
    /// The local time and the UT offset in this style, the daylight flag and the abbreviation. Where
    /// records have local times, the instant stands in place of the local time, or, by the style `Iso`,
    /// in UT before all.
    Usual(Style),
    /// These.
    Only(FieldList),
}

impl RowFields {
    /// Returns the same fields.
    pub(crate) fn copy(&self) -> RowFields
        ensures { result ≡ self.now }
    {
        match self {
            RowFields::Usual(style) => RowFields::Usual(*style),
            RowFields::Only(list) => RowFields::Only(list.copy()),
        }
    }

    /// Returns the fields, in their order, where the records have times of this form.
    pub fn fields(&self, from: TimeFrom) -> &[RowField]
        ensures fields { result.now ≡ fields_of self.now from }
        ensures few { is_field_list (fields_of self.now from) ≡ true }
    {
        match (self, from) {
            (RowFields::Only(list), _) => list.fields(),
            (RowFields::Usual(Style::Fields), TimeFrom::Count | TimeFrom::Text(_)) => &[
                RowField::Local,
                RowField::Offset,
                RowField::Daylight,
                RowField::Abbreviation,
            ],
            (RowFields::Usual(Style::Fields), TimeFrom::Local(_)) => &[
                RowField::Instant,
                RowField::Offset,
                RowField::Daylight,
                RowField::Abbreviation,
            ],
            (RowFields::Usual(Style::Iso), TimeFrom::Count | TimeFrom::Text(_)) => {
                &[RowField::Time, RowField::Daylight, RowField::Abbreviation]
            }
            (RowFields::Usual(Style::Iso), TimeFrom::Local(_)) => &[
                RowField::Utc,
                RowField::Time,
                RowField::Daylight,
                RowField::Abbreviation,
            ],
        }
    }
}
