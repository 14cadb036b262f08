//! The texts of the errors of columns, files and runs. This file is made of docs/errors.txt by tools/errors.py.

use crate::entry::Entry;
use std::alloc::AllocError;

/// Commands that examples use.
const SETUP_1: &str = "  $ echo 'Zone Etc/UTC 0 - UTC' >utc.zi\n";

/// Commands that examples use.
const SETUP_2: &str = r#"  $ echo 'Rule US 2007 max - Mar Sun>=8 2:00 1:00 D' >ny.zi
  $ echo 'Rule US 2007 max - Nov Sun>=1 2:00 0 S' >>ny.zi
  $ echo 'Zone NY -5:00 US E%sT' >>ny.zi
  $ pzic build tree ny.zi
  $ change() {
  >   cp tree/NY bad
  >   printf "$2" | dd of=bad bs=1 seek="$1" conv=notrunc status=none
  > }
"#;

/// Adds the texts of the errors of columns, files and runs, in the order of docs/ERRORS.md.
pub(crate) fn push_other_errors(entries: &mut Vec<Entry>) -> Result<(), AllocError> {
    entries.extend_from_slice(group_1())?;
    entries.extend_from_slice(group_2())?;
    entries.extend_from_slice(group_3())?;
    entries.extend_from_slice(group_4())?;
    entries.extend_from_slice(group_5())?;
    entries.extend_from_slice(group_6())
}

fn group_1() -> &'static [Entry] {
    &GROUP_1
}

fn group_2() -> &'static [Entry] {
    &GROUP_2
}

fn group_3() -> &'static [Entry] {
    &GROUP_3
}

fn group_4() -> &'static [Entry] {
    &GROUP_4
}

fn group_5() -> &'static [Entry] {
    &GROUP_5
}

fn group_6() -> &'static [Entry] {
    &GROUP_6
}

const GROUP_1: [Entry; 6] = [
    Entry {
        name: "RowTooLong",
        meaning: "A record has more bytes than `--max-record` allows, without its line end.",
        says: r#"  A record has more bytes than `--max-record` allows, without its line end.
  With `--keep-going` and `--records lines` the command goes on at the next
  line, and writes the record's first bytes, four more than the option allows.
  Else it ends, and always by a longer header, which is row 0.
"#,
        expected: "  At most as many bytes as the option says; without it any number.\n",
        setup: SETUP_1,
        wrong: "  $ echo 'Etc/UTC,0' | pzic convert --max-record 8 utc.zi\n",
        prints: "  row 1: RowTooLong\n",
        right: "  $ echo 'Etc/UTC,0' | pzic convert --max-record 9 utc.zi\n",
        cause: r#"  A stray double quote: the record then goes on over lines, up to the next one;
  with `--records lines` it costs one line. Or input that isn't a column.
"#,
    },
    Entry {
        name: "RowQuote",
        meaning: "A double quote is stray: it's still open at the end of its record, or a byte other than a delimiter or line end follows the one that ends a field.",
        says: r#"  A double quote is stray: it's still open at the end of its record, or a byte
  other than a delimiter or line end follows the one that ends a field. With
  `--quotes lenient`, the default for a plain column, it's no fault, unless it
  is open at the end of a line with `--records lines`. With `--keep-going` the
  row is the record as it stands. A header with one is row 0.
"#,
        expected: r#"  A field that begins with a double quote ends with one, and has each that is
  in it twice: `"5"" wide"`. In other fields double quotes are text.
"#,
        setup: SETUP_1,
        wrong: "  $ echo 'Etc/UTC,0,\"5\" wide' | pzic convert --append utc.zi\n",
        prints: "  row 1: RowQuote\n",
        right: "  $ echo 'Etc/UTC,0,\"5\"\" wide\"' | pzic convert --append utc.zi\n",
        cause: r#"  Text with a double quote that isn't written twice. An open one takes lines
  into its record up to the next one, or to the end of the column; with
  `--records lines` it costs one line.
"#,
    },
    Entry {
        name: "RowFields",
        meaning: "A record has too few or too many fields.",
        says: r#"  A record has too few or too many fields. There must be two, or one with
  `--zone`; with `--zone-field`, `--time-field`, `--append` or `--replace` as
  many as are read, or more. With `--keep-going` the row is the record as it
  stands.
"#,
        expected: r#"  `NAME,SECONDS`, or the fields that `--zone`, `--zone-field` and `--time-field`
  name, with what `--delimiter` names between them.
"#,
        setup: SETUP_1,
        wrong: "  $ echo 'Etc/UTC;0' | pzic convert utc.zi\n",
        prints: "  row 1: RowFields\n",
        right: "  $ echo 'Etc/UTC,0' | pzic convert utc.zi\n",
        cause: r#"  Another separator, which `--delimiter` names, or more fields, of which
  `--zone-field` and `--time-field` name two. In row 1: a header with other
  columns, which `--header` passes over. Or, in a plain column, a stray double
  quote, which `--quotes strict` finds.
"#,
    },
    Entry {
        name: "RowZone",
        meaning: "The source has no zone or link of that name.",
        says: r#"  The source has no zone or link of that name. With `--tree`: the tree has no
  file of that name, or one that `pzic show` refuses. Or the file has no TZ
  string, an offset beyond 24:00:00, or an abbreviation other than 3 to 16
  ASCII letters, digits, `+` and `-`.
"#,
        expected: "  A name exactly as in the source or tree, including upper and lower case.\n",
        setup: SETUP_1,
        wrong: "  $ printf 'zone,instant\\nEtc/UTC,0\\n' | pzic convert utc.zi\n",
        prints: "  row 1: RowZone\n",
        right: "  $ printf 'zone,instant\\nEtc/UTC,0\\n' | pzic convert --header utc.zi\n",
        cause: r#"  In row 1: a header, which `--header` passes over. Otherwise a name of
  another release or of `backward`, or an abbreviation such as `PST`. With
  `--tree` also the path of another folder, or a file with leap seconds:
  `pzic show --explain FILE 0` tells why a file is refused.
"#,
    },
    Entry {
        name: "RowInstant",
        meaning: "The field of the instant doesn't hold an instant.",
        says: "  The field of the instant doesn't hold an instant.\n",
        expected: r#"  Seconds since 1970-01-01T00:00:00 UT: 1 to 18 digits, perhaps after `-`,
  without `+`, spaces or a fraction. With `--unit` 3, 6 or 9 digits more. With
  `--from seconds` perhaps a fraction, with `rfc3339` a date and a time with a
  UT offset or `Z`, as `1970-01-01T00:00:00Z`, with `utc` one without, in the
  years 1 to 9999. A fraction is a whole number of units.
"#,
        setup: SETUP_1,
        wrong: "  $ echo 'Etc/UTC,1970-01-01T00:00:00Z' | pzic convert utc.zi\n",
        prints: "  row 1: RowInstant\n",
        right: "  $ echo 'Etc/UTC,1970-01-01T00:00:00Z' | pzic convert --from rfc3339 utc.zi\n",
        cause: r#"  A date, which `--from rfc3339` takes with a time and a UT offset, and `utc`
  and `local` without one, a number with a fraction, which `--from seconds`
  takes, or the two fields swapped. A leap second, `23:59:60`, isn't accepted.
  Or, in a plain column, a stray double quote before the instant, which
  `--quotes strict` finds.
"#,
    },
    Entry {
        name: "RowRange",
        meaning: "The instant is outside the supported range.",
        says: "  The instant is outside the supported range.\n",
        expected: r#"  -62135510400 to 253402214399, which is 0001-01-02T00:00:00 to
  9999-12-30T23:59:59 UT; with `--unit ms` -62135510400000 to 253402214399999,
  and so on. With `--from local` the instant of the local time.
"#,
        setup: SETUP_1,
        wrong: "  $ echo 'Etc/UTC,1750000000000' | pzic convert utc.zi\n",
        prints: "  row 1: RowRange\n",
        right: "  $ echo 'Etc/UTC,1750000000' | pzic convert utc.zi\n",
        cause: "  Milliseconds, which `--unit ms` takes.\n",
    },
];

const GROUP_2: [Entry; 6] = [
    Entry {
        name: "TooManyRows",
        meaning: "The column has more rows than `--max-rows` allows.",
        says: "  The column has more rows than `--max-rows` allows.\n",
        expected: r#"  At most 100,000,000 rows, or the number given with the option. With
  `--keep-going` the last lines are the first fault before it, and the number
  of rows with faults.
"#,
        setup: SETUP_1,
        wrong: "  $ printf 'Etc/UTC,0\\nEtc/UTC,1\\n' | pzic convert --max-rows 1 utc.zi\n",
        prints: "  row 2: TooManyRows\n",
        right: "  $ printf 'Etc/UTC,0\\nEtc/UTC,1\\n' | pzic convert --max-rows 2 utc.zi\n",
        cause: "  A longer column: convert it in parts (see \"Long columns\" in USING.md).\n",
    },
    Entry {
        name: "RowLocal",
        meaning: "The field of the local time doesn't hold a local time.",
        says: "  The field of the local time doesn't hold a local time.\n",
        expected: r#"  A date and a time of day without a UT offset, as `1970-01-01T00:00:00` or
  `1970-01-01 00:00`, in the years 1 to 9999. A fraction has 1 to 9 digits, a
  whole number of units: for `.25` give `--unit ms`, `us` or `ns`.
"#,
        setup: SETUP_1,
        wrong: "  $ echo 'Etc/UTC,1970-01-01T00:00:00Z' | pzic convert --from local utc.zi\n",
        prints: "  row 1: RowLocal\n",
        right: "  $ echo 'Etc/UTC,1970-01-01T00:00:00' | pzic convert --from local utc.zi\n",
        cause: r#"  A date without a time of day, a `Z` or a UT offset, which `--from rfc3339`
  takes, or the two fields swapped.
"#,
    },
    Entry {
        name: "RowSkipped",
        meaning: "Clocks pass over the local time.",
        says: "  Clocks pass over the local time.\n",
        expected: r#"  A local time that clocks show. They pass over some where they go forward: a
  gap.
"#,
        setup: SETUP_1,
        wrong: r#"  $ printf 'Zone Test/One 0 - UTC 2000\n 1 - CET\n' >one.zi
  $ echo 'Test/One,2000-01-01T00:30:00' | pzic convert --from local one.zi
"#,
        prints: "  row 1: RowSkipped\n",
        right: r#"  $ echo 'Test/One,2000-01-01T00:30:00' | \
  >   pzic convert --from local --ambiguous compatible one.zi
"#,
        cause: r#"  A time of day that daylight saving time leaves out on one day of the year.
  `--ambiguous later` or `compatible` reads it by the UT offset before the gap,
  `earlier` by that after it.
"#,
    },
    Entry {
        name: "RowRepeated",
        meaning: "Clocks show the local time more than once.",
        says: "  Clocks show the local time more than once.\n",
        expected: r#"  A local time that clocks show once. They show some again where they go back:
  a fold.
"#,
        setup: SETUP_1,
        wrong: r#"  $ printf 'Zone Test/One 1 - CET 2000\n 0 - UTC\n' >one.zi
  $ echo 'Test/One,1999-12-31T23:30:00' | pzic convert --from local one.zi
"#,
        prints: "  row 1: RowRepeated\n",
        right: r#"  $ echo 'Test/One,1999-12-31T23:30:00' | \
  >   pzic convert --from local --ambiguous later one.zi
"#,
        cause: r#"  A time of day in the hour that comes twice at the end of daylight saving
  time. `--ambiguous earlier` or `compatible` takes the first instant, and
  `later` the last.
"#,
    },
    Entry {
        name: "HeaderIsRow",
        meaning: "The record that `--header` or `--skip-header` takes names a zone that there is, and has a time, also one out of range or that clocks don't show once: it's a row.",
        says: r#"  The record that `--header` or `--skip-header` takes names a zone that there
  is, and has a time, also one out of range or that clocks don't show once: it's
  a row. It is row 0, and ends the command, also with `--keep-going`. An empty
  field is no time here, whatever `--empty` says.
"#,
        expected: r#"  A header has another text than a known zone's name, or than a time, in these
  fields: `zone,instant`.
"#,
        setup: SETUP_1,
        wrong: "  $ printf 'Etc/UTC,0\\nEtc/UTC,1\\n' | pzic convert --skip-header utc.zi\n",
        prints: "  row 0: HeaderIsRow\n",
        right: "  $ printf 'zone,instant\\nEtc/UTC,1\\n' | pzic convert --skip-header utc.zi\n",
        cause: r#"  A column without a header, or a part of one that was cut by `split`, whose
  first part alone has the header. Leave the option out.
"#,
    },
    Entry {
        name: "ColumnTooLong",
        meaning: "The column has more bytes than `--max-bytes` allows.",
        says: "  The column has more bytes than `--max-bytes` allows.\n",
        expected: r#"  At most 4,294,967,296 bytes, or the number given with the option. The rows
  written are the column's first. With `--keep-going` the last lines are as
  after TooManyRows.
"#,
        setup: SETUP_1,
        wrong: "  $ echo 'Etc/UTC,0' | pzic convert --max-bytes 9 utc.zi\n",
        prints: "  column: ColumnTooLong\n",
        right: "  $ echo 'Etc/UTC,0' | pzic convert --max-bytes 10 utc.zi\n",
        cause: "  A longer column: convert it in parts. Or an endless input.\n",
    },
];

const GROUP_3: [Entry; 6] = [
    Entry {
        name: "Short",
        meaning: "The file ends before all the data that its headers announce.",
        says: "  The file ends before all the data that its headers announce.\n",
        expected: r#"  Two headers of 44 bytes with their data blocks, and a footer between two
  newlines.
"#,
        setup: SETUP_2,
        wrong: "  $ head -c 100 tree/NY >bad; pzic show bad 0\n",
        prints: "  file: Short\n",
        right: "  $ pzic show tree/NY 0\n",
        cause: "  A truncated or empty file.\n",
    },
    Entry {
        name: "Magic",
        meaning: "The file doesn't begin with `TZif`.",
        says: "  The file doesn't begin with `TZif`.\n",
        expected: "  A TZif file, as `pzic build` or zic writes it.\n",
        setup: SETUP_2,
        wrong: "  $ pzic show ny.zi 0 # 107 bytes of source text\n",
        prints: "  file: Magic\n",
        right: "  $ pzic show tree/NY 0\n",
        cause: "  A source, a table such as zone.tab, or a compressed file.\n",
    },
    Entry {
        name: "Version",
        meaning: "The version of the file is neither 2 nor 3.",
        says: "  The version of the file is neither 2 nor 3.\n",
        expected: "  The fifth byte is `2` or `3`.\n",
        setup: SETUP_2,
        wrong: "  $ change 4 4; pzic show bad 0\n",
        prints: "  file: Version\n",
        right: "  $ change 4 2; pzic show bad 0\n",
        cause: r#"  A file of version 1, which has 32-bit times only, or of version 4, which has
  leap seconds. Compile the source again.
"#,
    },
    Entry {
        name: "HeadersDiffer",
        meaning: "The second header doesn't begin with the same five bytes as the first.",
        says: "  The second header doesn't begin with the same five bytes as the first.\n",
        expected: "  `TZif` and the same version in both headers.\n",
        setup: SETUP_2,
        wrong: "  $ change 4 3; pzic show bad 0\n",
        prints: "  file: HeadersDiffer\n",
        right: "  $ pzic show tree/NY 0\n",
        cause: r#"  A damaged file, in which the first data block doesn't have the length that
  its header says.
"#,
    },
    Entry {
        name: "Counts",
        meaning: "The counts in the second header are inconsistent.",
        says: "  The counts in the second header are inconsistent.\n",
        expected: r#"  At least one local time type and one byte of abbreviations; as many
  standard/wall and UT/local indicators as types, or none.
"#,
        setup: SETUP_2,
        wrong: "  $ change 90 '\\0'; pzic show bad 0\n",
        prints: "  file: Counts\n",
        right: "  $ change 90 '\\2'; pzic show bad 0\n",
        cause: "  A damaged file.\n",
    },
    Entry {
        name: "LeapSeconds",
        meaning: "The file has leap seconds.",
        says: "  The file has leap seconds.\n",
        expected: r#"  A file without them: instants are POSIX times, which don't count leap
  seconds.
"#,
        setup: SETUP_2,
        wrong: "  $ change 31 '\\1'; pzic show bad 0\n",
        prints: "  file: LeapSeconds\n",
        right: "  $ change 31 '\\0'; pzic show bad 0\n",
        cause: r#"  A file from the folder `right` of a zoneinfo tree. Use the file of the same
  name outside it.
"#,
    },
];

const GROUP_4: [Entry; 6] = [
    Entry {
        name: "TimesNotRising",
        meaning: "The transition times don't rise.",
        says: "  The transition times don't rise.\n",
        expected: "  Each transition is later than the one before it.\n",
        setup: SETUP_2,
        wrong: "  $ change 95 '\\177'; pzic show bad 0\n",
        prints: "  file: TimesNotRising\n",
        right: "  $ pzic show tree/NY 0\n",
        cause: "  A damaged file.\n",
    },
    Entry {
        name: "TypeIndex",
        meaning: "A transition refers to a local time type that doesn't exist.",
        says: "  A transition refers to a local time type that doesn't exist.\n",
        expected: "  Numbers below the number of types.\n",
        setup: SETUP_2,
        wrong: "  $ change 143 '\\2'; pzic show bad 0\n",
        prints: "  file: TypeIndex\n",
        right: "  $ change 143 '\\1'; pzic show bad 0\n",
        cause: "  A damaged file.\n",
    },
    Entry {
        name: "Designation",
        meaning: "A local time type has no valid abbreviation.",
        says: "  A local time type has no valid abbreviation.\n",
        expected: r#"  An index into the abbreviations, where ASCII characters from space to `~` end
  with a NUL.
"#,
        setup: SETUP_2,
        wrong: "  $ change 154 '\\10'; pzic show bad 0\n",
        prints: "  file: Designation\n",
        right: "  $ change 154 '\\0'; pzic show bad 0\n",
        cause: "  A damaged file.\n",
    },
    Entry {
        name: "TypeRecord",
        meaning: "A local time type has an invalid daylight flag or offset.",
        says: "  A local time type has an invalid daylight flag or offset.\n",
        expected: "  A flag of 0 or 1, and an offset within 25:59:59 either way.\n",
        setup: SETUP_2,
        wrong: "  $ change 153 '\\2'; pzic show bad 0\n",
        prints: "  file: TypeRecord\n",
        right: "  $ change 153 '\\0'; pzic show bad 0\n",
        cause: "  A damaged file.\n",
    },
    Entry {
        name: "Indicators",
        meaning: "A standard/wall or UT/local indicator is neither 0 nor 1.",
        says: "  A standard/wall or UT/local indicator is neither 0 nor 1.\n",
        expected: "  0 or 1.\n",
        setup: SETUP_2,
        wrong: r#"  $ { head -c 74 tree/NY; printf '\2'; tail -c +76 tree/NY | head -c 94; } >bad
  $ { printf '\2\0'; tail -c 24 tree/NY; } >>bad; pzic show bad 0
"#,
        prints: "  file: Indicators\n",
        right: "  $ pzic show tree/NY 0\n",
        cause: "  A damaged file.\n",
    },
    Entry {
        name: "Footer",
        meaning: "The footer is wrong.",
        says: "  The footer is wrong.\n",
        expected: r#"  A newline, a POSIX TZ string with rules or nothing, and a newline. The string
  must fit the version of the file, and mean the same offset, flag and
  abbreviation at the last transition as the transition does.
"#,
        setup: SETUP_2,
        wrong: "  $ change 170 W; pzic show bad 0\n",
        prints: "  file: Footer\n",
        right: "  $ change 170 E; pzic show bad 0\n",
        cause: r#"  A file of zic 2.36, some of which contradict themselves or would need version
  3 (see ZIC.md), or a TZ string without rules, such as `EST5EDT`.
"#,
    },
];

const GROUP_5: [Entry; 6] = [
    Entry {
        name: "TrailingBytes",
        meaning: "The file goes on after the footer.",
        says: "  The file goes on after the footer.\n",
        expected: "  Nothing after the second newline of the footer.\n",
        setup: SETUP_2,
        wrong: "  $ { cat tree/NY; echo; } >bad; pzic show bad 0\n",
        prints: "  file: TrailingBytes\n",
        right: "  $ pzic show tree/NY 0\n",
        cause: "  Two files in one, or a newline added by an editor.\n",
    },
    Entry {
        name: "TooLarge",
        meaning: "The file has more than 1,048,576 bytes.",
        says: "  The file has more than 1,048,576 bytes.\n",
        expected: "  A TZif file; most have less than 4,000 bytes.\n",
        setup: SETUP_2,
        wrong: "  $ truncate -s 1048577 bad; pzic show bad 0\n",
        prints: "  file: TooLarge\n",
        right: "  $ pzic show tree/NY 0\n",
        cause: "  Some other file.\n",
    },
    Entry {
        name: "cannot read PATH",
        meaning: "The source, the file or the folder can't be read.",
        says: "  The source, the file or the folder can't be read. Status 3.\n",
        expected: r#"  The path of a readable file. For `check`, `build`, `verify` and `diff` it may
  be `-`, standard input. A source has at most 67,108,864 bytes. For `--tree`
  and `--trees`, a folder.
"#,
        setup: SETUP_1,
        wrong: "  $ pzic check nowhere.zi\n",
        prints: "  cannot read nowhere.zi\n",
        right: "  $ pzic check utc.zi\n",
        cause: "  A wrong path, a folder in place of a file, or missing permissions.\n",
    },
    Entry {
        name: "cannot read column",
        meaning: "Standard input can't be read.",
        says: r#"  Standard input can't be read. Status 3. The rows written are the column's
  first.
"#,
        expected: "  Standard input that is open and isn't a folder.\n",
        setup: SETUP_1,
        wrong: "  $ pzic convert utc.zi <&-\n",
        prints: "  cannot read column\n",
        right: "  $ pzic convert utc.zi </dev/null\n",
        cause: "  A service that runs with its standard input closed.\n",
    },
    Entry {
        name: "cannot write PATH",
        meaning: "The file at PATH, or a folder that it needs, can't be written.",
        says: r#"  The file at PATH, or a folder that it needs, can't be written. Status 3. PATH
  may also be a file of `--faults`, `--rejects` or `--against-summary`. The
  files of all earlier Zone and Link lines are in place; with `--links hard` or
  `symlink` all zones come first.
"#,
        expected: "  A folder that can be written to and has room. DIR must not be empty.\n",
        setup: SETUP_1,
        wrong: "  $ touch file; pzic build file utc.zi\n",
        prints: "  cannot write file/Etc/UTC\n",
        right: "  $ pzic build folder utc.zi\n",
        cause: r#"  Missing permissions, a full disk, a file where a folder is needed, or a
  folder where the file belongs. No tree can hold both `A/B` and `A/B/C`.
"#,
    },
    Entry {
        name: "cannot write rows",
        meaning: "The converted rows can't be written.",
        says: "  The converted rows can't be written. Status 3.\n",
        expected: "  Standard output that accepts all rows.\n",
        setup: SETUP_1,
        wrong: "  $ echo 'Etc/UTC,0' | pzic convert utc.zi >/dev/full\n",
        prints: "  cannot write rows\n",
        right: "  $ echo 'Etc/UTC,0' | pzic convert utc.zi >rows\n",
        cause: r#"  A full disk, or a program at the other end of the pipe, such as `head`, that
  has exited.
"#,
    },
];

const GROUP_6: [Entry; 6] = [
    Entry {
        name: "cannot write output",
        meaning: "The output of `check`, `verify`, `diff`, `show`, `dump`, `explain` or `--version` can't be written.",
        says: r#"  The output of `check`, `verify`, `diff`, `show`, `dump`, `explain` or
  `--version` can't be written. Status 3.
"#,
        expected: "  Standard output that accepts all of the output.\n",
        setup: SETUP_1,
        wrong: "  $ pzic check utc.zi >/dev/full\n",
        prints: "  cannot write output\n",
        right: "  $ pzic check utc.zi >listing\n",
        cause: "  A full disk, or a program at the other end of the pipe that has exited.\n",
    },
    Entry {
        name: "unknown zone NAME",
        meaning: "The source has no zone or link of the name that `--zone` gives.",
        says: r#"  The source has no zone or link of the name that `--zone` gives. With
  `--tree`: the tree has no file of that name that rows can be made of. Nothing
  is read of the column. Status 2.
"#,
        expected: "  A name exactly as in the source or tree, including upper and lower case.\n",
        setup: SETUP_1,
        wrong: "  $ echo 0 | pzic convert --zone UTC utc.zi\n",
        prints: "  unknown zone UTC\n",
        right: "  $ echo 0 | pzic convert --zone Etc/UTC utc.zi\n",
        cause: r#"  A name of another release or of `backward`: `pzic check` lists the names of a
  source. With `--tree`, list the folder.
"#,
    },
    Entry {
        name: "tree differs",
        meaning: "`verify` listed files of the sources that the folder doesn't have as `build` writes them, or with `--strict` others.",
        says: r#"  `verify` listed files of the sources that the folder doesn't have as `build`
  writes them, or with `--strict` others. Status 1.
"#,
        expected: r#"  For each Zone and Link line a file DIR/NAME with just the bytes that `build`
  gives it. With `--strict` no other file.
"#,
        setup: SETUP_1,
        wrong: "  $ mkdir -p empty; pzic verify empty utc.zi >list\n",
        prints: "  tree differs\n",
        right: "  $ pzic build folder utc.zi; pzic verify folder utc.zi\n",
        cause: r#"  A tree of another release or compiler, or a build that was cut off. Standard
  output has the names.
"#,
    },
    Entry {
        name: "out of memory",
        meaning: "The system refused memory.",
        says: "  The system refused memory. Status 4.\n",
        expected: r#"  A few MB for a release of the tz database, some 60 MB for a column with 4
  threads, and up to 2.3 times the longest record of it.
"#,
        setup: SETUP_1,
        wrong: "  $ truncate -s 67108864 large; (ulimit -v 60000; pzic check large)\n",
        prints: "  out of memory\n",
        right: "  $ pzic check utc.zi\n",
        cause: r#"  A limit of the shell or of a container. `--workers 1` and a smaller
  `--row-piece` use less memory.
"#,
    },
    Entry {
        name: "no thread",
        meaning: "No thread could be started.",
        says: r#"  No thread could be started. Status 4. At present no command ends with this
  message.
"#,
        expected: "",
        setup: "",
        wrong: "",
        prints: "",
        right: "",
        cause: "",
    },
    Entry {
        name: "usage",
        meaning: "The command line is wrong or asks for help.",
        says: r#"  The command line is wrong or asks for help. Status 2. The message on standard
  error says what is wrong, or is the help text.
"#,
        expected: r#"  `pzic --help` lists the commands, and `pzic COMMAND --help` the options of
  one, as the last line of the message says.
"#,
        setup: SETUP_1,
        wrong: "  $ pzic show utc.zi -1 2>&1 | head -n 1\n",
        prints: "  error: unexpected argument '-1' found\n",
        right: "  $ pzic build folder utc.zi; pzic show folder/Etc/UTC -- -1\n",
        cause: r#"  An INSTANT before 1970 without `--` before it, `-` as the SOURCE of
  `convert`, or an option given twice.
"#,
    },
];
