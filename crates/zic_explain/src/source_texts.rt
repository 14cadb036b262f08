//! The texts of the errors of a source. This file is made of docs/errors.txt by tools/errors.py.

use crate::entry::Entry;
use std::alloc::AllocError;

/// Adds the texts of the errors of a source, in the order of docs/ERRORS.md.
pub(crate) fn push_source_errors(entries: &mut Vec<Entry>) -> Result<(), AllocError> {
    entries.extend_from_slice(group_1())?;
    entries.extend_from_slice(group_2())?;
    entries.extend_from_slice(group_3())?;
    entries.extend_from_slice(group_4())?;
    entries.extend_from_slice(group_5())?;
    entries.extend_from_slice(group_6())
}

fn group_1() -> &'static [Entry] {
    &GROUP_1
}

fn group_2() -> &'static [Entry] {
    &GROUP_2
}

fn group_3() -> &'static [Entry] {
    &GROUP_3
}

fn group_4() -> &'static [Entry] {
    &GROUP_4
}

fn group_5() -> &'static [Entry] {
    &GROUP_5
}

fn group_6() -> &'static [Entry] {
    &GROUP_6
}

const GROUP_1: [Entry; 6] = [
    Entry {
        name: "NotAscii",
        meaning: "A byte outside a comment is neither white space nor a visible ASCII character.",
        says: r#"  A byte outside a comment is neither white space nor a visible ASCII
  character.
"#,
        expected: r#"  Fields consist of the bytes 0x21 to 0x7E. White space is space, tab, vertical
  tab, form feed and carriage return. A comment may contain any byte.
"#,
        setup: "",
        wrong: "  Zone America/Asunción -4:00 - %z\n",
        prints: "  line 1: NotAscii\n",
        right: "  Zone America/Asuncion -4:00 - %z # Asunción\n",
        cause: r#"  A name with an accent, a no-break space or typographic quotes from a word
  processor, or a file saved with a byte order mark or as UTF-16.
"#,
    },
    Entry {
        name: "Quote",
        meaning: "A double quote opens a quoted part that isn't closed on the same line.",
        says: "  A double quote opens a quoted part that isn't closed on the same line.\n",
        expected: r#"  Double quotes in pairs, each pair on one line. A quote itself can't be
  written in a field.
"#,
        setup: "",
        wrong: "  Zone \"Etc/UTC 0 - UTC\n",
        prints: "  line 1: Quote\n",
        right: "  Zone \"Etc/UTC\" 0 - UTC\n",
        cause: "  A missing closing quote, or a quote that belongs in a comment.\n",
    },
    Entry {
        name: "LineTooLong",
        meaning: "A line has more than 2,048 bytes.",
        says: "  A line has more than 2,048 bytes.\n",
        expected: "  At most 2,048 bytes before each newline, including any comment.\n",
        setup: "",
        wrong: "  $ printf 'Zone Etc/UTC 0 - UTC #%2048s\\n' '' | pzic check -\n",
        prints: "  line 1: LineTooLong\n",
        right: "  $ printf '#%2047s\\nZone Etc/UTC 0 - UTC\\n' '' | pzic check -\n",
        cause: r#"  A file that isn't a source, such as a TZif file, or a text whose lines end
  with a carriage return alone, which ends no line here.
"#,
    },
    Entry {
        name: "Keyword",
        meaning: "The first field of a line isn't Rule, Zone or Link.",
        says: "  The first field of a line isn't Rule, Zone or Link.\n",
        expected: r#"  `Rule`, `Zone` or `Link`, or an abbreviation of one, in upper or lower case.
  A line without a keyword is a continuation, and may follow only a line with
  an UNTIL. Leap and Expires lines aren't supported.
"#,
        setup: "",
        wrong: r#"  Zone America/Chicago -5:50:36 - LMT
  -6:00 - CST
"#,
        prints: "  line 2: Keyword\n",
        right: r#"  Zone America/Chicago -5:50:36 - LMT 1883 Nov 18 18:00u
  -6:00 - CST
"#,
        cause: r#"  The UNTIL is missing from the line before a continuation; or the file is a
  table of the tz database, such as leapseconds or zone.tab.
"#,
    },
    Entry {
        name: "FieldCount",
        meaning: "A line has too few or too many fields.",
        says: "  A line has too few or too many fields.\n",
        expected: r#"  10 fields: `Rule NAME FROM TO - IN ON AT SAVE LETTER`; 5 to 9: `Zone NAME
  STDOFF RULES FORMAT [YEAR [MONTH [DAY [TIME]]]]`; 3 to 7: a continuation,
  which is the same from STDOFF on; 3: `Link TARGET LINK-NAME`.
"#,
        setup: "",
        wrong: "  Rule US 2007 max - Mar Sun>=8 2:00 1:00\n",
        prints: "  line 1: FieldCount\n",
        right: "  Rule US 2007 max - Mar Sun>=8 2:00 1:00 -\n",
        cause: r#"  A missing `-` for an empty field, or a space inside a name or in `Sun >= 8`.
  If the line before has an UNTIL, this line was read as its continuation.
"#,
    },
    Entry {
        name: "Name",
        meaning: "The name of a zone, a link, a link's target or a rule set isn't allowed.",
        says: "  The name of a zone, a link, a link's target or a rule set isn't allowed.\n",
        expected: r#"  A zone or link name: 1 to 255 ASCII letters, digits, `_`, `-`, `+`, `.` and
  `/`, where no part between slashes is empty, `.` or `..`. The name of a rule
  set: 1 to 255 visible ASCII characters, not beginning with a digit, `-` or
  `+`. `-` alone isn't a name.
"#,
        setup: "",
        wrong: "  Zone /Etc/UTC 0 - UTC\n",
        prints: "  line 1: Name\n",
        right: "  Zone Etc/UTC 0 - UTC\n",
        cause: "  An absolute path, or a space, for which `_` is used.\n",
    },
];

const GROUP_2: [Entry; 6] = [
    Entry {
        name: "Year",
        meaning: "FROM or TO isn't a year.",
        says: "  FROM or TO isn't a year.\n",
        expected: r#"  FROM: a year from 1 to 9000. TO: such a year, `only` or `maximum`. These
  words may be abbreviated, `maximum` to no less than `ma`.
"#,
        setup: "",
        wrong: "  Rule US min max - Mar Sun>=8 2:00 1:00 D\n",
        prints: "  line 1: Year\n",
        right: "  Rule US 1967 max - Mar Sun>=8 2:00 1:00 D\n",
        cause: r#"  FROM is `minimum`, which older versions of zic accept: write the year in
  which the rule began. Or a field is missing before FROM.
"#,
    },
    Entry {
        name: "YearOrder",
        meaning: "TO is before FROM.",
        says: "  TO is before FROM.\n",
        expected: "  The earlier year first.\n",
        setup: "",
        wrong: "  Rule US 2006 1987 - Apr Sun>=1 2:00 1:00 D\n",
        prints: "  line 1: YearOrder\n",
        right: "  Rule US 1987 2006 - Apr Sun>=1 2:00 1:00 D\n",
        cause: "  The two years are swapped.\n",
    },
    Entry {
        name: "Reserved",
        meaning: "The fifth field of a Rule line isn't `-`.",
        says: "  The fifth field of a Rule line isn't `-`.\n",
        expected: "  `-`. In old sources this field was the type of year, such as `even`.\n",
        setup: "",
        wrong: "  Rule AN 1986 1989 even Mar Sun>=15 2:00s 0 -\n",
        prints: "  line 1: Reserved\n",
        right: r#"  Rule AN 1986 only - Mar Sun>=15 2:00s 0 -
  Rule AN 1988 only - Mar Sun>=15 2:00s 0 -
"#,
        cause: r#"  An old source: write a line for each year. Or the `-` is missing, and IN
  stands in its place.
"#,
    },
    Entry {
        name: "Month",
        meaning: "IN isn't a month.",
        says: "  IN isn't a month.\n",
        expected: r#"  The English name of a month or an unambiguous abbreviation, such as `Ja`,
  `Mar` or `S`. `M`, `Ma`, `J`, `Ju` and `A` are ambiguous.
"#,
        setup: "",
        wrong: "  Rule US 2007 max - 3 Sun>=8 2:00 1:00 D\n",
        prints: "  line 1: Month\n",
        right: "  Rule US 2007 max - Mar Sun>=8 2:00 1:00 D\n",
        cause: "  A number instead of a name.\n",
    },
    Entry {
        name: "Day",
        meaning: "ON isn't a day of the month.",
        says: "  ON isn't a day of the month.\n",
        expected: r#"  A day such as `8`; the last weekday of the month, `lastSun`; the first
  weekday on or after a day, `Sun>=8`; or the last on or before a day,
  `Sun<=25`. The day must exist in that month. `29` in February is allowed
  alone only if FROM and TO are the same leap year, and not after `>=`. `S` and
  `T` are ambiguous weekdays.
"#,
        setup: "",
        wrong: "  Rule US 2007 max - Mar Sun>8 2:00 1:00 D\n",
        prints: "  line 1: Day\n",
        right: "  Rule US 2007 max - Mar Sun>=8 2:00 1:00 D\n",
        cause: "  `>` instead of `>=`, `last` without a weekday, or February 29 in every year.\n",
    },
    Entry {
        name: "Time",
        meaning: "AT isn't a time.",
        says: "  AT isn't a time.\n",
        expected: r#"  `h`, `h:mm` or `h:mm:ss`, with an optional fraction of a second, at most
  300:00:00. `-` before it means before midnight, and `-` alone is 0:00. A
  letter after it names the clock: `w` wall clock (the default), `s` standard
  time, `u`, `g` or `z` UT.
"#,
        setup: "",
        wrong: "  Rule US 2007 max - Mar Sun>=8 2am 1:00 D\n",
        prints: "  line 1: Time\n",
        right: "  Rule US 2007 max - Mar Sun>=8 2:00 1:00 D\n",
        cause: "  `2am` or `2.00` instead of `2:00`, or a `+` sign.\n",
    },
];

const GROUP_3: [Entry; 6] = [
    Entry {
        name: "Save",
        meaning: "SAVE, or an amount in RULES, isn't an amount of time that can be saved.",
        says: "  SAVE, or an amount in RULES, isn't an amount of time that can be saved.\n",
        expected: r#"  An amount such as `1:00`, `0:20:30` or `1`, which is an hour: at most
  24:00:00, perhaps after `-`, but not `+`. `s` after it means standard time
  and `d` daylight saving time; without a letter only 0 is standard time.
"#,
        setup: "",
        wrong: "  Rule US 2007 max - Mar Sun>=8 2:00 +1:00 D\n",
        prints: "  line 1: Save\n",
        right: "  Rule US 2007 max - Mar Sun>=8 2:00 1:00 D\n",
        cause: r#"  A `+` sign; minutes, although `60` means 60 hours; or, on a Zone line, the
  name of a rule set that begins with a digit.
"#,
    },
    Entry {
        name: "Letter",
        meaning: "LETTER can't be part of an abbreviation.",
        says: "  LETTER can't be part of an abbreviation.\n",
        expected: "  `-` for nothing, or 1 to 16 ASCII letters, digits, `+` and `-`.\n",
        setup: "",
        wrong: "  Rule US 2007 max - Mar Sun>=8 2:00 1:00 D/S\n",
        prints: "  line 1: Letter\n",
        right: "  Rule US 2007 max - Mar Sun>=8 2:00 1:00 D\n",
        cause: "  Two letters with a slash, which belong in FORMAT.\n",
    },
    Entry {
        name: "Offset",
        meaning: "STDOFF isn't a UT offset.",
        says: "  STDOFF isn't a UT offset.\n",
        expected: r#"  Hours, perhaps with minutes and seconds, as `5:30` or `-3:30:52`: at most
  24:00:00, positive east of Greenwich, with `-` west of it, and without a `+`.
"#,
        setup: "",
        wrong: r#"  Zone Europe/Dublin 0:00 - GMT 1968
  Zone Etc/UTC 0 - UTC
"#,
        prints: "  line 2: Offset\n",
        right: r#"  Zone Europe/Dublin 0:00 - GMT 1968
  1:00 - IST
  Zone Etc/UTC 0 - UTC
"#,
        cause: r#"  The line before has an UNTIL, so this line was read as its continuation: add
  the continuation, or drop the UNTIL. Otherwise a `+` sign, or seconds instead
  of hours.
"#,
    },
    Entry {
        name: "Format",
        meaning: "FORMAT has a `%` or a `/` in the wrong place.",
        says: "  FORMAT has a `%` or a `/` in the wrong place.\n",
        expected: r#"  An abbreviation; or one that contains `%s`, which LETTER replaces, or `%z`,
  which the UT offset replaces, once and without a `/`; or two abbreviations
  with a `/` between them, the first for standard time. `-` is the empty
  abbreviation.
"#,
        setup: "",
        wrong: "  Zone Europe/London 0:00 - %s/%s\n",
        prints: "  line 1: Format\n",
        right: "  Zone Europe/London 0:00 - GMT/BST\n",
        cause: "  `%s` on both sides of a slash, or another `%`.\n",
    },
    Entry {
        name: "Until",
        meaning: "A field of an UNTIL is wrong.",
        says: "  A field of an UNTIL is wrong.\n",
        expected: r#"  `YEAR [MONTH [DAY [TIME]]]`, each as on a Rule line; by default January, 1
  and 0:00. A plain day must exist in that month of that year.
"#,
        setup: "",
        wrong: r#"  Zone Etc/Test 0 - AAA 2001 Feb 29
  0 - BBB
"#,
        prints: "  line 1: Until\n",
        right: r#"  Zone Etc/Test 0 - AAA 2001 Mar 1
  0 - BBB
"#,
        cause: r#"  A day that the month doesn't have, the order day, month, year, or a comment
  without its `#`.
"#,
    },
    Entry {
        name: "NoContinuation",
        meaning: "The source ends after a line with an UNTIL.",
        says: "  The source ends after a line with an UNTIL.\n",
        expected: r#"  A continuation after each line with an UNTIL, in the same source. The message
  names the last line with an UNTIL.
"#,
        setup: "",
        wrong: "  Zone Etc/Test 0 - AAA 2001\n",
        prints: "  line 1: NoContinuation\n",
        right: r#"  Zone Etc/Test 0 - AAA 2001
  0 - BBB
"#,
        cause: r#"  An UNTIL that says how long the data is known: drop it. Or a zone that is cut
  off, or that continues in another file.
"#,
    },
];

const GROUP_4: [Entry; 6] = [
    Entry {
        name: "DuplicateName",
        meaning: "A Zone or Link line has the name of an earlier Zone or Link line.",
        says: "  A Zone or Link line has the name of an earlier Zone or Link line.\n",
        expected: "  Each name once in all sources.\n",
        setup: "",
        wrong: r#"  Zone Etc/UTC 0 - UTC
  Zone Etc/UTC 0 - UTC
"#,
        prints: "  line 2: DuplicateName\n",
        right: r#"  Zone Etc/UTC 0 - UTC
  Zone Etc/GMT 0 - GMT
"#,
        cause: r#"  The same source given twice; the tz database's `backzone` given with
  `backward`; or the names of a Link line swapped: it is `Link TARGET
  LINK-NAME`.
"#,
    },
    Entry {
        name: "TooMany",
        meaning: "This line exceeds one of the limits on the number of lines.",
        says: "  This line exceeds one of the limits on the number of lines.\n",
        expected: r#"  At most 1,000 Rule lines of one set, 10,000 Rule lines, 10,000 Zone and
  continuation lines together, and 10,000 names of zones and links.
"#,
        setup: "",
        wrong: "  $ for i in $(seq 10001); do echo \"Zone Z/$i 0 - UTC\"; done | pzic check -\n",
        prints: "  line 10001: TooMany\n",
        right: "  $ for i in $(seq 10000); do echo \"Zone Z/$i 0 - UTC\"; done | pzic check -\n",
        cause: r#"  A generated source. Build it in parts into one folder, each with the rules
  and the link targets that it uses.
"#,
    },
    Entry {
        name: "UnknownRules",
        meaning: "RULES names a rule set that has no Rule line.",
        says: "  RULES names a rule set that has no Rule line.\n",
        expected: r#"  A Rule line of that name, before or after the zone, in any of the sources.
  Names are case-sensitive.
"#,
        setup: "",
        wrong: "  Zone Europe/Paris 1:00 EU CE%sT\n",
        prints: "  line 1: UnknownRules\n",
        right: r#"  Rule EU 1981 max - Mar lastSun 1:00u 1:00 S
  Rule EU 1996 max - Oct lastSun 1:00u 0 -
  Zone Europe/Paris 1:00 EU CE%sT
"#,
        cause: r#"  One file of the tz database without the file that has its rules: give them
  together. Or a misspelt name.
"#,
    },
    Entry {
        name: "UnknownTarget",
        meaning: "A link leads to a name that no Zone or Link line has.",
        says: "  A link leads to a name that no Zone or Link line has.\n",
        expected: r#"  `Link TARGET NAME`: the existing name first. The target may be another link,
  and may come later.
"#,
        setup: "",
        wrong: r#"  Zone Etc/UTC 0 - UTC
  Link UTC Etc/UTC0
"#,
        prints: "  line 2: UnknownTarget\n",
        right: r#"  Zone Etc/UTC 0 - UTC
  Link Etc/UTC UTC
"#,
        cause: r#"  The two names are swapped, or `backward` was given without the files that
  have its targets.
"#,
    },
    Entry {
        name: "LinkCycle",
        meaning: "A link leads back to itself and never to a zone.",
        says: "  A link leads back to itself and never to a zone.\n",
        expected: "  A chain of links that ends at a zone.\n",
        setup: "",
        wrong: r#"  Link UTC UCT
  Link UCT UTC
"#,
        prints: "  line 1: LinkCycle\n",
        right: r#"  Link UTC UCT
  Link Etc/UTC UTC
  Zone Etc/UTC 0 - UTC
"#,
        cause: "  Two links that name each other.\n",
    },
    Entry {
        name: "OffsetRange",
        meaning: "STDOFF plus the saving exceeds 24:00:00 either way.",
        says: "  STDOFF plus the saving exceeds 24:00:00 either way.\n",
        expected: r#"  A total within 24:00:00, for the amount in RULES or for the SAVE of every
  rule of the set, even of one that never applies to this line.
"#,
        setup: "",
        wrong: r#"  Zone Etc/Test 23:30 1:00 AAA 2000
  0 - BBB
"#,
        prints: "  line 1: OffsetRange\n",
        right: r#"  Zone Etc/Test 22:30 1:00 AAA 2000
  0 - BBB
"#,
        cause: "  Minutes instead of hours: an hour is `1:00` or `1`, and `12` means 12 hours.\n",
    },
];

const GROUP_5: [Entry; 6] = [
    Entry {
        name: "RulesOutOfOrder",
        meaning: "In some year two rules of a set that the zone uses take effect at the same time or in the wrong order.",
        says: r#"  In some year two rules of a set that the zone uses take effect at the same
  time or in the wrong order. The line is the Zone line; a continuation line
  may name the set.
"#,
        expected: r#"  The times of all rules of the set rise strictly, by their own clocks and as
  instants, in every year to come.
"#,
        setup: "",
        wrong: r#"  Rule B 2000 max - Mar 1 0:00 1:00 D
  Rule B 2000 max - Mar Sun>=1 0:00 0 S
  Zone Etc/Test 0 B X%sT
"#,
        prints: "  line 3: RulesOutOfOrder\n",
        right: r#"  Rule B 2000 max - Mar 1 0:00 1:00 D
  Rule B 2000 max - Mar Sun>=8 0:00 0 S
  Zone Etc/Test 0 B X%sT
"#,
        cause: r#"  A rule given twice, two days that coincide in some years, or two rule sets
  with the same name.
"#,
    },
    Entry {
        name: "UntilNotRising",
        meaning: "An UNTIL isn't later than the one before it.",
        says: "  An UNTIL isn't later than the one before it. The line is the Zone line.\n",
        expected: "  Each UNTIL of a zone is later than the UNTIL of the line before.\n",
        setup: "",
        wrong: r#"  Zone Etc/Test 0 - AAA 2000
  0 - BBB 1999
  0 - CCC
"#,
        prints: "  line 1: UntilNotRising\n",
        right: r#"  Zone Etc/Test 0 - AAA 1999
  0 - BBB 2000
  0 - CCC
"#,
        cause: r#"  Lines in the wrong order, or two changes within an hour, one by wall clock
  time and one in UT.
"#,
    },
    Entry {
        name: "NoLetter",
        meaning: "FORMAT has `%s`, and at some instant there is no LETTER for it.",
        says: "  FORMAT has `%s`, and at some instant there is no LETTER for it.\n",
        expected: r#"  `%s` on lines whose RULES name a set. Before the first rule of the set takes
  effect, the LETTER is that of its first rule of standard time, so it must
  have one.
"#,
        setup: "",
        wrong: "  Zone Europe/Paris 1:00 - CE%sT\n",
        prints: "  line 1: NoLetter\n",
        right: "  Zone Europe/Paris 1:00 - CET\n",
        cause: "  RULES is `-`, or no rule of the set is of standard time.\n",
    },
    Entry {
        name: "BadAbbreviation",
        meaning: "At some instant the abbreviation is too short, too long or has a character that isn't allowed.",
        says: r#"  At some instant the abbreviation is too short, too long or has a character
  that isn't allowed.
"#,
        expected: "  FORMAT and LETTER together give 3 to 16 ASCII letters, digits, `+` and `-`.\n",
        setup: "",
        wrong: "  Zone Etc/Test 0 - Z\n",
        prints: "  line 1: BadAbbreviation\n",
        right: "  Zone Etc/Test 0 - UTC\n",
        cause: r#"  FORMAT is `-` or a single letter, or `%s` has an empty LETTER. Use `%z` for
  the offset, or `-00` if local time isn't known.
"#,
    },
    Entry {
        name: "NoFooter",
        meaning: "No POSIX TZ string continues as the rules of the zone's last line do.",
        says: "  No POSIX TZ string continues as the rules of the zone's last line do.\n",
        expected: r#"  The set has no rule, one rule or two rules with TO `max`. Two such rules are
  one of standard time and one of daylight saving time, alternate in every
  year, and have days that POSIX can express. It can't express `Sun>=29`.
"#,
        setup: "",
        wrong: r#"  Rule A 2000 max - Mar lastSun 2:00 1:00 D
  Rule A 2000 max - Jun Sun>=1 2:00 2:00 M
  Rule A 2000 max - Oct lastSun 3:00 0 S
  Zone Etc/Test 1:00 A C%sT
"#,
        prints: "  line 4: NoFooter\n",
        right: r#"  Rule A 2000 max - Mar lastSun 2:00 1:00 D
  Rule A 2000 2030 - Jun Sun>=1 2:00 2:00 M
  Rule A 2000 max - Oct lastSun 3:00 0 S
  Zone Etc/Test 1:00 A C%sT
"#,
        cause: r#"  Some of the rules have ended: give those a last year. If all really go on,
  give all a last year.
"#,
    },
    Entry {
        name: "PermanentDaylight",
        meaning: "From some instant on the zone has daylight saving time for ever.",
        says: "  From some instant on the zone has daylight saving time for ever.\n",
        expected: "  A zone that ends with standard time, or that alternates for ever.\n",
        setup: "",
        wrong: "  Zone Etc/Test 1:00 1:00 XXX\n",
        prints: "  line 1: PermanentDaylight\n",
        right: "  Zone Etc/Test 2:00 - XXX\n",
        cause: r#"  A zone that stayed on summer time: add a line with the new STDOFF and RULES
  `-`. Or a set whose last rule, in its last year, begins daylight saving time.
"#,
    },
];

const GROUP_6: [Entry; 3] = [
    Entry {
        name: "TooManyChanges",
        meaning: "A zone has more than 100,000 transitions.",
        says: "  A zone has more than 100,000 transitions.\n",
        expected: r#"  At most 100,000. Two rules with TO `max` add only a few transitions after the
  last year that the zone names.
"#,
        setup: "",
        wrong: r#"  $ for m in Jan Mar May Jul Sep Nov; do
  >   echo "Rule R 1 9000 - $m 1 0:00 1:00 D"
  >   echo "Rule R 1 9000 - $m 15 0:00 0 S"
  > done >often.zi
  $ echo 'Zone Etc/Test 0 R X%sT' >>often.zi
  $ pzic check often.zi
"#,
        prints: "  line 13: TooManyChanges\n",
        right: "  $ sed 's/9000/8333/' often.zi | pzic check -\n",
        cause: "  A generated source with rules for thousands of years: use TO `max`.\n",
    },
    Entry {
        name: "TooManyTypes",
        meaning: "A zone has more than 256 local time types.",
        says: "  A zone has more than 256 local time types.\n",
        expected: r#"  At most 256 combinations of offset, daylight flag and abbreviation, which is
  all that a TZif file can number.
"#,
        setup: "",
        wrong: r#"  $ types() { for i in $(seq "$1"); do
  >   echo "0:$((i / 60)):$((i % 60)) - AAA $((1969 + i))"
  > done | sed '1s/^/Zone Test /; $s/ [0-9]*$//'; }
  $ types 257 | pzic check -
"#,
        prints: "  line 1: TooManyTypes\n",
        right: "  $ types 256 | pzic check - | cut -c 1-20\n",
        cause: "  A generated source.\n",
    },
    Entry {
        name: "TooManyChars",
        meaning: "The abbreviations of a zone have more than 256 bytes.",
        says: "  The abbreviations of a zone have more than 256 bytes.\n",
        expected: r#"  At most 256 bytes, where each different abbreviation counts with one byte
  more than it has letters: 64 abbreviations of three letters.
"#,
        setup: "",
        wrong: r#"  $ names() { for i in $(seq 10 $((9 + $1))); do
  >   echo "0 - A$i $((1969 + i))"
  > done | sed '1s/^/Zone Test /; $s/ [0-9]*$//'; }
  $ names 65 | pzic check -
"#,
        prints: "  line 1: TooManyChars\n",
        right: "  $ names 64 | pzic check -\n",
        cause: "  A generated source with an abbreviation for each change.\n",
    },
];
