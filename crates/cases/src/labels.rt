// The label part: condition 15, and the labels that are alike to a label, as a mask with a bit for each label.
ghost use Rattle.std.specs.Prelude.{◌≡◌, map, ◌<◌, ◌≤◌};
ghost use Rattle.sets.specs.Lists.{numbers_from, every};
ghost use Rattle.sets.specs.Words.{number_of_bits};
ghost use Rattle.cases.specs.File.{label_records, label_limit};
ghost use Rattle.cases.specs.Labels.{record_numbers, names_of, occurrences as list_occurrences, same_names, alike_labels};
ghost use Rattle.cases.specs.Conditions.{label_ok, bad_labels};
ghost use Rattle.cases.specs.internal.Checks.{labels_in, LabelPart};
ghost use Rattle.cases.specs.internal.Names.{equally_many, same_as};

use crate::file::has_label_table;
use crate::{Header, Label, LabelRecords, LaidCase, NAMES, Table};

// Whether the numbers of a label are right: none is a name above the limit, and behind the first 0 all are 0.
fn label_holds(x: &Label) -> bool
    ensures { result ≡ label_ok x.now }
{
    x.names.iter().all(|k| *k <= NAMES) && x.names.iter().skip_while(|k| **k != 0).all(|k| *k == 0)
}

// Condition 15.
pub fn bad_labels(case: &LaidCase<'_>) -> bool
    ensures { result ≡ bad_labels case.now.bytes.now }
{
    let table = case.labels();
    !(0..table.count).all(|j| label_holds(&table.at(j)))
}

// How many of the four numbers of a label are k. The truth values are summed, since with `filter` and `count`, which were tried, labels were compared
// slower.
fn occurrences(x: &Label, k: usize) -> usize
    ensures { result ≡ list_occurrences k (record_numbers x.now) }
{
    x.names.iter().map(|n| usize::from(*n == k)).sum()
}

// Whether k is a name of x as many times as of y, if it is one.
fn equally_many(x: &Label, y: &Label, k: usize) -> bool
    ensures { result ≡ equally_many (record_numbers x.now) (record_numbers y.now) k }
{
    k == 0 || occurrences(x, k) == occurrences(y, k)
}

// Whether that holds of each name of z.
fn all_equally_many(x: &Label, y: &Label, z: &Label) -> bool
    ensures { result ≡ every (equally_many (record_numbers x.now) (record_numbers y.now)) (record_numbers z.now) }
{
    z.names.iter().all(|k| equally_many(x, y, *k))
}

// Whether the names of two labels are the same multiset. Most that are not differ in the first name, which is looked at first.
fn same_names(x: &Label, y: &Label) -> bool
    ensures { result ≡ same_names (names_of x.now) (names_of y.now) }
{
    all_equally_many(x, y, x) && all_equally_many(x, y, y)
}

// The labels with the same names as label j. They are read from the last one down, and each makes the mask one bit longer; `fold` over the same
// range would be no plainer.
fn same_labels(table: &LabelRecords<'_>, j: usize) -> u64
    requires { (table.now.count ≤ label_limit) × (j < table.now.count) }
    ensures { result ≡ number_of_bits (map (same_as table.now.part.now table.now.count j) (numbers_from 0 table.now.count)) }
{
    let own = table.at(j);
    let mut mask = 0u64;
    for x in (0..table.count).rev() {
        mask = 2 * mask + u64::from(same_names(&own, &table.at(x)));
    }
    mask
}

// The labels that are alike to label j. The part and the header stand beside each other, here and in the two functions that hand them on: a header
// alone says whether there are records, and a type for the two would be no plainer.
pub fn alike_labels(part: &[u8], h: Header, j: usize) -> u64
    requires { LabelPart part.now h × (j < h.labels) }
    ensures { result ≡ number_of_bits (alike_labels h (labels_in part.now (label_records h)) j) }
{
    if has_label_table(h.version) {
        let table = Table {
            part,
            count: h.labels,
        };
        return same_labels(&table, j);
    }
    1 << j
}
